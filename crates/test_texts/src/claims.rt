//! Claims of texts.

use crate::texts::{Case, first_wrong, read};
use ask_claims::ClaimFault::{Cases, Count, Lex, Parse, UnknownLabel};
use ask_claims::{Claim, ClaimFault, read_claims};
use flow_edges::flow;
use lang_parser::Limit::{Leaves, Nesting};
use lang_parser::ParseFault;
use lang_parser::ParseFault::{BigNumber, NondetHere, NotAffine, Unexpected, UnknownName};
use lang_tokens::LexFault::BadByte;
use lang_tokens::line_of;
use std::alloc::Global;
use test_cases::repeated;

/// Its points are the entry, `here`, the loop, `there` and the exit.
const PROGRAM: &[u8] =
    b"int main() { int x = 0, y; here: while (x < 10) x = x + 1; there: y = x; }";

// What a file of claims says of the program; nothing where it is too long.
fn claims_of(alloc: Global, text: &[u8]) -> Option<Result<Vec<Claim>, ClaimFault>> {
    if text.len() > 65_536 {
        return None;
    }
    let program = read(alloc, PROGRAM)?.ok()?;
    let flow = flow(alloc, &program).ok()?;
    Some(read_claims(alloc, text, &flow))
}

// The place of the faults below.
fn place_of(fault: ClaimFault) -> u32 {
    match fault {
        Lex(BadByte { at }) => at,
        Parse(Unexpected { at }) => at,
        Parse(UnknownName { at }) => at,
        Parse(NotAffine { at }) => at,
        Parse(NondetHere { at }) => at,
        Parse(BigNumber { at }) => at,
        UnknownLabel { at } => at,
        Cases { at } => at,
        _ => 0,
    }
}

// The fault of a file of claims, with its line.
fn fault_of(alloc: Global, text: &[u8]) -> Option<(ClaimFault, u32)> {
    let fault = claims_of(alloc, text)?.err()?;
    let line = if text.len() > 65_536 {
        0
    } else {
        line_of(text, place_of(fault))
    };
    Some((fault, line))
}

// A file of claims, its fault, and the fault's line.
impl Case for (&str, ClaimFault, u32) {
    fn is_right(&self, alloc: Global) -> bool {
        fault_of(alloc, self.0.as_bytes()) == Some((self.1, self.2))
    }
}

const FAULTS: &[(&str, ClaimFault, u32)] = &[
    ("nowhere: x;\n@", Lex(BadByte { at: 12 }), 2),
    ("here x;", Parse(Unexpected { at: 5 }), 1),
    ("here: x;\n4: x;", Parse(Unexpected { at: 9 }), 2),
    ("here: x <=\n;", Parse(Unexpected { at: 11 }), 2),
    ("here: x < 1", Parse(Unexpected { at: 11 }), 1),
    ("here: x < 1)", Parse(Unexpected { at: 11 }), 1),
    ("nowhere: z;", UnknownLabel { at: 0 }, 1),
    ("here: x;\n\nnowhere z;", UnknownLabel { at: 10 }, 3),
    ("here: x;\nhere: z < 4;", Parse(UnknownName { at: 15 }), 2),
    ("here: x * y;", Parse(NotAffine { at: 8 }), 1),
    ("here: nondet() + 1 < x;", Parse(NondetHere { at: 6 }), 1),
    ("here: nondet();", Parse(NondetHere { at: 6 }), 1),
    (
        "here: x < 1 ||\n!nondet() || nondet()",
        Parse(NondetHere { at: 16 }),
        2,
    ),
    ("here: 9223372036854775807", Parse(BigNumber { at: 6 }), 1),
    (
        "here: x;\nhere: x==1||x==1||x==1||x==1||x==1||x==1||x==1;",
        Cases { at: 9 },
        2,
    ),
];

#[test]
fn claims_have_their_first_fault(rt: HostRuntime) {
    assert_eq!(rt; first_wrong(rt.alloc(), FAULTS), None);
}

// A file of claims, and their points.
impl Case for (&str, &[u32]) {
    fn is_right(&self, alloc: Global) -> bool {
        match claims_of(alloc, self.0.as_bytes()) {
            Some(Ok(claims)) => {
                claims.len() == self.1.len()
                    && claims
                        .iter()
                        .zip(self.1)
                        .all(|(claim, point)| claim.point == *point)
            }
            _ => false,
        }
    }
}

const READ: &[(&str, &[u32])] = &[
    ("", &[]),
    ("here: x <= 10; // the loop\nthere: x == 10 && y;", &[1, 3]),
    ("there: x==1||x==1||x==1||x==1||x==1||x==1;", &[3]),
];

#[test]
fn claims_stand_at_their_labels(rt: HostRuntime) {
    assert_eq!(rt; first_wrong(rt.alloc(), READ), None);
}

// A text before, one that stands so many times, one behind, and the fault.
impl Case for (&[u8], &[u8], usize, &[u8], Option<ClaimFault>) {
    fn is_right(&self, alloc: Global) -> bool {
        match repeated(alloc, self.0, self.1, self.2, self.3) {
            Ok(text) => match claims_of(alloc, text.as_slice()) {
                Some(answer) => answer.err() == self.4,
                None => false,
            },
            Err(_) => false,
        }
    }
}

const LIMITS: &[(&[u8], &[u8], usize, &[u8], Option<ClaimFault>)] = &[
    (b"", b"here: x;", 64, b"", None),
    (b"", b"here: x;", 65, b"", Some(Count { at: 512 })),
    (b"", b"here: x;", 64, b"\nnowhere", Some(Count { at: 513 })),
    (
        b"",
        b"here: x;",
        64,
        b"\n;",
        Some(Parse(Unexpected { at: 513 })),
    ),
    (b"here: ", b"x&&", 63, b"x;", None),
    (
        b"here: ",
        b"x&&",
        64,
        b"x;",
        Some(Parse(ParseFault::Limit {
            at: 6,
            which: Leaves,
        })),
    ),
    (
        b"here: ",
        b"(",
        65,
        b"x;",
        Some(Parse(ParseFault::Limit {
            at: 70,
            which: Nesting,
        })),
    ),
];

#[test]
fn claims_have_their_limits(rt: HostRuntime) {
    assert_eq!(rt; first_wrong(rt.alloc(), LIMITS), None);
}
