//! Equations of texts.

use crate::texts::{Case, first_wrong};
use flow_rationals::{EquFault, Equations, Sum, read};
use lang_tokens::LexFault;
use std::alloc::Global;

// What a text is; nothing where it is too long.
fn equations_of(alloc: Global, text: &[u8]) -> Option<Result<Equations, EquFault>> {
    if text.len() > 65_536 {
        return None;
    }
    Some(read(alloc, text))
}

// A text, and its fault.
impl Case for (&str, EquFault) {
    fn is_right(&self, alloc: Global) -> bool {
        match equations_of(alloc, self.0.as_bytes()) {
            Some(answer) => answer.err() == Some(self.1),
            None => false,
        }
    }
}

const FAULTS: &[(&str, EquFault)] = &[
    (
        "a = max(0, @);",
        EquFault::Lex(LexFault::BadByte { at: 11 }),
    ),
    ("", EquFault::Unexpected { at: 0 }),
    ("max = max(0);", EquFault::Unexpected { at: 0 }),
    ("a = max(0, 1:2*3);", EquFault::Unexpected { at: 15 }),
    ("a = max(0, min(a, -2*a));", EquFault::Unexpected { at: 20 }),
    ("a = max(0); a", EquFault::Unexpected { at: 13 }),
    ("a = max(0, b); a = max(0);", EquFault::NameTwice { at: 15 }),
    (
        "a=max(0);b=max(0);c=max(0);d=max(0);e=max(0);f=max(0);g=max(0);h=max(0);i=max(0);j=max(0);k=max(0);l=max(z);",
        EquFault::Unexpected { at: 105 },
    ),
    (
        "a=max(0);b=max(0);c=max(0);d=max(0);e=max(0);f=max(0);g=max(0);h=max(0);i=max(0);j=max(0);k=max(0);l=max(0,z);",
        EquFault::Count { count: 12 },
    ),
    ("a = max(0, 1:0*a);", EquFault::ZeroBelow { at: 13 }),
    ("a = max(1:0, b);", EquFault::ZeroBelow { at: 10 }),
    ("a = max(0, b);", EquFault::UnknownName { at: 11 }),
    ("a = max(0, 1:0*b);", EquFault::ZeroBelow { at: 13 }),
    (
        "a = max(0, min(1,1,1,1,1,1,1,1,1,1,1,1,1,1,1,1,z));",
        EquFault::Terms { at: 47 },
    ),
    (
        "a = max(0, 9223372036854775807 + 1);",
        EquFault::Big { at: 11 },
    ),
    (
        "a = max(0, 1:4294967296 + 1:4294967297);",
        EquFault::Big { at: 11 },
    ),
    (
        "a = max(0, 9223372036854775807 + z);",
        EquFault::UnknownName { at: 33 },
    ),
];

#[test]
fn equations_have_their_first_fault(rt: HostRuntime) {
    assert_eq!(rt; first_wrong(rt.alloc(), FAULTS), None);
}

// Whether this is the sum.
fn is_sum(sum: &Sum, coeffs: &[i64], constant: i64, den: i64) -> bool {
    sum.coeffs.as_slice() == coeffs && sum.constant == constant && sum.den == den
}

// Whether the first sum of a text's first equation is this.
fn starts_with(
    alloc: Global,
    text: &[u8],
    coeffs: &[i64],
    constant: i64,
    den: i64,
) -> Option<bool> {
    let equations = equations_of(alloc, text)?.ok()?;
    let first = equations.as_slice().first()?;
    let sums = first.alternatives.as_slice().first()?;
    let sum = sums.as_slice().first()?;
    Some(is_sum(sum, coeffs, constant, den))
}

// A text, and the coefficients, the constant and the denominator of its first sum.
impl Case for (&str, &[i64], i64, i64) {
    fn is_right(&self, alloc: Global) -> bool {
        starts_with(alloc, self.0.as_bytes(), self.1, self.2, self.3) == Some(true)
    }
}

const SUMS: &[(&str, &[i64], i64, i64)] = &[
    ("a = max(0, 1:2*a + 1);", &[1], 2, 2),
    (
        "a = max(0, min(a + 1, b)); b = max(1:2, min(2*b, 10:3));",
        &[1, 0],
        1,
        1,
    ),
    ("a = max(1, 2*a);", &[2], 0, 1),
    (
        "a = max(0, 1:6*b + 3:4*a + -5:6 + 1:4*a); b = max(0);",
        &[12, 2],
        -10,
        12,
    ),
];

#[test]
fn sums_stand_over_their_common_denominator(rt: HostRuntime) {
    assert_eq!(rt; first_wrong(rt.alloc(), SUMS), None);
}
