//! Transition systems of texts, and their edges.

use crate::flows::{made, shown, write_edge};
use crate::texts::{Case, first_wrong};
use flow_edges::Flow;
use flow_transitions::AutoFault::{IntoEntry, Lex, Parse, Points, UnknownPoint};
use flow_transitions::{Auto, AutoFault, flow, read};
use lang_parser::Limit::Variables;
use lang_parser::ParseFault;
use lang_parser::ParseFault::{BigNumber, NameTwice, NondetHere, NotAffine, UnknownName};
use lang_tokens::LexFault::BadByte;
use std::alloc::{AllocError, Global};
use std::fmt::Write;
use test_cases::repeated;

// What a text is; nothing where it is too long.
fn system_of(alloc: Global, text: &[u8]) -> Option<Result<Auto, AutoFault>> {
    if text.len() > 65_536 {
        return None;
    }
    Some(read(alloc, text))
}

// The points and edges of a text, or its fault.
fn flow_of(alloc: Global, text: &[u8]) -> Option<Result<Flow, AutoFault>> {
    match system_of(alloc, text) {
        Some(Ok(auto)) => Some(flow(alloc, &auto)),
        Some(Err(fault)) => Some(Err(fault)),
        None => None,
    }
}

// Whether a text has this fault, or points and edges where there is none.
fn has_fault(alloc: Global, text: &[u8], fault: Option<AutoFault>) -> bool {
    match flow_of(alloc, text) {
        Some(answer) => answer.err() == fault,
        None => false,
    }
}

// Whether a text is no transition system for this fault.
fn is_refused(alloc: Global, text: &str, fault: AutoFault) -> bool {
    match system_of(alloc, text.as_bytes()) {
        Some(answer) => answer.err() == Some(fault),
        None => false,
    }
}

// A text, and the fault for which it is no transition system.
impl Case for (&str, AutoFault) {
    fn is_right(&self, alloc: Global) -> bool {
        is_refused(alloc, self.0, self.1)
    }
}

const FAULTS: &[(&str, AutoFault)] = &[
    ("vars x, y; points s, e; @", Lex(BadByte { at: 24 })),
    ("var x; @", Lex(BadByte { at: 7 })),
    ("vars x, y, x;", Parse(NameTwice { at: 11 })),
    (
        "vars a,b,c,d,e,f,g,h,i,j,k,l,m;",
        Parse(ParseFault::Limit {
            at: 29,
            which: Variables,
        }),
    ),
    (
        "vars a,b,c,d,e,f,g,h,i,j,k,l,a;",
        Parse(NameTwice { at: 29 }),
    ),
    ("vars x; points s, s, e;", Parse(NameTwice { at: 18 })),
    ("vars x; points s; }", Points { count: 1 }),
    (
        "vars x, y; points s, e; edge s z { y = ; }",
        UnknownPoint { at: 31 },
    ),
    (
        "vars x, y; points s, e; edge z s { }",
        UnknownPoint { at: 29 },
    ),
    ("vars x, y; points s, e; edge e s { }", IntoEntry { at: 31 }),
    (
        "vars x, y; points s, e; edge s e { z = 1; }",
        Parse(UnknownName { at: 35 }),
    ),
    (
        "vars x, y; points s, e; edge s e { e = 1; }",
        Parse(UnknownName { at: 35 }),
    ),
    (
        "vars x, y; points s, e; edge s e { x = x < y; }",
        Parse(NotAffine { at: 37 }),
    ),
    (
        "vars x, y; points s, e; edge s e { x = x * y; }",
        Parse(NotAffine { at: 41 }),
    ),
    (
        "vars x, y; points s, e; edge s e { assume(x < z); }",
        Parse(UnknownName { at: 46 }),
    ),
    (
        "vars x, y; points s, e; edge s e { assume(9223372036854775807); }",
        Parse(BigNumber { at: 42 }),
    ),
    (
        "vars x, y; points s, e; edge s e { x = 9223372036854775807 + 1; }",
        Parse(BigNumber { at: 59 }),
    ),
    (
        "vars x, y; points s, e; edge s e { x = 1 + nondet(); }",
        Parse(NondetHere { at: 43 }),
    ),
];

// A text with a token that can't stand where it does, and how many bytes stand before that.
impl Case for (&str, u32) {
    fn is_right(&self, alloc: Global) -> bool {
        let unexpected = ParseFault::Unexpected { at: self.1 };
        is_refused(alloc, self.0, AutoFault::Parse(unexpected))
    }
}

const UNEXPECTED: &[(&str, u32)] = &[
    ("", 0),
    ("var x;", 0),
    ("vars ;", 5),
    ("vars x points", 7),
    ("vars x;", 7),
    ("vars x; points s }", 17),
    ("vars x, y; points s, e; vars", 24),
    ("vars x, y; points s, e; edge s { }", 31),
    ("vars x, y; points s, e; edge s e;", 32),
    ("vars x, y; points s, e; edge s e { x + 1; }", 37),
    ("vars x, y; points s, e; edge s e { x = ; }", 39),
    ("vars x, y; points s, e; edge s e { x = 1 }", 41),
    ("vars x, y; points s, e; edge s e { assume x < 1; }", 42),
    ("vars x, y; points s, e; edge s e { assume(x < 1; }", 47),
    ("vars x, y; points s, e; edge s e { assume(x < 1) }", 49),
    ("vars x, y; points s, e; edge s e { if (x < 1) ; }", 35),
    ("vars x, y; points s, e; edge s e { x = 1;", 41),
    ("vars x, y; points s, e; edge s e { } }", 37),
];

#[test]
fn systems_have_their_first_fault(rt: HostRuntime) {
    assert_eq!(rt; first_wrong(rt.alloc(), FAULTS), None);
    assert_eq!(rt; first_wrong(rt.alloc(), UNEXPECTED), None);
}

// A text of one variable and so many points.
fn with_points(alloc: Global, count: u8) -> Result<String, AllocError> {
    let mut text = String::new(alloc);
    text.push_str("vars x; points p")?;
    for number in 1..count {
        write!(text, ", p{number}")?;
    }
    text.push_str(";")?;
    Ok(text)
}

// How many points there are, and the fault of the text.
impl Case for (u8, Option<AutoFault>) {
    fn is_right(&self, alloc: Global) -> bool {
        match with_points(alloc, self.0) {
            Ok(text) => has_fault(alloc, text.as_bytes(), self.1),
            Err(_) => false,
        }
    }
}

const POINTS: &[(u8, Option<AutoFault>)] = &[
    (1, Some(AutoFault::Points { count: 1 })),
    (2, None),
    (96, None),
    (97, Some(AutoFault::Points { count: 97 })),
];

#[test]
fn systems_have_so_many_points(rt: HostRuntime) {
    assert_eq!(rt; first_wrong(rt.alloc(), POINTS), None);
}

// A text, and its points and edges.
impl Case for (&str, &str) {
    fn is_right(&self, alloc: Global) -> bool {
        match flow_of(alloc, self.0.as_bytes()) {
            Some(Ok(flow)) => match shown(alloc, &flow) {
                Ok(text) => text.as_str() == self.1,
                Err(_) => false,
            },
            _ => false,
        }
    }
}

// A loop; edges in order of their points, then of the text, then of the cases; words of the format as names; two variables.
const SYSTEMS: &[(&str, &str)] = &[
    (
        "vars x; points s, l, e; // a loop
edge s l { x = 0; }
edge l l { assume(x < 100); x = x + 1; }
edge l e { assume(x >= 100); }",
        "entry 0
label 1
label 1
0>1 x=0x+0
1>1 1x-99 x=1x+1
1>2 -1x+100
",
    ),
    (
        "vars x;
points s,
a, b;
edge a b { assume(x != 3); x = 7; assume(x != 5); }
edge s a { x = nondet(); }
edge a a { assume(x); assume(nondet()); }
edge b b { }",
        "entry 0
label 3
label 3
0>1 x=?
1>2 1x-2 x=0x+7 1x-4
1>2 1x-2 x=0x+7 -1x+6
1>2 -1x+4 x=0x+7 1x-4
1>2 -1x+4 x=0x+7 -1x+6
1>1 1x+1
1>1 -1x+1
2>2
",
    ),
    (
        "vars vars, edge; points points, edge; edge points edge { edge = vars; vars = edge - 2 * vars; }",
        "entry 0
label 1
0>1 x=1x+0 x=-2x+0
",
    ),
    (
        "vars x, y;
points start, loop, end;
edge start loop { x = 0; y = 0; }
edge loop loop { assume(x < 10); x = x + 1; y = y + 1; }
edge loop end { assume(x >= 10); }",
        "entry 0
label 2
label 2
0>1 x=0x+0 x=0x+0
1>1 1x-9 x=1x+1 x=0x+1
1>2 -1x+10
",
    ),
];

#[test]
fn systems_have_points_and_edges(rt: HostRuntime) {
    assert_eq!(rt; first_wrong(rt.alloc(), SYSTEMS), None);
}

// What stands before, a piece and how often it stands, and the fault of the text.
impl Case for (&str, &str, usize, Option<AutoFault>) {
    fn is_right(&self, alloc: Global) -> bool {
        match repeated(alloc, self.0.as_bytes(), self.1.as_bytes(), self.2, b"}") {
            Ok(text) => has_fault(alloc, text.as_slice(), self.3),
            Err(_) => false,
        }
    }
}

const START: &str = "vars x; points s, e; edge s e {";

const SHAPES: &[(&str, &str, usize, Option<AutoFault>)] = &[
    (START, "x = x + 1;", 256, None),
    (
        START,
        "x = x + 1;",
        257,
        Some(AutoFault::Actions { edge: 0 }),
    ),
    (START, "} edge s e {", 255, None),
    (START, "} edge s e {", 256, Some(AutoFault::Edges)),
    (START, "assume(x != 1);", 8, None),
    (START, "assume(x != 1);", 9, Some(AutoFault::Edges)),
    (START, "assume(x != 1);", 80, Some(AutoFault::Edges)),
];

#[test]
fn systems_have_so_many_edges_and_actions(rt: HostRuntime) {
    assert_eq!(rt; first_wrong(rt.alloc(), SHAPES), None);
}

// A text, and why it has no points and edges, or that it has some.
impl Case for (&str, Option<AutoFault>) {
    fn is_right(&self, alloc: Global) -> bool {
        has_fault(alloc, self.0.as_bytes(), self.1)
    }
}

const CASES: &[(&str, Option<AutoFault>)] = &[
    (
        "vars x; points s, e; edge s e { assume(x != 1 && x != 1 && x != 1 && x != 1 && x != 1 && x != 1); }",
        None,
    ),
    (
        "vars x; points s, e; edge s e { } edge s e { x = 1; assume(x != 1 && x != 1 && x != 1 && x != 1 && x != 1 && x != 1 && x != 1); }",
        Some(AutoFault::Cases { at: 39 }),
    ),
];

#[test]
fn assumptions_have_so_many_cases(rt: HostRuntime) {
    assert_eq!(rt; first_wrong(rt.alloc(), CASES), None);
}

// Edges, one a line.
fn edges_of(alloc: Global, flow: &Flow) -> Result<String, AllocError> {
    let mut text = String::new(alloc);
    for edge in flow.edges.as_slice() {
        write_edge(&mut text, edge)?;
    }
    Ok(text)
}

// Whether two have the same edges.
fn have_same_edges(alloc: Global, first: &Flow, second: &Flow) -> bool {
    match (edges_of(alloc, first), edges_of(alloc, second)) {
        (Ok(first), Ok(second)) => first.as_str() == second.as_str(),
        _ => false,
    }
}

// The text of a program, and that of a transition system with the same edges.
impl Case for (&[u8], &[u8]) {
    fn is_right(&self, alloc: Global) -> bool {
        match (made(alloc, self.0), flow_of(alloc, self.1)) {
            (Some(Ok(program)), Some(Ok(system))) => have_same_edges(alloc, &program, &system),
            _ => false,
        }
    }
}

const PROGRAMS: &[(&[u8], &[u8])] = &[
    (
        b"int main() { int x = 0; while (x < 100) { x = x + 1; } }",
        b"vars x; points s, l, e; edge s l { x = 0; } edge l l { assume(x < 100); x = x + 1; } edge l e { assume(!(x < 100)); }",
    ),
    (
        b"int main() { int x; while (nondet()) { if (x < 5) a: ; else assume(x != 3); assume(x == 7); } }",
        b"vars x; points s, l, a, b, c, e; edge s l { x = nondet(); } edge l a { assume(nondet()); assume(x < 5); } edge l b { assume(nondet() && x >= 5); assume(x != 3); } edge l e { } edge a c { } edge b c { } edge c l { assume(x == 7); }",
    ),
];

#[test]
fn systems_have_the_edges_of_programs(rt: HostRuntime) {
    assert_eq!(rt; first_wrong(rt.alloc(), PROGRAMS), None);
}
