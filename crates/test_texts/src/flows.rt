//! Points and edges of programs, and why a program has none.

ghost use Rattle.std.specs.Prelude.{◌≡◌, IsTrue};
ghost use Rattle.lang_tree.specs.View.{condition_of};
ghost use Rattle.flow_edges.specs.Constants.{have_room};

use crate::texts::{Case, first_wrong, read};
use flow_edges::{Action, CasesFault, Edge, Flow, FlowFault, Place, cases, flow};
use lang_tree::{Coeffs, Cond, Form, Rel};
use std::alloc::{AllocError, Global};
use std::fmt::Write;
use test_cases::repeated;

// A place in one word.
fn place_word(place: &Place) -> &'static str {
    match place {
        Place::Entry => "entry",
        Place::Loop => "loop",
        Place::Label(_) => "label",
        Place::Join => "join",
        Place::Assume => "assume",
        Place::Exit => "exit",
    }
}

// The coefficient of the first variable, and the constant.
fn write_form(text: &mut String, form: &Form) -> Result<(), AllocError> {
    let coeff = form.coeffs.as_slice().first().copied().unwrap_or(0);
    let constant = form.constant;
    write!(text, "{coeff}x{constant:+}")
}

// An action, with its form.
fn write_action(text: &mut String, action: &Action) -> Result<(), AllocError> {
    match action {
        Action::Guard(form) => {
            text.push_str(" ")?;
            write_form(text, form)
        }
        Action::Assign { form, .. } => {
            text.push_str(" x=")?;
            write_form(text, form)
        }
        Action::Havoc { .. } => text.push_str(" x=?"),
        Action::Check(check) => {
            let at = check.at;
            write!(text, " check@{at}")
        }
    }
}

/// An edge with its actions, on a line.
pub(crate) fn write_edge(text: &mut String, edge: &Edge) -> Result<(), AllocError> {
    let from = edge.from;
    let to = edge.to;
    write!(text, "{from}>{to}")?;
    for action in edge.actions.as_slice() {
        write_action(text, action)?;
    }
    text.push_str("\n")
}

/// The points with their lines, and the edges with their actions, one a line.
pub(crate) fn shown(alloc: Global, flow: &Flow) -> Result<String, AllocError> {
    let mut text = String::new(alloc);
    for point in flow.points.as_slice() {
        let word = place_word(&point.place);
        let line = point.line;
        write!(text, "{word} {line}\n")?;
    }
    for edge in flow.edges.as_slice() {
        write_edge(&mut text, edge)?;
    }
    Ok(text)
}

/// The points and edges of a text; nothing where it is no program.
pub(crate) fn made(alloc: Global, text: &[u8]) -> Option<Result<Flow, FlowFault>> {
    match read(alloc, text) {
        Some(Ok(program)) => Some(flow(alloc, &program)),
        _ => None,
    }
}

// A text of one variable, and its points and edges.
impl Case for (&[u8], &str) {
    fn is_right(&self, alloc: Global) -> bool {
        match made(alloc, self.0) {
            Some(Ok(flow)) => match shown(alloc, &flow) {
                Ok(text) => text.as_str() == self.1 && flow.names.as_slice().len() == 1,
                Err(_) => false,
            },
            _ => false,
        }
    }
}

const PROGRAMS: &[(&[u8], &str)] = &[
    (
        b"int main() { int x = 0; while (x < 100) { x = x + 1; } }",
        "entry 0\nloop 1\nexit 0\n0>1 x=0x+0\n1>1 1x-99 x=1x+1\n1>2 -1x+100\n",
    ),
    // An `assert` makes no point; the cases in which it holds are ways.
    (
        b"int main() { int x = 0; while (x < 100) { assert(x < 50); x++; } }",
        "entry 0\nloop 1\nexit 0\n0>1 x=0x+0\n1>1 1x-99 check@42 1x-49 x=1x+1\n1>2 -1x+100\n",
    ),
    (
        b"int main() { int x; __VERIFIER_assert(x != 3); assert(nondet()); }",
        "entry 0\nexit 0\n0>1 x=? check@20 1x-2 check@47\n0>1 x=? check@20 -1x+4 check@47\n",
    ),
    (
        b"int main() { int x; while (nondet()) {\nif (x < 5) a: ; else assume(x != 3);\nassume(x == 7); } }",
        "entry 0\nloop 1\nlabel 2\nassume 2\njoin 2\nexit 0\n0>1 x=?\n1>2 1x-4\n1>3 -1x+5 1x-2\n1>3 -1x+5 -1x+4\n1>5\n2>4\n3>4\n4>1 1x-7 -1x+7\n",
    ),
];

#[test]
fn programs_have_points_and_edges(rt: HostRuntime) {
    assert_eq!(rt; first_wrong(rt.alloc(), PROGRAMS), None);
}

// Whether the program of this text has so many points and edges.
fn has_sizes(alloc: Global, text: &[u8], points: usize, edges: usize) -> bool {
    match made(alloc, text) {
        Some(Ok(flow)) => {
            flow.points.as_slice().len() == points && flow.edges.as_slice().len() == edges
        }
        _ => false,
    }
}

// Whether the program of this text has this fault, or points and edges where there is none.
fn has_fault(alloc: Global, text: &[u8], fault: Option<FlowFault>) -> bool {
    match made(alloc, text) {
        Some(answer) => answer.err() == fault,
        None => false,
    }
}

#[test]
fn conditions_have_so_many_cases(rt: HostRuntime) {
    let most =
        b"int main() { int x; assume(x != 1 && x != 1 && x != 1 && x != 1 && x != 1 && x != 1); }";
    assert!(rt; has_sizes(rt.alloc(), most, 3, 65));
    let more =
        b"int main() { int x; assume(x != 1 && x != 1 && x != 1 && x != 1 && x != 1 && x != 1 && x != 1); }";
    assert!(rt; has_fault(rt.alloc(), more, Some(FlowFault::Cases { line: 1 })));
}

// What stands before, a piece and how often it stands, and the fault of the text.
impl Case for (&[u8], &[u8], usize, Option<FlowFault>) {
    fn is_right(&self, alloc: Global) -> bool {
        match repeated(alloc, self.0, self.1, self.2, b"}") {
            Ok(text) => has_fault(alloc, text.as_slice(), self.3),
            Err(_) => false,
        }
    }
}

const START: &[u8] = b"int main() { int x; ";

const MARKED: &[u8] = b"int main() { int x; a: ";

const LOOPS: &[u8] = b"while (nondet()) ; ";

const SHAPES: &[(&[u8], &[u8], usize, Option<FlowFault>)] = &[
    // There are fewer statements than points.
    (START, LOOPS, 511, None),
    (MARKED, b"x++; ", 510, None),
];

#[test]
fn programs_of_many_statements_have_points_and_edges(rt: HostRuntime) {
    assert_eq!(rt; first_wrong(rt.alloc(), SHAPES), None);
}

// A program whose second edge has 16 assumptions of 64 guards, and one action more or none.
fn many_actions(alloc: Global, more: bool) -> Result<Vec<u8>, AllocError> {
    let assumption = repeated(alloc, b"assume(x<1", b"&&x<1", 63, b");")?;
    let end = if more {
        b"x++; }".as_slice()
    } else {
        b"}".as_slice()
    };
    repeated(alloc, MARKED, assumption.as_slice(), 16, end)
}

// Whether the second edge has one action more, and the fault of the text.
impl Case for (bool, Option<FlowFault>) {
    fn is_right(&self, alloc: Global) -> bool {
        match many_actions(alloc, self.0) {
            Ok(text) => has_fault(alloc, text.as_slice(), self.1),
            Err(_) => false,
        }
    }
}

const ACTIONS: &[(bool, Option<FlowFault>)] = &[
    (false, None),
    (true, Some(FlowFault::Actions { edge: 1 })),
];

#[test]
fn an_edge_has_so_many_actions(rt: HostRuntime) {
    assert_eq!(rt; first_wrong(rt.alloc(), ACTIONS), None);
}

// A program of 127 assumptions of 64 cases, and one of so many and one more.
fn many_cases(alloc: Global, last: usize) -> Result<Vec<u8>, AllocError> {
    let assumption = repeated(alloc, b"assume(x<1", b"||x<1", 63, b");")?;
    let end = repeated(alloc, b"assume(x<1", b"||x<1", last, b"); }")?;
    let start = b"int main() { int x; ";
    repeated(alloc, start, assumption.as_slice(), 127, end.as_slice())
}

// How many `||` stand in the last assumption, and the fault of the text.
impl Case for (usize, Option<FlowFault>) {
    fn is_right(&self, alloc: Global) -> bool {
        match many_cases(alloc, self.0) {
            Ok(text) => has_fault(alloc, text.as_slice(), self.1),
            Err(_) => false,
        }
    }
}

// The sum of the cases, and one edge from the last of these points to the exit.
const EDGES: &[(usize, Option<FlowFault>)] = &[(62, None), (63, Some(FlowFault::Edges))];

#[test]
fn programs_have_so_many_edges(rt: HostRuntime) {
    assert_eq!(rt; first_wrong(rt.alloc(), EDGES), None);
}

// A condition of comparisons within the numbers of a program.
#[derive(Drop)]
struct Asked {
    cond: Cond,
    ghost room: { IsTrue (have_room (condition_of cond)) },
}

// `x != constant`.
fn differs(alloc: Global, constant: i16) -> Result<Asked, AllocError> {
    let form = Form {
        coeffs: Coeffs::new(vec![in alloc; 1]?),
        constant: -i64::from(constant),
    };
    Ok(Asked {
        cond: Cond::Cmp(Rel::Ne, form),
    })
}

fn both(alloc: Global, first: Asked, second: Asked) -> Result<Asked, AllocError> {
    let Asked { cond: a, .. } = first;
    let Asked { cond: b, .. } = second;
    Ok(Asked {
        cond: Cond::Both(Box::new(alloc, a)?, Box::new(alloc, b)?),
    })
}

// `x != 1 && x != 2 && ..`, of so many comparisons and one more.
fn all_differ(alloc: Global, count: u8) -> Result<Asked, AllocError> {
    let mut asked = differs(alloc, 1)?;
    for k in 0..count {
        asked = both(alloc, asked, differs(alloc, i16::from(k) + 2)?)?;
    }
    Ok(asked)
}

// Whether the condition has so many cases for this truth, or more than are listed where it is nothing.
fn has_cases(alloc: Global, asked: &Asked, truth: bool, wanted: Option<usize>) -> bool {
    match cases(alloc, &asked.cond, truth) {
        Ok(list) => wanted == Some(list.as_slice().len()),
        Err(fault) => fault == CasesFault::TooMany && wanted.is_none(),
    }
}

// How many comparisons there are besides one, and how many cases where their conjunction holds and where it fails.
impl Case for (u8, Option<usize>, usize) {
    fn is_right(&self, alloc: Global) -> bool {
        match all_differ(alloc, self.0) {
            Ok(asked) => {
                has_cases(alloc, &asked, true, self.1)
                    && has_cases(alloc, &asked, false, Some(self.2))
            }
            Err(_) => false,
        }
    }
}

const COUNTS: &[(u8, Option<usize>, usize)] = &[
    (0, Some(2), 1),
    (5, Some(64), 6),
    (6, None, 7),
    (63, None, 64),
];

#[test]
fn cases_are_listed(rt: HostRuntime) {
    assert_eq!(rt; first_wrong(rt.alloc(), COUNTS), None);
}
