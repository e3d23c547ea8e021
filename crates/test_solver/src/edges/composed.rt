//! Composed edges.

ghost use Rattle.std.specs.Prelude.{◌<◌, length};

use crate::cases::{Case, Fail, first_wrong};
use crate::edges::lines::{add_fractions, add_number};
use crate::edges::systems::system_of;
use base_fractions::Op;
use flow_systems::Site;
use solve_composition::{Affine, PathFault, Paths, compose_all};
use std::alloc::{AllocError, Global};

// Appends the coefficients of a form and its constant.
fn add_form(line: &mut Vec<u8>, word: &[u8], form: &Affine) -> Result<(), AllocError> {
    add_fractions(line, word, form.coeffs.as_slice())?;
    add_fractions(line, b" +", [form.constant].as_slice())
}

// Appends an edge: the number of its free values, its guards, and the rows at its end.
fn add_edge(line: &mut Vec<u8>, paths: &Paths, edge: u32) -> Result<(), AllocError>
    requires { edge < length paths.now }
{
    add_number(line, b"frees ", paths.frees(edge))?;
    add_number(line, b" guards ", paths.guards(edge))?;
    for guard in paths.path(edge).guards.as_slice() {
        add_form(line, b"; guard", guard)?;
    }
    for row in paths.path(edge).rows.as_slice() {
        add_form(line, b"; row", row)?;
    }
    Ok(())
}

// The word of an operation's result.
fn word_of(op: Op) -> &'static [u8] {
    match op {
        Op::Add => b" sum of",
        Op::Sub => b" difference of",
        Op::Mul => b" product of",
        Op::Div => b" quotient of",
    }
}

// Appends the round, the edge and the operands of the operation that is too wide.
fn add_fault(line: &mut Vec<u8>, fault: PathFault) -> Result<(), Fail> {
    match fault {
        PathFault::Wide(spot) => {
            add_number(line, b"wide in round ", spot.round)?;
            if let Site::Compose { edge } = spot.site {
                add_number(line, b" at edge ", edge)?;
            }
            let operands = [spot.wide.left, spot.wide.right];
            add_fractions(line, word_of(spot.wide.op), operands.as_slice())?;
            Ok(())
        }
        PathFault::NoMemory => Err("ample memory".into()),
    }
}

// The line of an edge of a text, over the rows x and -x.
fn line_of(alloc: Global, text: &[u8], edge: u32) -> Result<Vec<u8>, Fail> {
    let system = system_of(alloc, text, false)?;
    if edge as usize >= system.flow.edges.as_slice().len() {
        return Err("an edge".into());
    }
    let mut line = Vec::new(alloc);
    match compose_all(alloc, &system) {
        Ok(paths) => add_edge(&mut line, &paths, edge)?,
        Err(fault) => add_fault(&mut line, fault)?,
    }
    Ok(line)
}

// A text over the rows x and -x, an edge, and its line.
impl Case for (&[u8], u32, &[u8]) {
    fn is_right(&self, alloc: Global) -> bool {
        match line_of(alloc, self.0, self.1) {
            Ok(line) => line.as_slice() == self.2,
            Err(_) => false,
        }
    }
}

// The greatest fraction is 31833193 * 11777599 * 24601. A line is found by hand.
const EDGES: &[(&[u8], u32, &[u8])] = &[
    (
        b"int main() { int x = 0; }",
        0,
        b"frees 0 guards 0; row 0 + 0; row 0 + 0",
    ),
    (
        b"int main() { int x = 0; while (x < 100) { x = x + 1; assume(x >= 10); } }",
        1,
        b"frees 0 guards 2; guard 1 + -99; guard -1 + 9; row 1 + 1; row -1 + -1",
    ),
    (
        b"int main() { int x = nondet(); assume(2*x <= 3); x = nondet(); x = 5*x + 7; }",
        0,
        b"frees 2 guards 1; guard 0 2 0 + -3; row 0 0 5 + 7; row 0 0 -5 + -7",
    ),
    (
        b"int main() { int x = nondet(); x = 31833193*x; x = 11777599*x; x = 24601*x; }",
        0,
        b"frees 1 guards 0; row 0 9223372036854775807 + 0; row 0 -9223372036854775807 + 0",
    ),
    (
        b"int main() { int x = nondet(); x = 31833193*x; x = 11777599*x; x = 24602*x; }",
        0,
        b"wide in round 0 at edge 0 product of 24602 374918582043607",
    ),
];

#[test]
fn edges_have_their_forms(rt: HostRuntime) {
    assert_eq!(rt; first_wrong(rt.alloc(), EDGES), None);
}
