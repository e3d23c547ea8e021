//! Transformers, with their evidence.

ghost use Rattle.std.specs.Prelude.{◌≡◌, ◌<◌, IfOk, length};
ghost use Rattle.flow_systems.specs.View.{equations_of, IsVectorOf};
ghost use Rattle.solve_composition.specs.Composed.{AreComposed};

use crate::cases::{Case, Fail, first_wrong};
use crate::edges::lines::{add_fractions, add_number};
use crate::edges::systems::system_of;
use base_fractions::{Ext, Frac};
use flow_systems::{Bounds, System, Trace};
use solve_composition::{Paths, Value, compose_all};
use solve_transformer::operator;
use std::alloc::{AllocError, Global};

/// A bound at an edge's source.
#[derive(Clone, Copy, Drop)]
enum At {
    Lost,
    Finite(i64, i64),
    Free,
}

use At::{Finite, Free, Lost};

/// An edge of a text, over zones or intervals, the bounds at its source, and the transformers of the rows with their evidence;
/// or without, where other evidence would do as well.
struct Transformed<'a> {
    text: &'a [u8],
    in_pairs: bool,
    edge: u32,
    bounds: &'a [At],
    is_shown: bool,
    line: &'a [u8],
}

// Appends the start values and the free values of a trace.
fn add_trace(line: &mut Vec<u8>, word: &[u8], trace: &Trace) -> Result<(), AllocError> {
    add_fractions(line, word, trace.start.as_slice())?;
    add_fractions(line, b" free", trace.free.as_slice())
}

// Appends the multipliers of the rows and of the guards.
fn add_multipliers(line: &mut Vec<u8>, rows: &[Frac], guards: &[Frac]) -> Result<(), AllocError> {
    add_fractions(line, b" by", rows)?;
    add_fractions(line, b" guards", guards)
}

// Appends a value, with its evidence if that is shown.
fn add_value(line: &mut Vec<u8>, value: &Value, is_shown: bool) -> Result<(), AllocError> {
    match value {
        Value::Unreached { row } => add_number(line, b"unreached ", *row),
        Value::Empty { rows, guards } => {
            line.extend_from_slice(b"empty")?;
            if is_shown {
                add_multipliers(line, rows.as_slice(), guards.as_slice())?;
            }
            Ok(())
        }
        Value::Best {
            value,
            trace,
            rows,
            guards,
        } => {
            add_fractions(line, b"best", [*value].as_slice())?;
            if is_shown {
                add_trace(line, b" at", trace)?;
                add_multipliers(line, rows.as_slice(), guards.as_slice())?;
            }
            Ok(())
        }
        Value::Unbounded { trace, direction } => {
            add_trace(line, b"unbounded at", trace)?;
            add_trace(line, b" along", direction)
        }
    }
}

fn bound_of(at: At) -> Result<Ext, Fail> {
    match at {
        Lost => Ok(Ext::NegInf),
        Finite(num, den) => Ok(Ext::Fin(Frac::make(num, den).ok_or("a number")?)),
        Free => Ok(Ext::PosInf),
    }
}

// A vector with these bounds from an unknown on.
fn bounds_of(alloc: Global, system: &System, first: u32, bounds: &[At]) -> Result<Bounds, Fail>
    requires { 0 < length system.now.flow.points }
    ensures { IfOk result (λ vector. IsVectorOf system.now vector) }
{
    let mut vector = Bounds::start(alloc, system)?;
    let mut unknown = first;
    for at in bounds {
        if unknown as usize >= vector.as_slice().len() {
            return Err("a bound for each row".into());
        }
        vector.set(unknown, bound_of(*at)?);
        unknown = unknown.saturating_add(1);
    }
    Ok(vector)
}

// Appends the transformers of the edge and each row.
fn add_values(
    alloc: Global,
    line: &mut Vec<u8>,
    system: &System,
    paths: &Paths,
    vector: &Bounds,
    case: &Transformed,
) -> Result<(), Fail>
    requires paths { AreComposed (equations_of system.now) paths.now }
    requires vector { IsVectorOf system.now vector.now }
    requires edge { case.now.edge < length system.now.flow.edges }
{
    for row in 0..system.template.as_slice().len() {
        match operator(alloc, system, paths, vector, case.edge, row as u32) {
            Ok(value) => add_value(line, &value, case.is_shown)?,
            Err(_) => return Err("small numbers".into()),
        }
        line.extend_from_slice(b"; ")?;
    }
    Ok(())
}

// The line of a case.
fn line_of(alloc: Global, case: &Transformed) -> Result<Vec<u8>, Fail> {
    let system = system_of(alloc, case.text, case.in_pairs)?;
    let edges = system.flow.edges.as_slice();
    if case.edge as usize >= edges.len() {
        return Err("an edge".into());
    }
    let rows = system.template.as_slice().len() as u32;
    let first = edges[case.edge as usize].from.saturating_mul(rows);
    let vector = bounds_of(alloc, &system, first, case.bounds)?;
    let mut line = Vec::new(alloc);
    match compose_all(alloc, &system) {
        Ok(paths) => add_values(alloc, &mut line, &system, &paths, &vector, case)?,
        Err(_) => return Err("small numbers".into()),
    }
    Ok(line)
}

const COUNTER: &[u8] = b"int main() { int x = 0; while (x < 100) { x = x + 1; } }";

const THIRDS: &[u8] =
    b"int main() { int x = 0; while (nondet()) { assume(3*x <= 10); x = x + 1; } }";

const HALVES: &[u8] =
    b"int main() { int x = 0, y = 0; while (nondet()) { y = nondet(); assume(2*y == x + 2); x = y; } }";

const TOGETHER: &[u8] =
    b"int main() { int x = 0, y = 0; while (x < 10) { x = x + 1; y = y + 1; } }";

const DOWN: &[u8] = b"int main() { int x = 5; while (x != 0) { x = x - 1; } }";

const ASSUMED: &[u8] = b"int main() { int x = nondet(); assume(x <= 7); }";

const IMPOSSIBLE: &[u8] = b"int main() { int x = nondet(); assume(1 > 2); }";

impl Case for Transformed<'_> {
    fn is_right(&self, alloc: Global) -> bool {
        match line_of(alloc, self) {
            Ok(line) => line.as_slice() == self.line,
            Err(_) => false,
        }
    }
}

// A row's supremum, a state that reaches it and the multipliers that bound it are found by hand.
const CASES: &[Transformed] = &[
    Transformed {
        text: COUNTER,
        in_pairs: false,
        edge: 1,
        bounds: &[Finite(100, 1), Finite(0, 1)],
        is_shown: true,
        line: b"best 100 at 99 free by 0 0 guards 1; best -1 at 0 free by 0 1 guards 0; ",
    },
    Transformed {
        text: COUNTER,
        in_pairs: false,
        edge: 1,
        bounds: &[Finite(5, 1), Lost],
        is_shown: true,
        line: b"unreached 1; unreached 1; ",
    },
    Transformed {
        text: THIRDS,
        in_pairs: false,
        edge: 1,
        bounds: &[Finite(13, 3), Finite(0, 1)],
        is_shown: true,
        line: b"best 13/3 at 10/3 free by 0 0 guards 1/3; best -1 at 0 free by 0 1 guards 0; ",
    },
    Transformed {
        text: HALVES,
        in_pairs: false,
        edge: 1,
        bounds: &[Finite(2, 1), Finite(0, 1), Free, Free],
        is_shown: false,
        line: b"best 2; best -1; best 2; best -1; ",
    },
    Transformed {
        text: TOGETHER,
        in_pairs: true,
        edge: 1,
        bounds: &[
            Finite(10, 1),
            Finite(0, 1),
            Finite(10, 1),
            Finite(0, 1),
            Finite(0, 1),
            Finite(0, 1),
        ],
        is_shown: false,
        line: b"best 10; best -1; best 10; best -1; best 0; best 0; ",
    },
    Transformed {
        text: DOWN,
        in_pairs: false,
        edge: 1,
        bounds: &[Finite(5, 1), Finite(0, 1)],
        is_shown: false,
        line: b"empty; empty; ",
    },
    Transformed {
        text: DOWN,
        in_pairs: false,
        edge: 2,
        bounds: &[Finite(5, 1), Finite(0, 1)],
        is_shown: true,
        line: b"best 4 at 5 free by 1 0 guards 0; best 0 at 1 free by 0 0 guards 1; ",
    },
    Transformed {
        text: ASSUMED,
        in_pairs: false,
        edge: 0,
        bounds: &[],
        is_shown: true,
        line: b"best 7 at 0 free 7 by 0 0 guards 1; unbounded at 0 free 0 along 0 free -1; ",
    },
    Transformed {
        text: IMPOSSIBLE,
        in_pairs: false,
        edge: 0,
        bounds: &[],
        is_shown: true,
        line: b"empty by 0 0 guards 1; empty by 0 0 guards 1; ",
    },
];

#[test]
fn transformers_have_their_lines(rt: HostRuntime) {
    assert_eq!(rt; first_wrong(rt.alloc(), CASES), None);
}
