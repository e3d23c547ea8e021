//! Solves the transformers of all edges and rows of a program with 8 variables over zones, for timing.
//!
//! The first word is the number of rounds over all edges and rows. It prints how many transformers there are of each kind.
#![tactic(auto)]

ghost use Rattle.std.specs.Prelude.{◌≡◌, ◌<◌, ◌*◌, IfOk, length};
ghost use Rattle.flow_systems.specs.View.{equations_of};
ghost use Rattle.solve_composition.specs.Composed.{AreComposed};

use anyhow::{Context, bail};
use base_fractions::{Ext, Frac};
use flow_edges::{Flow, flow};
use flow_systems::{Bounds, PartFault, System};
use flow_templates::zones;
use lang_parser::parse;
use lang_tokens::{Lexicon, lex};
use solve_transformer::{Paths, Value, compose_all, operator};
use std::alloc::Global;
use std::env;

/// It has three edges: one from the entry to the loop, the loop's body, where a variable takes a free value, and one to the exit.
const PROGRAM: &[u8] = b"int main() {
    int a = 0; int b = 1; int c = 2; int d = 3; int e = 4; int f = 5; int g = 6; int h = 7;
    while (a + b <= 90) {
        assume(c <= 3*d + 4);
        assume(e + f <= 100);
        a = a + 1;
        b = b + 2;
        c = a + b;
        d = d + e - f;
        h = nondet();
        assume(h <= g + 1);
        assume(2*h >= g - a);
        g = h;
    }
}";

/// The program's points and edges.
fn flow_of_program(alloc: Global) -> anyhow::Result<Flow> {
    let tokens = match lex(alloc, PROGRAM, Lexicon::Own) {
        Ok(tokens) => tokens,
        Err(_) => bail!("the text has no tokens"),
    };
    let program = match parse(alloc, &tokens, PROGRAM) {
        Ok(program) => program,
        Err(_) => bail!("the tokens are no program"),
    };
    match flow(alloc, &program) {
        Ok(flow) => Ok(flow),
        Err(_) => bail!("the program has no points and edges"),
    }
}

/// The system of the program over zones.
fn system_over_zones(alloc: Global) -> anyhow::Result<System> {
    let flow = flow_of_program(alloc)?;
    if flow.names.as_slice().len() != 8 {
        bail!("another number of variables");
    }
    let Ok(template) = zones(alloc, 8) else {
        bail!("no template of zones");
    };
    match System::new(flow, template) {
        Ok(system) => Ok(system),
        Err(_) => bail!("too many unknowns"),
    }
}

/// The bound of a row, which is above 0: the first 16 rows are variables and negated ones, and the others are differences.
fn bound(row: usize) -> Option<Ext> {
    let number = if row >= 16 {
        40 + row % 23
    } else if row % 2 == 0 {
        100 + row
    } else {
        row
    };
    Some(Ext::Fin(Frac::make(number as i64, 1)?))
}

/// Appends the bounds of one point.
fn add_bounds(list: &mut Vec<Ext>, rows: usize) -> anyhow::Result<()> {
    for row in 0..rows {
        list.push(bound(row).context("a small number")?)?;
    }
    Ok(())
}

/// Finite bounds at each point, which equal values of all variables from 0 to 100 fit.
fn finite_bounds(alloc: Global, system: &System) -> anyhow::Result<Bounds>
    ensures { IfOk result (λ b. length b ≡ length system.now.flow.points * length system.now.template) }
{
    let points = system.flow.points.as_slice().len();
    let rows = system.template.as_slice().len();
    let mut list = Vec::new(alloc);
    for _ in 0..points {
        add_bounds(&mut list, rows)?;
    }
    if points.checked_mul(rows) != Some(list.len()) {
        bail!("a bound for each unknown");
    }
    Ok(Bounds::new(list))
}

/// How many transformers there were of each kind.
#[derive(Drop)]
struct Counts {
    unreached: u64,
    empty: u64,
    best: u64,
    unbounded: u64,
    wide: u64,
}

impl Counts {
    // Counts one more of the answer's kind.
    fn add(&mut self, answer: &Result<Value, PartFault>) -> anyhow::Result<()> {
        let count = match answer {
            Ok(Value::Unreached { .. }) => &mut self.unreached,
            Ok(Value::Empty { .. }) => &mut self.empty,
            Ok(Value::Best { .. }) => &mut self.best,
            Ok(Value::Unbounded { .. }) => &mut self.unbounded,
            Err(PartFault::Wide { .. }) => &mut self.wide,
            Err(PartFault::NoMemory) => bail!("no memory"),
        };
        *count = count.wrapping_add(1);
        Ok(())
    }
}

/// Solves the transformers of an edge for each row.
fn solve_edge(
    alloc: Global,
    system: &System,
    paths: &Paths,
    bounds: &Bounds,
    edge: u32,
    counts: &mut Counts,
) -> anyhow::Result<()>
    requires paths { AreComposed (equations_of system.now) paths.now }
    requires bounds { length bounds.now ≡ length system.now.flow.points * length system.now.template }
    requires edge { edge < length system.now.flow.edges }
{
    for row in 0..system.template.as_slice().len() as u32 {
        counts.add(&operator(alloc, system, paths, bounds, edge, row))?;
    }
    Ok(())
}

/// Solves the transformers of all edges and rows.
fn solve_all(
    alloc: Global,
    system: &System,
    paths: &Paths,
    bounds: &Bounds,
    counts: &mut Counts,
) -> anyhow::Result<()>
    requires paths { AreComposed (equations_of system.now) paths.now }
    requires bounds { length bounds.now ≡ length system.now.flow.points * length system.now.template }
{
    for edge in 0..system.flow.edges.as_slice().len() as u32 {
        solve_edge(alloc, system, paths, bounds, edge, counts)?;
    }
    Ok(())
}

/// Solves them so many times.
fn solve_rounds(alloc: Global, rounds: u64) -> anyhow::Result<Counts> {
    let system = system_over_zones(alloc)?;
    let bounds = finite_bounds(alloc, &system)?;
    let paths = match compose_all(alloc, &system) {
        Ok(paths) => paths,
        Err(_) => bail!("no composed edges"),
    };
    let mut counts = Counts {
        unreached: 0,
        empty: 0,
        best: 0,
        unbounded: 0,
        wide: 0,
    };
    for _ in 0..rounds {
        solve_all(alloc, &system, &paths, &bounds, &mut counts)?;
    }
    Ok(counts)
}

fn main(rt: HostRuntime) -> anyhow::Result<()> {
    let words: Vec<String> = env::args(&rt)?.skip(1).collect(rt.alloc())?;
    let rounds: u64 = match words.first() {
        Some(word) => word.as_str().parse().unwrap_or(1),
        None => 1,
    };
    let counts = solve_rounds(rt.alloc(), rounds)?;
    println!(rt; "unreached {}", counts.unreached)?;
    println!(rt; "empty {}", counts.empty)?;
    println!(rt; "best {}", counts.best)?;
    println!(rt; "unbounded {}", counts.unbounded)?;
    println!(rt; "wide {}", counts.wide)?;
    Ok(())
}
