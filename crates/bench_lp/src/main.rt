//! Solves a linear program from a file by both tableaux, for timing and for comparison with other exact solvers.
//!
//! The first word names the file, the second says how many times each tableau solves it, and a third chooses one of them, `dense` or
//! `sparse`. It prints for each tableau the outcome, and the value where there is one.
//!
//! The file is in a part of CPLEX's LP format that glpsol and esolver read as well: words between blanks, which are `Maximize`, `obj:`
//! and terms; `Subject To`, and for each row a name with a colon, terms, `<=` and a whole number; `End`. A term is a sign, which the
//! first may lack, a whole number and `xK` with K from 1. The columns are 1 to the greatest K, at least 0. What is not of this form is
//! refused with its line.
#![tactic(auto)]

ghost use Rattle.lp_dictionary.specs.Exact.{IsShaped};

mod build;
mod read;
mod tokens;

use anyhow::{Context, bail};
use base_fractions::{Frac, OrderedField};
use build::problem_of;
use lp_dictionary::Dict;
use lp_simplex::{Outcome, Problem, SolveFault, Tableau, solve};
use lp_sparse::Sparse;
use read::read;
use std::alloc::Global;
use std::{env, fs};
use tokens::tokens;

// The outcome in words.
fn said(
    alloc: Global,
    outcome: &Result<Outcome<Frac>, SolveFault<Frac>>,
) -> anyhow::Result<String> {
    Ok(match outcome {
        Ok(Outcome::Best { value, .. }) => {
            format!(in alloc; "best {}/{}", value.num(), value.den())?
        }
        Ok(Outcome::Unbounded { .. }) => String::from_str(alloc, "unbounded")?,
        Ok(Outcome::Empty { .. }) => String::from_str(alloc, "empty")?,
        Err(SolveFault::Wide { pivot, .. }) => format!(in alloc; "wide at pivot {pivot}")?,
        Err(SolveFault::NoMemory) => bail!("no memory"),
    })
}

// Solves the problem so many times, and answers the last outcome in words.
fn solved<T: Tableau<Frac>>(
    alloc: Global,
    problem: &Problem<Frac>,
    times: u64,
) -> anyhow::Result<String>
    requires { IsShaped problem.now }
{
    let mut words = String::new(alloc);
    for _ in 0..times {
        words = said(alloc, &solve::<Frac, T>(alloc, problem))?;
    }
    Ok(words)
}

fn main(rt: HostRuntime) -> anyhow::Result<()> {
    let words: Vec<String> = env::args(&rt)?.skip(1).collect(rt.alloc())?;
    let name = words.first().context("the first word names a file")?;
    let times: u64 = match words.get(1) {
        Some(word) => word.as_str().parse().unwrap_or(1),
        None => 1,
    };
    let text = fs::read_to_string(&rt, name.as_str())?;
    let written = read(rt.alloc(), tokens(rt.alloc(), text.as_str())?)?;
    let problem = problem_of(rt.alloc(), &written)?;
    for kind in ["dense", "sparse"] {
        if words.len() == 3 && words[2].as_str() != kind {
            continue;
        }
        let outcome = if kind == "dense" {
            solved::<Dict<Frac>>(rt.alloc(), &problem, times)?
        } else {
            solved::<Sparse<Frac>>(rt.alloc(), &problem, times)?
        };
        println!(rt; "{kind} {}", outcome.as_str())?;
    }
    Ok(())
}
