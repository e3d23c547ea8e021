//! The transformers of listed unknowns at a vector.

ghost use Rattle.std.specs.Prelude.{◌≡◌, length};

use crate::asked::Asked;
use crate::halt::Halt;
use base_fractions::Frac;
use flow_systems::{Bounds, Fracs};
use solve_transformer::{Value, operator};
use std::alloc::Global;

/// What the transformer of an unknown's picked edge is at a vector: its value there, and one multiplier for each unknown of the
/// edge's source, in order of their numbers from a first one on. At any vector the transformer is at most this value and the sum
/// of each multiplier times the bound's difference.
#[derive(Drop)]
pub struct Seen {
    pub value: Frac,
    pub first: usize,
    pub multipliers: Fracs,
}

/// What is seen of an unknown at a vector.
pub fn seen_at(alloc: Global, asked: Asked<'_>, vector: &Bounds, unknown: u32) -> Result<Seen, Halt>
    requires { length vector.now ≡ length asked.bounds.now }
{
    let edge = asked.edge(unknown)?;
    let rows = asked.system.template.as_slice().len();
    let first = asked.system.flow.edges.as_slice()[edge as usize].from as usize * rows;
    let row = unknown % rows as u32;
    match operator(alloc, asked.system, asked.paths, vector, edge, row)? {
        Value::Best {
            value,
            rows: multipliers,
            ..
        } => Ok(Seen {
            value,
            first,
            multipliers,
        }),
        _ => Err(Halt::GivenUp),
    }
}
