//! Traces along an edge.

ghost use Rattle.std.specs.Prelude.{◌≡◌, IfOk};

use crate::entries::Entries;
use std::alloc::{AllocError, Global};

/// A trace along an edge: the values of the variables at its start, and one value for each free assignment, in order.
#[derive(Drop)]
pub struct Trace {
    pub start: Entries,
    pub free: Entries,
}

/// A trace of its own with the same values.
pub fn copied(alloc: Global, trace: &Trace) -> Result<Trace, AllocError>
    ensures { IfOk result (λ copy. copy ≡ trace.now) }
{
    let start = trace.start.again(alloc)?;
    let free = trace.free.again(alloc)?;
    Ok(Trace { start, free })
}
