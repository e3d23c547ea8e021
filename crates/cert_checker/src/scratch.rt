//! What a check writes on.

ghost use Rattle.std.specs.Prelude.{IfOk};
ghost use Rattle.flow_systems.specs.View.{equations_of};
ghost use Rattle.cert_checker.specs.Rooms.{HasRoom};

use flow_systems::{Bounds, System};
use std::alloc::{AllocError, Global};

/// Room for three vectors of a system: the one that a step finds, the one that it leads to, and how fast each row may rise
/// along a ray. A check leaves anything in them.
#[derive(Drop)]
pub struct Scratch {
    pub base: Bounds,
    pub next: Bounds,
    pub rates: Bounds,
}

impl Scratch {
    /// Room for a check against this system.
    pub fn new(alloc: Global, system: &System) -> Result<Scratch, AllocError>
        ensures { IfOk result (λ scratch. HasRoom (equations_of system.now) scratch) }
    {
        let base = Bounds::start(alloc, system)?;
        let next = Bounds::start(alloc, system)?;
        let rates = Bounds::start(alloc, system)?;
        Ok(Scratch { base, next, rates })
    }
}
