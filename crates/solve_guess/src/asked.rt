//! What is asked.

ghost use Rattle.std.specs.Prelude.{◌≡◌, ◌*◌, ◌<◌, IfOk, length};
ghost use Rattle.flow_systems.specs.View.{equations_of};
ghost use Rattle.solve_composition.specs.Composed.{AreComposed};

use crate::halt::Halt;
use base_fractions::{Ext, Frac};
use flow_systems::{Bounds, Pick, System};
use solve_composition::Paths;

/// A list of unknowns of a system, the edges that are picked for them, and the bounds above which they are to rise.
#[derive(Clone, Copy)]
pub struct Asked<'a> {
    /// The system.
    pub system: &'a System,
    /// The composed forms of its edges.
    pub paths: &'a Paths,
    /// A bound for each unknown of the system.
    pub bounds: &'a Bounds,
    /// An edge for each unknown that has one.
    pub pick: &'a Pick,
    /// The unknowns by their numbers: point times rows plus row, all counted from 0.
    pub list: &'a [u32],
    ghost composed: { AreComposed (equations_of system.now) paths.now },
    ghost bounds_length: { length bounds.now ≡ length system.now.flow.points * length system.now.template },
    ghost pick_length: { length pick.now ≡ length system.now.flow.points * length system.now.template },
}

/// The number of a bound that is one.
pub fn number(bound: Ext) -> Result<Frac, Halt> {
    match bound {
        Ext::Fin(number) => Ok(number),
        _ => Err(Halt::GivenUp),
    }
}

/// The bound of an unknown, where there is one and it is a number.
pub fn number_at(bounds: &Bounds, unknown: u32) -> Result<Frac, Halt>
    ensures { IfOk result (λ number. unknown < length bounds.now) }
{
    match bounds.as_slice().get(unknown as usize) {
        Some(bound) => number(*bound),
        None => Err(Halt::GivenUp),
    }
}

impl Asked<'_> {
    /// The edge that is picked for an unknown, where there is one.
    pub fn edge(self, unknown: u32) -> Result<u32, Halt>
        ensures edge { IfOk result (λ edge. edge < length self.entry.system.now.flow.edges) }
        ensures unknown { IfOk result (λ edge. unknown < length self.entry.bounds.now) }
    {
        if (unknown as usize) < self.bounds.as_slice().len() {
            match self.pick.at(unknown) {
                Some(edge) if (edge as usize) < self.system.flow.edges.as_slice().len() => Ok(edge),
                _ => Err(Halt::GivenUp),
            }
        } else {
            Err(Halt::GivenUp)
        }
    }
}
