//! How far a search has come.

ghost use Rattle.std.specs.Prelude.{◌≡◌, IfOk, length};

use crate::asked::{Asked, number_at};
use crate::halt::Halt;
use base_fractions::{Ext, Frac, OrderedField};
use flow_systems::Bounds;
use std::alloc::Global;

/// A vector above the bounds: the rises of the listed unknowns over these, in order, and the bounds with the rises added.
#[derive(Drop)]
pub struct Reached {
    pub rises: Vec<Frac>,
    pub vector: Bounds,
}

/// An entry of a list, 0 behind its end.
pub fn entry(list: &[Frac], place: usize) -> Frac {
    match list.get(place) {
        Some(number) => *number,
        None => Frac::zero(),
    }
}

impl Reached {
    /// The vector without rises.
    pub fn base(alloc: Global, asked: Asked<'_>) -> Result<Reached, Halt>
        ensures { IfOk result (λ reached. length reached.vector ≡ length asked.entry.bounds.now) }
    {
        let vector = Bounds::new(asked.bounds.as_slice().to_vec(alloc)?);
        Ok(Reached {
            rises: Vec::new(alloc),
            vector,
        })
    }

    /// Goes to the vector of these rises. Those behind the last are 0. The bounds that aren't listed are those that were copied
    /// once, as there may be many more of them.
    pub fn go_to(&mut self, asked: Asked<'_>, rises: Vec<Frac>) -> Result<(), Halt>
        requires { length self.old.vector ≡ length asked.bounds.now }
        ensures { length self.new.vector ≡ length self.old.vector }
    {
        for (place, unknown) in asked.list.iter().enumerate() {
            let number = number_at(asked.bounds, *unknown)?.plus(entry(&rises, place))?;
            self.vector.set(*unknown, Ext::Fin(number));
        }
        self.rises = rises;
        Ok(())
    }

    /// The numbers of the unknowns of a list, in order.
    pub fn numbers(&self, alloc: Global, list: &[u32]) -> Result<Vec<Frac>, Halt>
        ensures { IfOk result (λ numbers. length numbers.items ≡ length list.now) }
    {
        let mut numbers = Vec::with_capacity(alloc, list.len())?;
        for unknown in list {
            numbers.push(number_at(&self.vector, *unknown)?)?;
        }
        Ok(numbers)
    }
}
