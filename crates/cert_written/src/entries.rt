//! Lists of fractions, with their zeros or without.

ghost use Rattle.std.specs.Prelude.{◌≡◌, IfOk};
ghost use Rattle.cert_written.specs.Entries.{without_zeros};

use crate::pairs::{Pairs, pairs_of};
use flow_systems::Fracs;
use std::alloc::{AllocError, Global};

/// A list of fractions as a text has it.
#[derive(Drop)]
pub enum Entries {
    /// All its entries in order; so it has a length of its own.
    Dense(Fracs),
    /// Those that aren't 0, by place; it has any length that is asked for and holds them.
    Sparse(Pairs),
}

impl Entries {
    /// The entries that aren't 0.
    pub fn without_zeros(&self, alloc: Global) -> Result<Pairs, AllocError>
        ensures { IfOk result (λ pairs. pairs ≡ without_zeros self.now) }
    {
        match self {
            Entries::Dense(list) => pairs_of(alloc, list.as_slice()),
            Entries::Sparse(pairs) => pairs.again(alloc),
        }
    }

    /// The same list once more.
    pub fn again(&self, alloc: Global) -> Result<Entries, AllocError>
        ensures { IfOk result (λ copy. copy ≡ self.now) }
    {
        match self {
            Entries::Dense(list) => Ok(Entries::Dense(Fracs::new(list.as_slice().to_vec(alloc)?))),
            Entries::Sparse(pairs) => Ok(Entries::Sparse(pairs.again(alloc)?)),
        }
    }
}
