//! Lists of unknowns, part by part.

ghost use Rattle.std.specs.Prelude.{◌≡◌, ◌<◌, ◌≤◌, [], length, get_or};
ghost use Rattle.flow_systems.specs.declared.limits.TheConstants.{MOST_UNKNOWNS};

use base_list::Sequence;
use std::marker::Model;

/// The unknowns of one part, rising by their numbers.
pub type Members = Sequence<u32>;

/// The parts of a list of unknowns, in order. Contracts see a list of lists of unknowns' numbers.
#[derive(Drop)]
pub struct Parts {
    lists: Vec<Members>,
}

impl Model for Parts {
    ghost use Rattle.std.specs.Prelude.{List, ℕ, ◌≤◌, length};
    ghost use Rattle.flow_systems.specs.declared.limits.TheConstants.{MOST_UNKNOWNS};

    ghost Value = { List (List ℕ) };

    ghost view = { λ p. p.lists.items };

    ghost invariant = { λ p. length p.lists.items ≤ MOST_UNKNOWNS };
}

impl Parts {
    // The lists as parts.
    pub(crate) fn new(lists: Vec<Members>) -> Parts
        requires { length lists.items ≤ MOST_UNKNOWNS }
        ensures { result ≡ lists.items }
    {
        Parts { lists }
    }

    /// How many parts there are, at most `MOST_UNKNOWNS`.
    pub fn count(&self) -> u32
        ensures count { result ≡ length self.now }
        ensures few { length self.now ≤ MOST_UNKNOWNS }
    {
        self.lists.len() as u32
    }

    /// The unknowns of the part of this number, counted from 0, rising.
    pub fn list(&self, part: u32) -> &[u32]
        requires { part < length self.now }
        ensures { result.now ≡ get_or self.now part [] }
    {
        self.lists[part as usize].as_slice()
    }
}
