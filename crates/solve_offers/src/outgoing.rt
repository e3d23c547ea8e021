//! The edges out of each point.

ghost use Rattle.std.specs.Prelude.{◌≡◌, ◌<◌, [], IfOk, length, get_or};
ghost use Rattle.solve_offers.specs.Outgoing.{AreLeaving};

use crate::incoming::{Numbers, empty_lists};
use flow_systems::System;
use std::alloc::{AllocError, Global};
use std::marker::Model;

/// For each point of a system, the numbers of the edges that start there, rising. Contracts see a list of lists of numbers.
#[derive(Drop)]
pub struct Outgoing {
    lists: Vec<Numbers>,
}

impl Model for Outgoing {
    ghost use Rattle.std.specs.Prelude.{List, ℕ};

    ghost Value = { List (List ℕ) };

    ghost view = { λ o. o.lists.items };
}

impl Outgoing {
    /// Those of a system, found by going over its edges once.
    ///
    /// # Errors
    ///
    /// Want of memory.
    pub fn of(alloc: Global, system: &System) -> Result<Outgoing, AllocError>
        ensures { IfOk result (λ outgoing. AreLeaving system.now outgoing) }
    {
        let mut lists = empty_lists(alloc, system.flow.points.as_slice().len())?;
        for (number, edge) in system.flow.edges.as_slice().iter().enumerate() {
            lists[edge.from as usize].add(number as u32)?;
        }
        Ok(Outgoing { lists })
    }

    /// The numbers of the edges that start at a point.
    pub fn starting_at(&self, point: u32) -> &[u32]
        requires { point < length self.now }
        ensures { result.now ≡ get_or self.now point [] }
    {
        self.lists[point as usize].list.as_slice()
    }
}
