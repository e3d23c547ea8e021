//! The edges into each point.

ghost use Rattle.std.specs.Prelude.{◌≡◌, ◌∷◌, ◌++◌, ◌<◌, [], IfOk, OnOk, length, get_or, replicate};
ghost use Rattle.solve_offers.specs.Incoming.{numbers_by_point};

use flow_systems::System;
use std::alloc::{AllocError, Global};
use std::marker::Model;

// Numbers in order, to which more are added.
#[derive(Drop)]
pub(crate) struct Numbers {
    pub list: Vec<u32>,
}

impl Model for Numbers {
    ghost use Rattle.std.specs.Prelude.{List, ℕ};

    ghost Value = { List ℕ };

    ghost view = { λ n. n.list.items };
}

impl Numbers {
    // No numbers.
    pub(crate) fn none(alloc: Global) -> Numbers
        ensures { result ≡ [] }
    {
        let list = Vec::new(alloc);
        Numbers { list }
    }

    // Puts a number behind the others.
    pub(crate) fn add(&mut self, number: u32) -> Result<(), AllocError>
        ensures { OnOk result (self.new ≡ self.old ++ number ∷ []) }
    {
        self.list.push(number)?;
        Ok(())
    }
}

/// For each point of a system, the numbers of the edges that end there, rising. Contracts see a list of lists of numbers.
#[derive(Drop)]
pub struct Incoming {
    lists: Vec<Numbers>,
}

impl Model for Incoming {
    ghost use Rattle.std.specs.Prelude.{List, ℕ};

    ghost Value = { List (List ℕ) };

    ghost view = { λ i. i.lists.items };
}

// So many empty lists.
pub(crate) fn empty_lists(alloc: Global, count: usize) -> Result<Vec<Numbers>, AllocError>
    ensures { IfOk result (λ v. v.items ≡ replicate count []) }
{
    let mut lists = Vec::with_capacity(alloc, count)?;
    for _list in 0..count {
        lists.push(Numbers::none(alloc))?;
    }
    Ok(lists)
}

impl Incoming {
    /// Those of a system, found by going over its edges once.
    ///
    /// # Errors
    ///
    /// Want of memory.
    pub fn of(alloc: Global, system: &System) -> Result<Incoming, AllocError>
        ensures { IfOk result (λ incoming. incoming ≡ numbers_by_point (length system.now.flow.points) system.now.flow.edges) }
    {
        let mut lists = empty_lists(alloc, system.flow.points.as_slice().len())?;
        for (number, edge) in system.flow.edges.as_slice().iter().enumerate() {
            lists[edge.to as usize].add(number as u32)?;
        }
        Ok(Incoming { lists })
    }

    /// The numbers of the edges that end at a point.
    pub fn ending_at(&self, point: u32) -> &[u32]
        requires { point < length self.now }
        ensures { result.now ≡ get_or self.now point [] }
    {
        self.lists[point as usize].list.as_slice()
    }
}
