//! Picks.

ghost use Rattle.std.specs.Prelude.{◌≡◌, ◌<◌, ◌*◌, IfOk, length, get_or, slice_set, replicate};

use crate::system::System;
use std::alloc::{AllocError, Global};
use std::marker::Model;

/// For each unknown, in order of its number, no edge or the number of one that ends at its point.
#[derive(Drop)]
pub struct Pick {
    list: Vec<Option<u32>>,
}

impl Model for Pick {
    ghost use Rattle.std.specs.Prelude.{List, ℕ, Option};

    ghost Value = { List (Option ℕ) };

    ghost view = { λ p. p.list.items };
}

impl Pick {
    /// No edge at any unknown.
    pub fn none(alloc: Global, system: &System) -> Result<Pick, AllocError>
        ensures { IfOk result (λ p. p ≡ replicate (length system.now.flow.points * length system.now.template) None) }
    {
        let rows = system.template.as_slice().len();
        let points = system.flow.points.as_slice().len();
        let list = vec![in alloc; None; points * rows]?;
        Ok(Pick { list })
    }

    /// The edge at the unknown of this number, if there is one.
    pub fn at(&self, unknown: u32) -> Option<u32>
        requires { unknown < length self.now }
        ensures { result ≡ get_or self.now unknown None }
    {
        self.list[unknown as usize]
    }

    /// Gives the unknown of this number an edge or none; all others keep theirs.
    pub fn set(&mut self, unknown: u32, edge: Option<u32>)
        requires { unknown < length self.old }
        ensures { self.new ≡ slice_set self.old unknown edge }
    {
        self.list[unknown as usize] = edge;
    }
}
