//! Vectors of bounds.

ghost use Rattle.std.specs.Prelude.{◌≡◌, ◌<◌, ℕ, IfOk, length, map, get_or, slice_set};
ghost use Rattle.base_numbers.specs.Extended.{neg_inf};
ghost use Rattle.base_fractions.specs.Extended.{extended};
ghost use Rattle.flow_systems.specs.Starts.{start_bounds, start_vector};
ghost use Rattle.flow_systems.specs.View.{vector_of};

use crate::system::System;
use base_fractions::Ext;
use std::alloc::{AllocError, Global};
use std::marker::Model;

/// The bounds of a vector: one for each unknown, in order of its number.
#[derive(Drop)]
pub struct Bounds {
    list: Vec<Ext>,
}

impl Model for Bounds {
    ghost use Rattle.std.specs.Prelude.{List, map};
    ghost use Rattle.std.specs.Coded.{coded_list};
    ghost use Rattle.base_numbers.specs.Extended.{Ext as Extended};
    ghost use Rattle.base_fractions.specs.Extended.{extended};
    ghost use Rattle.flow_systems.specs.ExtendedCode.{coded_extended};

    ghost Value = { List Extended };

    ghost coded = { coded_list coded_extended };

    ghost view = { λ b. map extended b.list.items };
}

impl Bounds {
    /// The list as the bounds of a vector.
    pub fn new(list: Vec<Ext>) -> Bounds
        ensures { result ≡ map extended list.items }
    {
        Bounds { list }
    }

    /// The list itself.
    pub fn as_slice(&self) -> &[Ext]
        ensures { map extended result.now ≡ self.now }
    {
        self.list.as_slice()
    }

    /// The bounds from which an analysis starts: `+inf` at the entry and `-inf` at every other point.
    pub fn start(alloc: Global, system: &System) -> Result<Bounds, AllocError>
        ensures list { IfOk result (λ b. b ≡ start_bounds (length system.now.flow.points) (length system.now.template)) }
        ensures vector { IfOk result (λ b. (p r : ℕ) → p < length system.now.flow.points → r < length system.now.template →
            vector_of (length system.now.template) b p r ≡ start_vector p r) }
    {
        let rows = system.template.as_slice().len();
        let points = system.flow.points.as_slice().len();
        let mut list = vec![in alloc; Ext::PosInf; rows]?;
        list.resize(points * rows, Ext::NegInf)?;
        Ok(Bounds { list })
    }

    /// The bound of the unknown of this number.
    pub fn at(&self, unknown: u32) -> Ext
        requires { unknown < length self.now }
        ensures { extended result ≡ get_or self.now unknown neg_inf }
    {
        self.list[unknown as usize]
    }

    /// Gives the unknown of this number a bound; all others keep theirs.
    pub fn set(&mut self, unknown: u32, value: Ext)
        requires { unknown < length self.old }
        ensures { self.new ≡ slice_set self.old unknown (extended value) }
    {
        self.list[unknown as usize] = value;
    }
}
