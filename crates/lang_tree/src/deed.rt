//! What is done in one place and goes on to the next.

ghost use Rattle.std.specs.Prelude.{◌≡◌, ◌<◌, ◌^◌, [], IfOk, length};
ghost use Rattle.lang_tree.specs.Tree.{change_deeds};
ghost use Rattle.lang_tree.specs.DeedView.{deeds_of};

use crate::change::Change;
use crate::check::Check;
use crate::cond::Cond;
use crate::form::Form;
use std::alloc::{AllocError, Global};
use std::marker::Model;

/// What is done in the prelude of a loop, and as the change of a `for`: it makes no point, and goes on to what comes next. Variables are
/// numbered from 0 in order of declaration, and hidden ones behind them; lines from 1.
#[derive(Drop)]
pub enum Deed {
    /// The variable takes the form's value.
    Set { var: u32, form: Form, line: u32 },
    /// The variable takes any value.
    Havoc { var: u32, line: u32 },
    /// The run goes on only where the condition may be true.
    Where { cond: Cond, line: u32 },
    /// Nothing happens. The condition is one that may not be false here.
    Check { check: Check, cond: Cond, line: u32 },
}

/// Deeds in order.
#[derive(Drop)]
pub struct Deeds {
    list: Vec<Deed>,
}

impl Model for Deeds {
    ghost use Rattle.std.specs.Prelude.{List};
    ghost use Rattle.lang_tree.specs.Tree.{Deed as Tree};
    ghost use Rattle.lang_tree.specs.Codes.{coded_deeds};
    ghost use Rattle.lang_tree.specs.DeedView.{deeds_of};

    ghost Value = { List Tree };

    ghost coded = { coded_deeds };

    ghost view = { λ d. deeds_of d.list.items };
}

impl Deeds {
    /// None.
    pub fn none(alloc: Global) -> Deeds
        ensures { result ≡ [] }
    {
        Deeds {
            list: Vec::new(alloc),
        }
    }

    /// What a change is.
    pub fn of_change(alloc: Global, change: Change) -> Result<Deeds, AllocError>
        ensures { IfOk result (λ deeds. deeds ≡ change_deeds change) }
    {
        let mut list = Vec::new(alloc);
        match change {
            Change::Unchanged => {}
            Change::Set { var, form, line } => list.push(Deed::Set { var, form, line })?,
            Change::Havoc { var, line } => list.push(Deed::Havoc { var, line })?,
        }
        Ok(Deeds { list })
    }

    /// The list as deeds.
    pub fn new(list: Vec<Deed>) -> Deeds
        ensures { result ≡ deeds_of list.items }
    {
        Deeds { list }
    }

    /// The list itself.
    pub fn as_slice(&self) -> &[Deed]
        ensures { deeds_of result.now ≡ self.now }
    {
        self.list.as_slice()
    }

    /// How many there are.
    pub(crate) fn count(&self) -> u32
        requires { length self.now < 2 ^ 32 }
        ensures { result ≡ length self.now }
    {
        self.as_slice().len() as u32
    }
}
