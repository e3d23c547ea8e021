//! Conditions.

ghost use Rattle.std.specs.Prelude.{◌≡◌, ◌<◌, ◌^◌, IfOk};
ghost use Rattle.lang_tree.specs.Tree.{leaf_count};
ghost use Rattle.lang_tree.specs.DeedView.{condition_of};

use crate::form::Form;
use std::alloc::{AllocError, Global};

/// How a form is compared with 0.
#[derive(Clone, Copy, Debug, PartialEq, Eq)]
pub enum Rel {
    Eq,
    Ne,
    Lt,
    Le,
    Gt,
    Ge,
}

/// A condition: `nondet()`, a comparison of a form with 0, or made of conditions by `!`, `&&` and `||`.
#[derive(Drop)]
pub enum Cond {
    Free,
    Cmp(Rel, Form),
    Not(Box<Cond>),
    Both(Box<Cond>, Box<Cond>),
    Either(Box<Cond>, Box<Cond>),
}

impl Cond {
    /// The same condition once more.
    pub fn again(&self, alloc: Global) -> Result<Cond, AllocError>
        ensures { IfOk result (λ copy. condition_of copy ≡ condition_of self.now) }
    {
        match self {
            Cond::Free => Ok(Cond::Free),
            Cond::Cmp(rel, form) => Ok(Cond::Cmp(*rel, form.again()?)),
            Cond::Not(inner) => Ok(Cond::Not(Box::new(alloc, inner.again(alloc)?)?)),
            Cond::Both(first, second) => {
                let first = first.again(alloc)?;
                let second = second.again(alloc)?;
                Ok(Cond::Both(Box::new(alloc, first)?, Box::new(alloc, second)?))
            }
            Cond::Either(first, second) => {
                let first = first.again(alloc)?;
                let second = second.again(alloc)?;
                Ok(Cond::Either(Box::new(alloc, first)?, Box::new(alloc, second)?))
            }
        }
    }
}

/// The number of `Free` and `Cmp` nodes.
pub fn leaves(cond: &Cond) -> u32
    requires { leaf_count (condition_of cond.now) < 2 ^ 32 }
    ensures { result ≡ leaf_count (condition_of cond.now) }
{
    match cond {
        Cond::Free => 1,
        Cond::Cmp(_, _) => 1,
        Cond::Not(inner) => leaves(inner),
        Cond::Both(first, second) => leaves(first) + leaves(second),
        Cond::Either(first, second) => leaves(first) + leaves(second),
    }
}
