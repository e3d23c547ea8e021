//! Conditions that are kept while their statement has passed no limit.

ghost use Rattle.std.specs.Prelude.{◌≡◌, ◌≤◌, ℕ, IfOk};
ghost use Rattle.std.specs.Option.{option_map, is_some};
ghost use Rattle.lang_tree.specs.Tree.{Condition as Tree, negation, both, either};
ghost use Rattle.lang_tree.specs.DeedView.{condition_of};
ghost use Rattle.source_value.specs.Kept.{kept_condition};

use crate::conditions::{both, either, leaves_up_to};
use crate::site::Site;
use lang_tree::Cond;
use std::alloc::{AllocError, Global};
use std::marker::Model;

/// The most leaves of a condition.
pub(crate) const MOST_LEAVES: u32 = 64;

/// A condition, as long as its statement has taken no more hidden variables, and it has no more leaves itself, than there may be.
#[derive(Drop)]
pub struct Truth {
    kept: Option<Cond>,
}

impl Model for Truth {
    ghost use Rattle.std.specs.Prelude.{Option};
    ghost use Rattle.std.specs.Option.{option_map};
    ghost use Rattle.std.specs.Coded.{coded_option};
    ghost use Rattle.lang_tree.specs.Tree.{Condition as Tree};
    ghost use Rattle.lang_tree.specs.DeedView.{condition_of};
    ghost use Rattle.source_value.specs.Codes.{coded_condition};

    ghost Value = { Option Tree };

    ghost coded = { coded_option coded_condition };

    ghost view = { λ t. option_map condition_of t.kept };
}

impl Truth {
    /// The condition, where `next` is the next hidden variable.
    pub(crate) fn of(site: Site, next: u32, cond: Cond) -> Truth
        ensures { result ≡ kept_condition site.variables next (condition_of cond) }
    {
        if site.is_within(next) && leaves_up_to(&cond, MOST_LEAVES) <= MOST_LEAVES {
            Truth { kept: Some(cond) }
        } else {
            Truth { kept: None }
        }
    }

    /// Whether the condition is kept.
    pub fn is_kept(&self) -> bool
        ensures { result ≡ is_some self.now }
    {
        self.kept.is_some()
    }

    /// The condition itself, if it is kept.
    pub(crate) fn as_cond(&self) -> Option<&Cond>
        ensures { option_map (λ c. condition_of c.now) result ≡ self.now }
    {
        self.kept.as_ref()
    }

    /// The condition itself, if it is kept.
    pub fn into_cond(self) -> Option<Cond>
        ensures { option_map condition_of result ≡ self }
    {
        self.kept
    }

    /// The same once more.
    pub(crate) fn again(&self, alloc: Global) -> Result<Truth, AllocError>
        ensures { IfOk result (λ copy. copy ≡ self.now) }
    {
        match &self.kept {
            Some(cond) => Ok(Truth {
                kept: Some(cond.again(alloc)?),
            }),
            None => Ok(Truth { kept: None }),
        }
    }

    /// "Not" of a condition.
    pub(crate) fn inverse(self, alloc: Global) -> Result<Truth, AllocError>
        ensures { IfOk result (λ inverse. (n h : ℕ) (c : Tree) → self ≡ kept_condition n h c → inverse ≡ kept_condition n h (negation c)) }
    {
        match self.kept {
            Some(cond) => Ok(Truth {
                kept: Some(Cond::Not(Box::new(alloc, cond)?)),
            }),
            None => Ok(Truth { kept: None }),
        }
    }

    /// Both conditions, where `next` is the next hidden variable.
    pub(crate) fn both(
        alloc: Global,
        site: Site,
        next: u32,
        first: Truth,
        second: Truth,
    ) -> Result<Truth, AllocError>
        ensures { IfOk result (λ truth. (h : ℕ) (c d : Tree) → h ≤ next
            → first ≡ kept_condition site.variables h c → second ≡ kept_condition site.variables next d
            → truth ≡ kept_condition site.variables next (both c d)) }
    {
        match (first.kept, second.kept) {
            (Some(first), Some(second)) => Ok(Truth::of(site, next, both(alloc, first, second)?)),
            _ => Ok(Truth { kept: None }),
        }
    }

    /// Either condition, where `next` is the next hidden variable.
    pub(crate) fn either(
        alloc: Global,
        site: Site,
        next: u32,
        first: Truth,
        second: Truth,
    ) -> Result<Truth, AllocError>
        ensures { IfOk result (λ truth. (h : ℕ) (c d : Tree) → h ≤ next
            → first ≡ kept_condition site.variables h c → second ≡ kept_condition site.variables next d
            → truth ≡ kept_condition site.variables next (either c d)) }
    {
        match (first.kept, second.kept) {
            (Some(first), Some(second)) => Ok(Truth::of(site, next, either(alloc, first, second)?)),
            _ => Ok(Truth { kept: None }),
        }
    }
}
