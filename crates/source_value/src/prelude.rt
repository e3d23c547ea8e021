//! Deeds that are kept while their statement has passed no limit.

ghost use Rattle.std.specs.Prelude.{◌≡◌, ◌≤◌, ◌++◌, ◌∷◌, [], ℕ, List, IfOk};
ghost use Rattle.std.specs.Option.{option_map, is_some};
ghost use Rattle.lang_tree.specs.Tree.{Condition as Tree, Deed as DeedTree, sets, havocs, wheres, checks};
ghost use Rattle.lang_tree.specs.DeedView.{condition_of, deed_of, deeds_of};
ghost use Rattle.source_core.specs.Preludes.{under, all_under};
ghost use Rattle.source_value.specs.Kept.{kept, kept_deeds, kept_condition, has_small, have_small, is_unchecked, are_unchecked};

use crate::conditions::{either, leaves_up_to};
use crate::site::Site;
use crate::truth::{MOST_LEAVES, Truth};
use lang_tree::{Check, Cond, Deed, Deeds, Form};
use std::alloc::{AllocError, Global};
use std::marker::Model;

/// Deeds in order, as long as their statement has taken no more hidden variables, and no condition of theirs has more leaves, than there
/// may be.
#[derive(Drop)]
pub struct Prelude {
    kept: Option<Vec<Deed>>,
}

impl Model for Prelude {
    ghost use Rattle.std.specs.Prelude.{Option, List};
    ghost use Rattle.std.specs.Option.{option_map};
    ghost use Rattle.std.specs.Coded.{coded_option};
    ghost use Rattle.lang_tree.specs.Tree.{Deed as DeedTree};
    ghost use Rattle.lang_tree.specs.Codes.{coded_deeds};
    ghost use Rattle.lang_tree.specs.DeedView.{deeds_of};

    ghost Value = { Option (List DeedTree) };

    ghost coded = { coded_option coded_deeds };

    ghost view = { λ p. option_map (λ v. deeds_of v.items) p.kept };
}

// Whether a deed's condition has no more leaves than it may have.
fn has_small(deed: &Deed) -> bool
    ensures { result ≡ has_small (deed_of deed.now) }
{
    match deed {
        Deed::Set { .. } => true,
        Deed::Havoc { .. } => true,
        Deed::Where { cond, .. } => leaves_up_to(cond, MOST_LEAVES) <= MOST_LEAVES,
        Deed::Check { cond, .. } => leaves_up_to(cond, MOST_LEAVES) <= MOST_LEAVES,
    }
}

// The deed with its check under the condition.
fn under(alloc: Global, above: &Cond, deed: Deed) -> Result<Deed, AllocError>
    ensures { IfOk result (λ it. deed_of it ≡ under (condition_of above.now) (deed_of deed)) }
{
    match deed {
        Deed::Check { check, cond, line } => {
            let not_above = Cond::Not(Box::new(alloc, above.again(alloc)?)?);
            let cond = either(alloc, not_above, cond)?;
            Ok(Deed::Check { check, cond, line })
        }
        deed => Ok(deed),
    }
}

// Whether the deed is no check.
fn is_unchecked(deed: &Deed) -> bool
    ensures { result ≡ is_unchecked (deed_of deed.now) }
{
    match deed {
        Deed::Check { .. } => false,
        _ => true,
    }
}

// Whether none of the deeds is a check.
fn are_unchecked(deeds: &[Deed]) -> bool
    ensures { result ≡ are_unchecked (deeds_of deeds.now) }
{
    for deed in deeds {
        if !is_unchecked(deed) {
            return false;
        }
    }
    true
}

// The deeds with their checks under the condition, unless a condition then has more leaves than it may have.
fn all_under(alloc: Global, above: &Cond, deeds: Vec<Deed>) -> Result<Option<Vec<Deed>>, AllocError>
    ensures { let all = all_under (condition_of above.now) (deeds_of deeds.items) in
        IfOk result (λ it. option_map (λ v. deeds_of v.items) it ≡ kept (have_small all) all) }
{
    let mut list = Vec::new(alloc);
    for deed in deeds {
        let deed = under(alloc, above, deed)?;
        if !has_small(&deed) {
            return Ok(None);
        }
        list.push(deed)?;
    }
    Ok(Some(list))
}

// Deeds that are kept, with their checks under a condition that was read before them.
fn deeds_under(
    alloc: Global,
    above: Option<&Cond>,
    deeds: Vec<Deed>,
) -> Result<Option<Vec<Deed>>, AllocError>
    ensures { IfOk result (λ all. (n h k : ℕ) (c : Tree) (ds : List DeedTree) → h ≤ k
        → option_map (λ x. condition_of x.now) above.entry ≡ kept_condition n h c → Some (deeds_of deeds.items) ≡ kept_deeds n k ds
        → option_map (λ v. deeds_of v.items) all ≡ kept_deeds n k (all_under c ds)) }
{
    match above {
        Some(above) => Ok(all_under(alloc, above, deeds)?),
        None => {
            if are_unchecked(deeds.as_slice()) {
                Ok(Some(deeds))
            } else {
                Ok(None)
            }
        }
    }
}

impl Prelude {
    /// No deeds, where `next` is the next hidden variable.
    pub(crate) fn none(alloc: Global, site: Site, next: u32) -> Prelude
        ensures { result ≡ kept_deeds site.variables next [] }
    {
        if site.is_within(next) {
            Prelude {
                kept: Some(Vec::new(alloc)),
            }
        } else {
            Prelude { kept: None }
        }
    }

    /// Whether the deeds are kept.
    pub fn is_kept(&self) -> bool
        ensures { result ≡ is_some self.now }
    {
        self.kept.is_some()
    }

    /// The deeds, if they are kept.
    pub fn into_deeds(self) -> Option<Deeds>
        ensures { result ≡ self }
    {
        match self.kept {
            Some(deeds) => Some(Deeds::new(deeds)),
            None => None,
        }
    }

    /// The list of the deeds, if they are kept.
    pub fn into_list(self) -> Option<Vec<Deed>>
        ensures { option_map (λ v. deeds_of v.items) result ≡ self }
    {
        self.kept
    }

    /// The deeds of one prelude and then those of another, read behind it.
    pub(crate) fn joined(self, more: Prelude) -> Result<Prelude, AllocError>
        ensures { IfOk result (λ all. (n h k : ℕ) (ds es : List DeedTree) → h ≤ k
            → self ≡ kept_deeds n h ds → more ≡ kept_deeds n k es → all ≡ kept_deeds n k (ds ++ es)) }
    {
        match (self.kept, more.kept) {
            (Some(mut deeds), Some(mut more)) => {
                deeds.append(&mut more)?;
                Ok(Prelude { kept: Some(deeds) })
            }
            _ => Ok(Prelude { kept: None }),
        }
    }

    /// The deeds, and then the variable takes the form's value.
    pub(crate) fn with_set(self, site: Site, var: u32, form: Form) -> Result<Prelude, AllocError>
        ensures { IfOk result (λ all. (n h : ℕ) (ds : List DeedTree) → self ≡ kept_deeds n h ds
            → all ≡ kept_deeds n h (ds ++ sets var form site.line ∷ [])) }
    {
        match self.into_list() {
            Some(mut deeds) => {
                deeds.push(Deed::Set {
                    var,
                    form,
                    line: site.line,
                })?;
                Ok(Prelude { kept: Some(deeds) })
            }
            None => Ok(Prelude { kept: None }),
        }
    }

    /// The deeds, and then the variable takes any value; `next` is the next hidden variable behind that.
    pub(crate) fn with_havoc(self, site: Site, var: u32, next: u32) -> Result<Prelude, AllocError>
        ensures { IfOk result (λ all. (h : ℕ) (ds : List DeedTree) → h ≤ next
            → self ≡ kept_deeds site.variables h ds
            → all ≡ kept_deeds site.variables next (ds ++ havocs var site.line ∷ [])) }
    {
        match (self.kept, site.is_within(next)) {
            (Some(mut deeds), true) => {
                deeds.push(Deed::Havoc {
                    var,
                    line: site.line,
                })?;
                Ok(Prelude { kept: Some(deeds) })
            }
            _ => Ok(Prelude { kept: None }),
        }
    }

    /// The deeds, and then a condition under which alone it goes on.
    pub(crate) fn with_where(self, site: Site, truth: Truth) -> Result<Prelude, AllocError>
        ensures { IfOk result (λ all. (h k : ℕ) (ds : List DeedTree) (c : Tree) → h ≤ k
            → self ≡ kept_deeds site.variables h ds → truth ≡ kept_condition site.variables k c
            → all ≡ kept_deeds site.variables k (ds ++ wheres c site.line ∷ [])) }
    {
        match (self.kept, truth.into_cond()) {
            (Some(mut deeds), Some(cond)) => {
                deeds.push(Deed::Where {
                    cond,
                    line: site.line,
                })?;
                Ok(Prelude { kept: Some(deeds) })
            }
            _ => Ok(Prelude { kept: None }),
        }
    }

    /// The deeds, and then a check.
    pub(crate) fn with_check(
        self,
        site: Site,
        check: Check,
        truth: Truth,
    ) -> Result<Prelude, AllocError>
        ensures { IfOk result (λ all. (h k : ℕ) (ds : List DeedTree) (c : Tree) → h ≤ k
            → self ≡ kept_deeds site.variables h ds → truth ≡ kept_condition site.variables k c
            → all ≡ kept_deeds site.variables k (ds ++ checks check c site.line ∷ [])) }
    {
        match (self.kept, truth.into_cond()) {
            (Some(mut deeds), Some(cond)) => {
                deeds.push(Deed::Check {
                    check,
                    cond,
                    line: site.line,
                })?;
                Ok(Prelude { kept: Some(deeds) })
            }
            _ => Ok(Prelude { kept: None }),
        }
    }

    /// The deeds with their checks under a condition that was read before them.
    pub(crate) fn under(self, alloc: Global, above: &Truth) -> Result<Prelude, AllocError>
        ensures { IfOk result (λ all. (n h k : ℕ) (c : Tree) (ds : List DeedTree) → h ≤ k
            → above.now ≡ kept_condition n h c → self ≡ kept_deeds n k ds → all ≡ kept_deeds n k (all_under c ds)) }
    {
        match self.kept {
            Some(deeds) => Ok(Prelude {
                kept: deeds_under(alloc, above.as_cond(), deeds)?,
            }),
            None => Ok(Prelude { kept: None }),
        }
    }
}
