//! What the terms of a row add up to.

ghost use Rattle.std.specs.Prelude.{◌≡◌, ◌+ℤ◌, ◌↔◌, ℕ, List, IsTrue, IsFalse, IfOk, MatchOption, map};
ghost use Rattle.lang_tree.specs.Numbers.{is_number};
ghost use Rattle.flow_templates.specs.Sums.{share, StaysWithin};
ghost use Rattle.flow_templates.specs.Kept.{kept_amount, sum_at, AddUp};

use crate::term::Term;
use std::alloc::{AllocError, Global};
use std::collections::BTreeMap;

/// The coefficient of a name.
pub(crate) fn sum_of(sums: &BTreeMap<&[u8], i64>, name: &[u8]) -> i64
    ensures { result ≡ sum_at sums.now name.now }
{
    match sums.get(name) {
        Some(sum) => *sum,
        None => 0,
    }
}

// The sum of two numbers, where it is within `2^63 - 1`.
fn sum_within(left: i64, right: i64) -> Option<i64>
    ensures { MatchOption result (IsFalse (is_number (left +ℤ right))) (λ sum. (sum ≡ left +ℤ right) × IsTrue (is_number (left +ℤ right))) }
{
    match left.checked_add(right) {
        Some(i64::MIN) => None,
        sum => sum,
    }
}

// Adds a term to the coefficient of its name, and says whether that stays within `2^63 - 1`.
fn add<'a>(sums: &mut BTreeMap<&'a [u8], i64>, term: Term<'a>) -> Result<bool, AllocError>
    ensures fits { IfOk result (λ fits. fits ≡ is_number (sum_at sums.old term.entry.name.now +ℤ term.entry.coefficient)) }
    ensures sums { IfOk result (λ fits. IsTrue fits → (name : List ℕ) →
        sum_at sums.new name ≡ sum_at sums.old name +ℤ share name (kept_amount term.entry)) }
{
    match sum_within(sum_of(sums, term.name), term.coefficient) {
        Some(sum) => {
            sums.insert(term.name, sum)?;
            Ok(true)
        }
        None => Ok(false),
    }
}

/// What the coefficients of the terms add up to by their names; `None` where one leaves `2^63 - 1` on the way.
pub(crate) fn sums<'a>(
    alloc: Global,
    terms: &[Term<'a>],
) -> Result<Option<BTreeMap<&'a [u8], i64>>, AllocError>
    ensures { IfOk result (λ found. MatchOption found (StaysWithin (map kept_amount terms.now) → ⊥)
        (λ sums. StaysWithin (map kept_amount terms.now) × AddUp sums (map kept_amount terms.now))) }
{
    let mut sums = BTreeMap::new(alloc);
    for term in terms {
        if !add(&mut sums, *term)? {
            return Ok(None);
        }
    }
    Ok(Some(sums))
}
