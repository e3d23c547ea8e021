//! Formulas 3 and 4 on a row: two rising lists become one.
ghost use Rattle.std.specs.Prelude.{◌≡◌, ◌≢◌, ℕ, ◌<◌, ◌≤◌, eqb, drop, [], length, None, OnOk, IfOk, IfErr};
ghost use Rattle.base_numbers.specs.Rational.{zero_ℚ, ◌*ℚ◌};
ghost use Rattle.base_fractions.specs.Operation.{first_wide};
ghost use Rattle.lp_dictionary.specs.Formulas.{combined_row, added_operations};
ghost use Rattle.lp_dictionary.specs.PivotOperations.{added_row_operations};
ghost use Rattle.lp_dictionary.specs.Faults.{Refuses};
ghost use Rattle.lp_dictionary.specs.Entries.{value_at, Rises, HasNoZero};
ghost use Rattle.lp_sparse.specs.Entries.{or_zero, head_value, behind};
ghost use Rattle.lp_dictionary.specs.Keeps.{Keeps};
ghost use Rattle.lp_sparse.specs.Merge.{StartsAt, MergesOn, MergesEntry};
ghost use Rattle.lp_sparse.specs.Units.{IsUnit};

use crate::formulas::{kept_of, sum_of};
use crate::push::push_answer;
use crate::unit::unit_of;
use base_fractions::OrderedField;
use lp_dictionary::{Entry, PivotFault};

/// Appends the entries of a row from the place `i` on whose column is below `until`, with `product` in the pivot's column, and answers
/// the place after them.
fn keep_before<F: OrderedField>(
    merged: &mut Vec<Entry<F>>,
    entries: &[Entry<F>],
    i: usize,
    until: u64,
    product: F,
    col: u32,
) -> Result<usize, PivotFault<F>>
    requires within { i ≤ length entries.now }
    ensures kept { IfOk result (λ r. MergesOn F.meaning F.LIMIT (F.meaning product) col until
        (drop i entries.now) (drop r entries.now) merged.old.items merged.new.items) }
    ensures place { IfOk result (λ r. r ≤ length entries.now) }
    ensures rest { IfOk result (λ r. StartsAt until (drop r entries.now)) }
    ensures all { IfOk result (λ r. 4294967296 ≤ until → length entries.now ≤ r) }
    ensures no_zero { OnOk result (HasNoZero F.meaning merged.old.items → HasNoZero F.meaning merged.new.items) }
    ensures refused { IfErr result (Refuses F.meaning F.LIMIT []) }
{
    let mut place = i;
    while place < entries.len() {
        let at = entries[place].col;
        if at as u64 >= until {
            break;
        }
        let kept = kept_of(entries[place].value, product, at == col);
        push_answer(merged, at, Ok(kept))?;
        place += 1;
    }
    Ok(place)
}

/// The value of the entry at a column, where it stands at the place `i`, and the place from which on entries stand behind that column.
fn value_from<F: OrderedField>(entries: &[Entry<F>], i: usize, col: u32) -> (Option<F>, usize)
    requires within { i ≤ length entries.now }
    ensures value { or_zero F.meaning result.0 ≡ head_value F.meaning (drop i entries.now) col }
    ensures rest { drop result.1 entries.now ≡ behind (drop i entries.now) col }
    ensures place { result.1 ≤ length entries.now }
{
    if i >= entries.len() {
        return (None, i);
    }
    let entry = entries[i];
    if entry.col == col {
        (Some(entry.value), i + 1)
    } else {
        (None, i)
    }
}

/// Appends what formulas 3 and 4 make of an entry of the pivot's row and of the row's entry at its column, which is none or stands at the
/// place `i`, and answers the place after that column.
fn merge_entry<F: OrderedField>(
    merged: &mut Vec<Entry<F>>,
    entries: &[Entry<F>],
    entry: Entry<F>,
    i: usize,
    factor: F,
    product: F,
    col: u32,
    unit: Option<bool>,
) -> Result<usize, PivotFault<F>>
    requires within { i ≤ length entries.now }
    requires is_factor { F.meaning factor ≢ zero_ℚ }
    requires unit { IsUnit (F.meaning factor) unit }
    ensures merged { IfOk result (λ r. MergesEntry F.meaning F.LIMIT (F.meaning factor) (F.meaning product) col entry
        (drop i entries.now) (drop r entries.now) merged.old.items merged.new.items) }
    ensures place { IfOk result (λ r. r ≤ length entries.now) }
    ensures refused { IfErr result (Refuses F.meaning F.LIMIT
        (added_operations (head_value F.meaning (drop i entries.now) entry.col) (F.meaning factor) (F.meaning entry.value)
        (eqb entry.col col))) }
{
    let at = entry.col;
    let (value, place) = value_from(entries, i, at);
    let sum = sum_of(value, factor, entry.value, product, at == col, unit);
    push_answer(merged, at, sum)?;
    Ok(place)
}

/// Adds `factor` times the entries of `above` to those of a row, outside the pivot's column, where `product` stands.
pub fn merge<F: OrderedField>(
    merged: &mut Vec<Entry<F>>,
    entries: &[Entry<F>],
    above: &[Entry<F>],
    factor: F,
    product: F,
    col: u32,
) -> Result<(), PivotFault<F>>
    requires factor { F.meaning factor ≡ value_at F.meaning entries.now col }
    requires is_factor { F.meaning factor ≢ zero_ℚ }
    requires product { F.meaning product ≡ F.meaning factor *ℚ value_at F.meaning above.now col }
    ensures merged { OnOk result ((n : ℕ) → Rises 0 n entries.now → Rises 0 n above.now →
        Keeps F.meaning (combined_row (value_at F.meaning entries.now) (value_at F.meaning above.now) col) n merged.new.items) }
    ensures no_zero { OnOk result (HasNoZero F.meaning merged.new.items) }
    ensures fits { OnOk result ((n : ℕ) → Rises 0 n entries.now → Rises 0 n above.now →
        first_wide F.LIMIT (added_row_operations n (value_at F.meaning entries.now) (F.meaning factor) (value_at F.meaning above.now) col)
        ≡ None) }
    ensures refused { IfErr result (λ e. (n : ℕ) → Rises 0 n entries.now → Rises 0 n above.now →
        Refuses F.meaning F.LIMIT (added_row_operations n (value_at F.meaning entries.now) (F.meaning factor) (value_at F.meaning above.now)
        col) e) }
{
    merged.clear();
    let unit = unit_of(factor);
    let mut i = 0;
    for j in 0..above.len() {
        let entry = &above[j];
        let place = keep_before(merged, entries, i, entry.col as u64, product, col)?;
        i = merge_entry(merged, entries, *entry, place, factor, product, col, unit)?;
    }
    keep_before(merged, entries, i, 4294967296, product, col)?;
    Ok(())
}
