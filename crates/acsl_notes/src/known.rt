//! Rows over the variables that are known.

ghost use Rattle.std.specs.Prelude.{◌≡◌, nat_eq};
ghost use Rattle.std.specs.List.{list_any};
ghost use Rattle.acsl_notes.specs.Clauses.{is_over};

/// Whether a variable, counted from 0, is known.
fn is_known(known: &[u32], variable: usize) -> bool
    ensures { result ≡ list_any (λ j. nat_eq j variable) known.now }
{
    known.iter().any(|number| *number as usize == variable)
}

/// Whether each variable that has a coefficient in the row is known.
pub(crate) fn is_over(known: &[u32], row: &[i64]) -> bool
    ensures { result ≡ is_over 0 known.now row.now }
{
    for index in 0..row.len() {
        if row[index] != 0 && !is_known(known, index) {
            return false;
        }
    }
    true
}
