//! Lists of a length that is asked for.

ghost use Rattle.std.specs.Prelude.{◌≡◌, IfOk};
ghost use Rattle.std.specs.List.{list_all};
ghost use Rattle.cert_written.specs.Entries.{entries_for};
ghost use Rattle.cert_written.specs.Pairs.{filled, is_below, length_for, value_at};

use base_fractions::{Frac, OrderedField};
use cert_written::{Entries, Pair};
use std::alloc::{AllocError, Global};

// The value at a place.
#[tactic(auto, using(crate::proofs::lists::Values::found, crate::proofs::lists::Values::passed, crate::proofs::lists::Values::ended))]
fn value_at(pairs: &[Pair], place: usize) -> Frac
    ensures { result ≡ value_at pairs.now place }
{
    for pair in pairs {
        if pair.place as usize == place {
            return pair.value;
        }
    }
    Frac::zero()
}

// The list of this length with these values at their places.
fn filled(alloc: Global, length: usize, pairs: &[Pair]) -> Result<Vec<Frac>, AllocError>
    ensures { IfOk result (λ list. list.items ≡ filled length pairs.now) }
{
    let mut list = Vec::new(alloc);
    for place in 0..length {
        list.push(value_at(pairs, place))?;
    }
    Ok(list)
}

// Whether each place is below this length.
fn are_below(length: usize, pairs: &[Pair]) -> bool
    ensures { result ≡ list_all (is_below length) pairs.now }
{
    pairs.iter().all(|pair| (pair.place as usize) < length)
}

// The length of the list for which pairs stand where this one is asked for.
fn length_for(length: usize, pairs: &[Pair]) -> usize
    ensures { result ≡ length_for length pairs.now }
{
    if are_below(length, pairs) {
        length
    } else if length == 0 {
        1
    } else {
        0
    }
}

/// The list for which entries stand where this length is asked for.
pub(crate) fn entries_for(
    alloc: Global,
    length: usize,
    entries: &Entries,
) -> Result<Vec<Frac>, AllocError>
    ensures { IfOk result (λ list. list.items ≡ entries_for length entries.now) }
{
    match entries {
        Entries::Dense(list) => list.as_slice().to_vec(alloc),
        Entries::Sparse(pairs) => {
            let pairs = pairs.as_slice();
            filled(alloc, length_for(length, pairs), pairs)
        }
    }
}
