//! Lists of fractions without their zeros.

ghost use Rattle.std.specs.Prelude.{◌≡◌, IfOk, IsTrue};
ghost use Rattle.cert_written.specs.Pairs.{if_sparse, is_nil, is_sparse, nonzero};

use base_fractions::{Frac, OrderedField};
use std::alloc::{AllocError, Global};
use std::marker::Model;

/// An entry of a list that isn't 0, with its place, counted from 0.
#[derive(Clone, Copy, Drop)]
pub struct Pair {
    pub place: u32,
    pub value: Frac,
}

/// The entries of a list that aren't 0, by place. Contracts see the list of pairs; the places ascend.
#[derive(Drop)]
pub struct Pairs {
    list: Vec<Pair>,
}

impl Model for Pairs {
    ghost use Rattle.std.specs.Prelude.{List, IsTrue};
    ghost use Rattle.cert_written.specs.declared.pairs.Pair.{Pair};
    ghost use Rattle.cert_written.specs.Pairs.{is_sparse};

    ghost Value = { List Pair };

    ghost view = { λ p. p.list.items };

    ghost invariant = { λ p. IsTrue (is_sparse p.list.items) };
}

impl Pairs {
    /// The pairs, or `None` where their places don't ascend or a value is 0.
    pub fn new(list: Vec<Pair>) -> Option<Pairs>
        ensures { result ≡ if_sparse list.items }
    {
        if is_sparse(list.as_slice()) {
            Some(Pairs { list })
        } else {
            None
        }
    }

    /// The pairs in order.
    pub fn as_slice(&self) -> &[Pair]
        ensures list { result.now ≡ self.now }
        ensures sparse { IsTrue (is_sparse self.now) }
    {
        self.list.as_slice()
    }

    /// The same pairs once more.
    pub fn again(&self, alloc: Global) -> Result<Pairs, AllocError>
        ensures { IfOk result (λ copy. copy ≡ self.now) }
    {
        let list = self.list.as_slice().to_vec(alloc)?;
        Ok(Pairs { list })
    }
}

// Whether a fraction is 0.
fn is_nil(value: Frac) -> bool
    ensures { result ≡ is_nil value }
{
    value.num() == 0
}

// Whether the places ascend and no value is 0.
#[tactic(auto, using(crate::proofs::pairs::Sparse::failed, crate::proofs::pairs::Sparse::passed, crate::proofs::pairs::Sparse::ended))]
fn is_sparse(list: &[Pair]) -> bool
    ensures { result ≡ is_sparse list.now }
{
    let mut least: u64 = 0;
    for pair in list {
        if (pair.place as u64) < least || is_nil(pair.value) {
            return false;
        }
        least = pair.place as u64 + 1;
    }
    true
}

#[tactic(auto, using(crate::proofs::pairs::Sparse::skipped, crate::proofs::pairs::Sparse::pushed, crate::proofs::pairs::Sparse::nonzero_sparse))]
/// The entries of the list that aren't 0. A list of more than 2^32 entries is wanting in memory.
pub fn pairs_of(alloc: Global, list: &[Frac]) -> Result<Pairs, AllocError>
    ensures { IfOk result (λ pairs. pairs ≡ nonzero 0 list.now) }
{
    let mut pairs = Vec::new(alloc);
    for (place, value) in list.iter().enumerate() {
        if place > 4_294_967_295 {
            return Err(AllocError);
        }
        if !is_nil(*value) {
            pairs.push(Pair {
                place: place as u32,
                value: *value,
            })?;
        }
    }
    Ok(Pairs { list: pairs })
}
