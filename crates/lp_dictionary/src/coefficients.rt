//! Lists of coefficients that keep those that are not zero.
ghost use Rattle.std.specs.Prelude.{◌≡◌, ◌+◌, ◌≤◌, MatchResult};

use crate::entry::{Entry, push_value};
use crate::place::value_in;
use base_fractions::OrderedField;
use std::alloc::{AllocError, Global};
use std::marker::Model;

/// Coefficients in order, at most 4294967295 of them. Contracts see the list of the numbers that they stand for; memory is taken for
/// those alone that are not zero.
#[derive(Drop)]
pub struct Coefficients<F: OrderedField> {
    entries: Vec<Entry<F>>,
    length: u32,
}

impl<F: OrderedField> Model for Coefficients<F> {
    ghost use Rattle.std.specs.Prelude.{List};
    ghost use Rattle.std.specs.Coded.{coded_list};
    ghost use Rattle.base_numbers.specs.Rational.{ℚ};
    ghost use Rattle.base_fractions.specs.Fits.{coded_ℚ};
    ghost use Rattle.lp_dictionary.specs.Entries.{spread, Rises, HasNoZero};

    ghost Value = { List ℚ };

    ghost coded = { coded_list coded_ℚ };

    ghost view = { λ a. spread F.meaning a.length a.entries.items };

    ghost invariant = { λ a. Rises 0 a.length a.entries.items × HasNoZero F.meaning a.entries.items };
}

// A length and so many more, if there are at most 4294967295 then.
fn longer(length: u32, more: usize) -> Result<u32, AllocError>
    ensures { MatchResult result (λ sum. sum ≡ length + more) (λ _. 4294967296 ≤ length + more) }
{
    if more <= (u32::MAX - length) as usize {
        Ok(length + more as u32)
    } else {
        Err(AllocError)
    }
}

impl<F: OrderedField> Coefficients<F> {
    ghost use Rattle.std.specs.Prelude.{◌≡◌, ◌≤◌, ◌+◌, ◌++◌, ◌∷◌, [], length, map, get_or, OnOk, OnErr, IfOk};
    ghost use Rattle.base_numbers.specs.Rational.{zero_ℚ};
    ghost use Rattle.base_numbers.specs.Vector.{zeros};
    ghost use Rattle.lp_dictionary.specs.Keeps.{Lists};

    /// No coefficients.
    pub fn new(alloc: Global) -> Coefficients<F>
        ensures { result ≡ [] }
    {
        Coefficients {
            entries: Vec::new(alloc),
            length: 0,
        }
    }

    /// Appends a coefficient. A zero takes no memory.
    ///
    /// # Errors
    ///
    /// Want of memory, or 4294967295 coefficients before. The list is as before.
    pub fn push(&mut self, value: F) -> Result<(), AllocError>
        ensures pushed { OnOk result (self.new ≡ self.old ++ F.meaning value ∷ []) }
        ensures kept { OnErr result (self.new ≡ self.old) }
    {
        let next = longer(self.length, 1)?;
        push_value(&mut self.entries, self.length, value)?;
        self.length = next;
        Ok(())
    }

    /// Appends so many zeros, in constant time and without memory.
    ///
    /// # Errors
    ///
    /// More than 4294967295 coefficients. The list is as before.
    pub fn push_zeros(&mut self, count: usize) -> Result<(), AllocError>
        ensures pushed { OnOk result (self.new ≡ self.old ++ zeros count) }
        ensures kept { OnErr result (self.new ≡ self.old) }
        ensures full { OnErr result (4294967296 ≤ length self.old + count) }
    {
        match longer(self.length, count) {
            Ok(sum) => {
                self.length = sum;
                Ok(())
            }
            Err(fault) => Err(fault),
        }
    }

    /// How many coefficients there are, those that are zero too.
    pub fn len(&self) -> usize
        ensures { result ≡ length self.now }
    {
        self.length as usize
    }

    /// The coefficient at a place, counted from 0; 0 behind the last.
    pub fn at(&self, place: usize) -> F
        ensures { F.meaning result ≡ get_or self.now place zero_ℚ }
    {
        if place < self.length as usize {
            value_in(&self.entries, place as u32)
        } else {
            F::zero()
        }
    }

    /// The coefficients that are not zero, by rising place.
    pub fn entries(&self) -> &[Entry<F>]
        ensures { Lists F.meaning self.now result.now }
    {
        self.entries.as_slice()
    }

    /// The coefficients of a list with its zeros.
    ///
    /// # Errors
    ///
    /// Want of memory, or more than 4294967295 coefficients.
    pub fn of(alloc: Global, values: &[F]) -> Result<Coefficients<F>, AllocError>
        ensures { IfOk result (λ c. c ≡ map F.meaning values.now) }
    {
        let mut coefficients = Coefficients::new(alloc);
        for value in values {
            coefficients.push(*value)?;
        }
        Ok(coefficients)
    }
}
