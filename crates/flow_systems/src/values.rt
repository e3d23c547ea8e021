//! The values of the variables on the way along an edge.

ghost use Rattle.std.specs.Prelude.{◌≡◌, ◌<◌, ◌≤◌, length};
ghost use Rattle.base_numbers.specs.Rational.{zero_ℚ};
ghost use Rattle.lang_tree.specs.Meaning.{put};

use base_fractions::{Frac, OrderedField};
use lang_tree::{MOST_HIDDEN, MOST_VARIABLES};
use std::marker::Model;

/// The greatest number of variables on an edge, hidden ones included.
pub const MOST_VALUES: usize = MOST_VARIABLES + MOST_HIDDEN;

/// The values of the variables, in order, and then those of hidden ones, up to the last that has been given a value: at most
/// `MOST_VALUES`.
#[derive(Drop)]
pub struct Values {
    list: [Frac; MOST_VALUES],
    len: usize,
}

impl Model for Values {
    ghost use Rattle.std.specs.Prelude.{◌≡◌, ◌≤◌, ◌-◌, List, length, take, drop, replicate};
    ghost use Rattle.std.specs.Coded.{coded_list};
    ghost use Rattle.base_numbers.specs.Rational.{ℚ, zero_ℚ};
    ghost use Rattle.base_fractions.specs.Fits.{coded_ℚ};
    ghost use Rattle.flow_systems.specs.declared.values.TheConstants.{MOST_VALUES};

    ghost Value = { List ℚ };

    ghost coded = { coded_list coded_ℚ };

    ghost view = { λ v. take v.len v.list };

    ghost invariant = { λ v. (length v.list ≡ MOST_VALUES) × (v.len ≤ MOST_VALUES)
        × (drop v.len v.list ≡ replicate (length v.list - v.len) zero_ℚ) };
}

impl Values {
    /// Those of a start: no hidden variable has one.
    pub fn new(start: &[Frac]) -> Values
        requires { length start.now ≤ MOST_VALUES }
        ensures { result ≡ start.now }
    {
        let mut values = Values {
            list: [Frac::zero(); MOST_VALUES],
            len: 0,
        };
        for i in 0..start.len() {
            values.put(i, start[i]);
        }
        values
    }

    /// The values in order.
    pub fn as_slice(&self) -> &[Frac]
        ensures { result.now ≡ self.now }
    {
        &self.list[..self.len]
    }

    /// Gives a variable a value. Those before it that have none get 0.
    pub fn put(&mut self, variable: usize, value: Frac)
        requires { variable < MOST_VALUES }
        ensures { self.new ≡ put zero_ℚ self.old variable value }
    {
        self.list[variable] = value;
        if self.len <= variable {
            self.len = variable + 1;
        }
    }
}
