//! Numbers as they are written.

use std::marker::Model;

/// A whole number from 0 to 9223372036854775807.
#[derive(Drop)]
pub struct Literal {
    value: u64,
}

impl Model for Literal {
    ghost use Rattle.std.specs.Prelude.{ℕ, ◌≤◌};

    ghost Value = { ℕ };

    ghost view = { λ l. l.value };

    ghost invariant = { λ l. l.value ≤ 9223372036854775807 };
}

impl Literal {
    ghost use Rattle.std.specs.Prelude.{◌≡◌, ◌≤◌};
    ghost use Rattle.flow_rationals.specs.Symbols.{literal};

    /// The value of a literal; one below 0 is none, and taken for 0.
    pub fn new(value: i64) -> Literal
        ensures { result ≡ literal value }
    {
        Literal {
            value: if value < 0 { 0 } else { value as u64 },
        }
    }

    /// The number itself.
    pub fn value(&self) -> u64
        ensures value { result ≡ self.now }
        ensures within { self.now ≤ 9223372036854775807 }
    {
        self.value
    }

    /// The same number once more.
    pub fn again(&self) -> Literal
        ensures { result ≡ self.now }
    {
        Literal { value: self.value }
    }
}
