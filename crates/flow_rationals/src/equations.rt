//! Equations within the limits.

ghost use Rattle.std.specs.Prelude.{◌≡◌, IsTrue};
ghost use Rattle.flow_rationals.specs.Equations.{are_equations};

use crate::equation::Equation;
use std::marker::Model;

/// 1 to `MOST_EQUATIONS` equations with at most `MOST_ALTERNATIVES` alternatives in all. Contracts see the list of them.
///
/// All numbers are within `2^63 - 1` in absolute value.
#[derive(Drop)]
pub struct Equations {
    list: Vec<Equation>,
}

impl Model for Equations {
    ghost use Rattle.std.specs.Prelude.{List, IsTrue};
    ghost use Rattle.flow_rationals.specs.declared.equation.Equation.{Equation};
    ghost use Rattle.flow_rationals.specs.Equations.{are_equations};

    ghost Value = { List Equation };

    ghost view = { λ e. e.list.items };

    ghost invariant = { λ e. IsTrue (are_equations e.list.items) };
}

impl Equations {
    /// The list as equations.
    pub fn new(list: Vec<Equation>) -> Equations
        requires { IsTrue (are_equations list.items) }
        ensures { result ≡ list.items }
    {
        Equations { list }
    }

    /// The list itself.
    pub fn as_slice(&self) -> &[Equation]
        ensures list { result.now ≡ self.now }
        ensures equations { IsTrue (are_equations self.now) }
    {
        self.list.as_slice()
    }
}
