//! Laws of the definitions, each the contract of a function that does nothing.

ghost use Rattle.solve_raise.specs.Laws.{RaisesAgree};

/// The step of a raise is the one by which the theory's growth raises an unknown, where its evidence has the words of the
/// value.
pub fn raises_agree()
    ensures { RaisesAgree }
{}
