//! Laws of the definitions, each the contract of a function that does nothing.

ghost use Rattle.ask_checks.specs.Laws.{OpenStatesBreak, ProvedChecksHold, ProvedVerdictsHold, RefusalsAreOne, VerdictsAreOne};
ghost use Rattle.ask_checks.specs.Laws.{WideChecksDontFit};

/// Where a post-solution of a program's system, whose rows are over the program's variables, proves a check, it is true in every run:
/// wherever the check stands, its condition isn't false.
pub fn proved_checks_hold()
    ensures { ProvedChecksHold }
{}

/// The same of a list: where a verdict on a check of a list is that it is proved, at a post-solution of a program's system.
pub fn proved_verdicts_hold()
    ensures { ProvedVerdictsHold }
{}

/// The state of an open check breaks it at one of its places: actions lead to it from a state that fits the vector at the source of an
/// edge, and it passes all guards of a case in which the check's condition may be false.
pub fn open_states_break()
    ensures { OpenStatesBreak }
{}

/// The verdicts on checks are determined by the system, the bounds of the vector and the checks.
pub fn verdicts_are_one()
    ensures { VerdictsAreOne }
{}

/// A wide operation is named only where not all operations fit, and then it is determined by the system, the bounds of the
/// vector and the checks.
pub fn refusals_are_one()
    ensures apart { WideChecksDontFit }
    ensures one { RefusalsAreOne }
{}
