//! Laws of the definitions, each the contract of a function that does nothing.

ghost use Rattle.ask_verdicts.specs.Laws.{BreakingStatesHaveValues, OpenStatesBreak, ProvedPlacesHold, RefusalsAreOne, VerdictsAreOne};
ghost use Rattle.ask_verdicts.specs.Laws.{WideVerdictsDontFit};

/// Where no rational state breaks a case against a condition at a place, the condition isn't false at any integer state to which the
/// actions lead from a state that fits the vector at the point.
pub fn proved_places_hold()
    ensures { ProvedPlacesHold }
{}

/// The state of an open verdict breaks one of the cases.
pub fn open_states_break()
    ensures { OpenStatesBreak }
{}

/// A state that breaks a case at a place has a value for each variable of the system: so each name has one that is told.
pub fn breaking_states_have_values()
    ensures { BreakingStatesHaveValues }
{}

/// The verdict at a place is determined by the system, the bounds of the vector, the actions and the cases.
pub fn verdicts_are_one()
    ensures { VerdictsAreOne }
{}

/// A wide operation is named only where not all operations fit, and then it is determined by the system, the bounds of the
/// vector, the actions and the cases.
pub fn refusals_are_one()
    ensures apart { WideVerdictsDontFit }
    ensures one { RefusalsAreOne }
{}
