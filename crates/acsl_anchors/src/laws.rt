//! Laws of the definitions, each the contract of a function that does nothing.

ghost use Rattle.acsl_anchors.specs.Laws.{AnchorsArePoints, AnchorsStand, HeadsAreWalked, NothingIsNumbered, ParametersAreWalked};
ghost use Rattle.acsl_anchors.specs.Laws.{ScopesAreWalked};

/// The anchors of a function are the points of its core that have one, in their order, each with what it is, its line and its name.
pub fn anchors_are_points()
    ensures { AnchorsArePoints }
{}

/// The anchors of a function stand in its text in order, each where a token of no directive begins or ends, and none right behind a `/`.
pub fn anchors_stand()
    ensures { AnchorsStand }
{}

/// What is known behind statements is what the language's rule on names says there, and so is which variable it is: one that is declared
/// again is known again.
pub fn scopes_are_walked()
    ensures { ScopesAreWalked }
{}

/// So is what is known behind the first part of a `for`'s head, where the invariants of its loop are said.
pub fn heads_are_walked()
    ensures { HeadsAreWalked }
{}

/// So is what is known behind the parameters, before the statements of the body.
///
/// `start`: these laws ask that each variable has the number of its name, which holds where nothing has been met.
pub fn parameters_are_walked()
    ensures walked { ParametersAreWalked }
    ensures start { NothingIsNumbered }
{}
