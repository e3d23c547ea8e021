//! Laws of runs of functions of C, each the contract of a function that does nothing.

ghost use Rattle.flow_source.specs.Laws.{BoundsHoldByC, ChecksHoldByC, RunsAreByAll};

/// A vector that holds in every run of the core of a function holds in every run of the function by C (docs/MEANING.md, "Functions of C").
pub fn bounds_hold_by_c()
    ensures { BoundsHoldByC }
{}

/// Where the checks of the core of a function that are about a place are true in every run of the core, the place's check is true in every
/// run of the function by C (docs/MEANING.md, "Functions of C").
pub fn checks_hold_by_c()
    ensures { ChecksHoldByC }
{}

/// A run of a function by the integers of a machine is one by all integers, which goes up to the first operation that overflows
/// (docs/MEANING.md, "Machine integers").
pub fn runs_are_by_all()
    ensures { RunsAreByAll }
{}
