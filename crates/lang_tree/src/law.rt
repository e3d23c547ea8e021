//! Laws of the definitions, each the contract of a function that does nothing.

ghost use Rattle.lang_tree.specs.Cases.{CasesAreTruth};

/// A condition may be true at a state exactly where all guards of one of its cases for true are at most 0 there, and may
/// be false likewise.
pub fn cases_are_truth()
    ensures { CasesAreTruth }
{}
