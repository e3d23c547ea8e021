//! What is true of each file. The functions do nothing: their contracts are the laws.

ghost use Rattle.source_groups.specs.Laws.{OneGrouping};

/// By any two lists of groups of one function the same variables stand together.
pub fn one_grouping()
    ensures { OneGrouping }
{}
