//! A law of the definitions, the contract of a function that does nothing.

ghost use Rattle.theory_leastness.specs.Laws.{PostSolutionsBelowAllAreLeast};

/// A post-solution that is at most every post-solution is the least solution: each number below one of its bounds is exceeded at
/// the end of some transition. That holds because linear programming finds the transition, with no decision left open.
pub fn post_solutions_below_all_are_least()
    ensures { PostSolutionsBelowAllAreLeast }
{}
