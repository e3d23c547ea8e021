//! Laws of the definitions, each the contract of a function that does nothing.

ghost use Rattle.std.specs.Prelude.{◌≡◌, ℕ, List, Result};
ghost use Rattle.flow_rationals.specs.declared.equation.Equation.{Equation};
ghost use Rattle.flow_rationals.specs.declared.fault.EquFault.{EquFault};
ghost use Rattle.flow_rationals.specs.EquationTexts.{Answers};
ghost use Rattle.flow_rationals.specs.Laws.{AtMostOneLeastAbove, LeastAboveEqualRightSides, LeastVectorsAreLeastAbove};
ghost use Rattle.flow_rationals.specs.Laws.{PostSolutionsAreAbove};

/// The values at the loop of the system's least vector are the least above the equations: a vector that is `+inf` at the entry
/// is a post-solution exactly where its values at the loop are above the equations.
pub fn least_vectors_are_least_above()
    ensures post { PostSolutionsAreAbove }
    ensures least { LeastVectorsAreLeastAbove }
{}

/// The least values above equations equal their right sides. That holds since they are least: values that are above the
/// equations and shown by edges need not solve them.
pub fn least_above_equal_right_sides()
    ensures { LeastAboveEqualRightSides }
{}

/// There is at most one least value for each name.
pub fn at_most_one_least_above()
    ensures { AtMostOneLeastAbove }
{}

/// A text is one thing at most: these equations, or this fault.
pub fn texts_have_one_answer()
    ensures { (text : List ℕ) (one other : Result (List Equation) EquFault) → Answers text one → Answers text other → one ≡ other }
{}
