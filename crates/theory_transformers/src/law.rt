//! Laws of the definitions, each the contract of a function that does nothing.

ghost use Rattle.theory_transformers.specs.Laws.{
  JointProblemsDecide,
  PartsAreOrdered,
  TransformersAreLocal,
  TransformersAreReached,
  TransformersAreSuprema,
};

/// The transformer of an edge and a row is the least number that bounds the row's value at the end of every word along the
/// edge whose start fits the vector.
pub fn transformers_are_suprema()
    ensures { TransformersAreSuprema }
{}

/// A transformer has its evidence: a word that reaches it, a word and a direction in which it grows without end, or
/// multipliers that exclude every word.
pub fn transformers_are_reached()
    ensures { TransformersAreReached }
{}

/// A transformer depends on the bounds at the edge's source alone.
pub fn transformers_are_local()
    ensures { TransformersAreLocal }
{}

/// The exact run on the joint problem of a list whose picked transformers exceed their bounds ends with the greatest vector
/// that the picked edges support, or with a ray where there is none.
pub fn joint_problems_decide()
    ensures { JointProblemsDecide }
{}

/// A list is cut into the classes of unknowns that lean on one another, each after those on which its members lean.
pub fn parts_are_ordered()
    ensures { PartsAreOrdered }
{}
