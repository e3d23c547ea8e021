//! Laws of the definitions, each the contract of a function that does nothing.

ghost use Rattle.flow_systems.specs.CheckedStates.{ChecksFitBounds};
ghost use Rattle.flow_systems.specs.FreeValues.{TracesAreFollowed};
ghost use Rattle.flow_systems.specs.SolutionLaws.{
  AtMostOneLeast,
  IntegerStatesAreRational,
  LeastSolutionsAreSupported,
  LeastWhereDecided,
  PostSolutionsHold,
  ProgramPostSolutionsHold,
  UnreachedAtAllRows,
};
ghost use Rattle.flow_systems.specs.View.{VectorsAreLists};

/// Every post-solution holds in every run: where the edges are the paths of a program, and so for the system of a program.
pub fn post_solutions_hold()
    ensures paths { PostSolutionsHold }
    ensures program { ProgramPostSolutionsHold }
{}

/// Every post-solution of a program's system lets a run be where it is at a check: on an edge that has the check, a trace
/// along the actions before it leads there from an integer state that fits at the edge's source.
pub fn checks_fit_bounds()
    ensures { ChecksFitBounds }
{}

/// An integer state is a rational state, and each form has the same value there.
pub fn integer_states_are_rational()
    ensures { IntegerStatesAreRational }
{}

/// A trace takes one value at each free assignment, and its start and these values determine its end.
pub fn traces_are_followed()
    ensures { TracesAreFollowed }
{}

/// Two least vectors have the same bounds, and what solves the system and is at most every post-solution is least.
pub fn at_most_one_least()
    ensures { AtMostOneLeast }
{}

/// A post-solution that is at most every post-solution can't have a smaller bound outside the entry: it isn't so that no
/// transition exceeds the smaller number. So it is least wherever that is decided.
pub fn least_solutions_are_supported()
    ensures supported { LeastSolutionsAreSupported }
    ensures decided { LeastWhereDecided }
{}

/// Where a solution has the bound `-inf` at a point, it has it there for every row.
pub fn unreached_at_all_rows()
    ensures { UnreachedAtAllRows }
{}

/// A vector over points and rows is the list of its bounds, point after point, and the other way round.
pub fn vectors_are_lists()
    ensures { VectorsAreLists }
{}
