//! Laws of the definitions, each the contract of a function that does nothing.

ghost use Rattle.flow_edges.specs.CheckLaws.{ChecksAreOnEdges};
ghost use Rattle.flow_edges.specs.Constants.{ConditionsHaveRoom};
ghost use Rattle.flow_edges.specs.PathLaws.{BehindPoints, EdgesInRange, EdgesOfPrograms, PointsAreNumbered, StepsAreRecorded, WaysAreSteps};

/// Each point of a program is made by exactly one of its nodes, and stands in the list of points at the number that this
/// node gives it.
pub fn points_are_numbered()
    ensures { PointsAreNumbered }
{}

/// A step of a run, other than past a mark, does what one of the labelled steps records, and the other way round.
pub fn steps_are_recorded()
    ensures { StepsAreRecorded }
{}

/// The ways from a piece of work to the next point are those by its labelled steps, in their order.
pub fn ways_are_steps()
    ensures { WaysAreSteps }
{}

/// Labelled steps from the start come to the mark of a point exactly where the list of work after points has some for it,
/// and leave that work after the mark.
pub fn work_behind_points()
    ensures { BehindPoints }
{}

/// The edges of a program are its paths: each edge is a path, and each path is an edge.
pub fn edges_are_paths()
    ensures { EdgesOfPrograms }
{}

/// No edge of a program ends at the entry, and every edge goes from a point to a point.
pub fn edges_are_in_range()
    ensures { EdgesInRange }
{}

/// The comparisons of a program's conditions leave room for their guards, so that `cases` may be asked for them.
pub fn conditions_have_room()
    ensures { ConditionsHaveRoom }
{}

/// A run comes to a check along an edge that has it: in each run of a program, where a check stands there is an edge of the
/// program with this check among its actions, the run passed the edge's source, and what it did from there on are the actions
/// of the edge that stand before the check.
pub fn checks_are_on_edges()
    ensures { ChecksAreOnEdges }
{}
