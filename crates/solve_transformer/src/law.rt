//! Laws of places, each the contract of a function that does nothing.

ghost use Rattle.solve_transformer.specs.PlaceLaws.{PointsArePlain};

/// Where no actions come before the guards, no side is too wide, nor is an operation by which the state is read unless one of the
/// trace is; and the state is the start of the trace.
pub fn points_are_plain()
    ensures { PointsArePlain }
{}
