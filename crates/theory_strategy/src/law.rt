//! Laws of the definitions, each the contract of a function that does nothing.

ghost use Rattle.theory_strategy.specs.Laws.{FewerRoundsThanPicks, NoPickTwice, TransformersAreFlat};

/// A transformer that did not rise with some bounds at its source does not rise whatever those bounds become.
pub fn transformers_are_flat()
    ensures { TransformersAreFlat }
{}

/// No pick comes twice in a chain of rounds, whatever the policy that chose the picks.
pub fn no_pick_twice()
    ensures { NoPickTwice }
{}

/// There are fewer rounds than picks: than the product, over all unknowns, of one more than the edges into its point.
pub fn fewer_rounds_than_picks()
    ensures { FewerRoundsThanPicks }
{}
