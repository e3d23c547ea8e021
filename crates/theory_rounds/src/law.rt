//! Laws of the definitions, each the contract of a function that does nothing.

ghost use Rattle.std.specs.Prelude.{Bool, ℕ};
ghost use Rattle.theory_chains.specs.Offers.{Best, By, First, Offer};
ghost use Rattle.theory_rounds.specs.ChainLaws.{
  ChainsAreShort,
  EndsAreLeast,
  EndsOrGoesOn,
  EveryPolicyEndsOrGoesOn,
  OffersAreThere,
  Passing,
  RoundsAreImprovements,
};
ghost use Rattle.theory_rounds.specs.EvidenceLaws.{EvidenceIsRead, EvidenceIsSized, RaisesAreRead};
ghost use Rattle.theory_rounds.specs.RoundLaws.{
  AnyOutcomesDo,
  AnyStepsDo,
  ChainsAreExact,
  CutsAreExact,
  GrowthsAreExact,
  RoundsAreExact,
  RoundsEnd,
  RowsDecide,
  SomeOutcomesDo,
  TurnsAreExact,
  TurnsComeUp,
};

/// The evidence of an exact transformer has the words of the outcome of its problem: the word of a best point, or the word and
/// the direction of an unbounded one, each positive column minus the negative one.
pub fn evidence_is_read()
    ensures { EvidenceIsRead }
{}

/// The words of the evidence have a value for each variable and each free assignment of the edge.
pub fn evidence_is_sized()
    ensures { EvidenceIsSized }
{}

/// The step that raises an unknown towards its exact transformer is read from the outcome of the problem of its edge and row.
pub fn raises_are_read()
    ensures { RaisesAreRead }
{}

/// The growth of a supported pick makes valid steps by the pick's edges. The vector that it leads to is at most every closed
/// vector that is at least the first; raised unknowns have risen, and the transformers of the others are their bounds.
pub fn growths_are_exact()
    ensures { GrowthsAreExact }
{}

/// The joint problem of a list whose transformers exceed its bounds gives a turn: at a point high words that reach the numbers
/// of the point, where those are the transformers; at a ray directions and rates that a ray step may have.
pub fn turns_are_exact()
    ensures { TurnsAreExact }
{}

/// The unknowns that a growth raised to fractions are cut into parts, none of which has a source unknown in a later one.
pub fn cuts_are_exact()
    ensures { CutsAreExact }
{}

/// The round by a supported pick makes valid steps, and leads to the least closed vector that is at least the first, where the
/// pick is tight.
pub fn rounds_are_exact()
    ensures { RoundsAreExact }
{}

/// Whichever outcomes with their facts the turns of a round by a supported pick are made by, the round makes valid steps to the
/// least closed vector that is at least the first. That is one vector, at the template's rows, and the pick is tight there.
pub fn any_outcomes_do()
    ensures { AnyOutcomesDo }
{}

/// There are such outcomes: those of the exact joint problems.
pub fn some_outcomes_do()
    ensures { SomeOutcomesDo }
{}

/// Each turn that comes up in the round by a supported pick has a list that meets the list condition, at a vector that is at
/// least that after the growth and at most that after the round.
pub fn turns_come_up()
    ensures { TurnsComeUp }
{}

/// The steps of rounds, whichever outcomes their turns were made by, are valid and lead to the vector after the rounds. Where no
/// transformer exceeds its bound there, they are the steps of a valid certificate.
pub fn any_steps_do()
    ensures { AnyStepsDo }
{}

/// After so many rounds, by any choices among the edges whose transformers exceed the bound, the pick is tight, the vector is at
/// most every post-solution, and the steps of all rounds are valid and lead to it. There are fewer rounds than picks. Where no
/// transformer exceeds its bound, the vector is the least solution, and the steps, the vector and the evidence that is read
/// from the outcomes at it are a valid certificate.
pub fn chains_are_exact()
    ensures { ChainsAreExact }
{}

/// The rounds end, with any choices.
pub fn rounds_end()
    ensures { RoundsEnd }
{}

/// From vectors that agree at the template's rows growth and round make the same steps to vectors that agree, and the next pick
/// is the same.
pub fn rows_decide()
    ensures { RowsDecide }
{}

/// Each unknown has an offer at every vector: the transformers that the definition of chains speaks of are there.
pub fn offers_are_there()
    ensures { OffersAreThere }
{}

/// A chain of exact rounds, by choices that follow a policy, is a chain of improvements by it as that is defined: by transformers
/// as least numbers and vectors as least ones, with no growth, turn or linear program. It ends where no choice goes.
pub fn rounds_are_improvements()
    ensures best { RoundsAreImprovements Best }
    ensures first { RoundsAreImprovements First }
    ensures by_offers { (answer : Offer → ℕ) → RoundsAreImprovements (By answer) }
{}

/// No pick comes twice in a chain of improvements, so there are fewer improvements than picks, whatever positions a policy may
/// answer of an offer.
pub fn chains_are_short()
    ensures best { ChainsAreShort Best }
    ensures first { ChainsAreShort First }
    ensures passing { (test : Offer → ℕ → Bool) → ChainsAreShort (Passing test) }
{}

/// The vector at which a chain of improvements ends is the least solution.
pub fn ends_are_least()
    ensures best { EndsAreLeast Best }
    ensures first { EndsAreLeast First }
    ensures passing { (test : Offer → ℕ → Bool) → EndsAreLeast (Passing test) }
{}

/// Exactly one stands: a limit's number of improvements, or fewer, end the chain, or it goes on after as many.
pub fn chains_end_or_go_on()
    ensures best { EndsOrGoesOn Best }
    ensures first { EndsOrGoesOn First }
    ensures by_offers { EveryPolicyEndsOrGoesOn }
{}
