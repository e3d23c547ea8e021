//! Laws of chains of rounds, each the contract of a function that does nothing.

ghost use Rattle.std.specs.Prelude.{◌≡◌, ℕ};
ghost use Rattle.theory_chains.specs.Offers.{Best, First};
ghost use Rattle.solve_rounds.specs.declared.solution.Solved.{Solved};
ghost use Rattle.solve_rounds.specs.Solutions.{IsSolved};
ghost use Rattle.solve_rounds.specs.LeastLaws.{AnswersOne, HasOneNumber, SpendsLess};
ghost use Rattle.solve_rounds.specs.ImprovementLaws.{SolutionsAreEnds, SpentGoesOn};
ghost use Rattle.solve_offers.specs.Policies.{by_best, by_first};

use flow_systems::System;
use solve_offers::{Chooser, Policy};

/// Two solutions of a system have the same bounds, whichever functions the choosers keep and whatever the limits.
pub fn one_vector(system: &System, chooser: &Chooser, other: &Chooser)
    ensures { (limit more : ℕ) (solved again : Solved) →
        IsSolved system.now (λ offer k. (shown : _) × Policy.post chooser.now.policy shown k × (shown.now ≡ offer)) limit solved →
        IsSolved system.now (λ offer k. (shown : _) × Policy.post other.now.policy shown k × (shown.now ≡ offer)) more again →
        solved.bounds ≡ again.bounds }
{}

/// Where the chooser's function answers one position of an offer, all solutions of a system have the same number of rounds, and
/// a limit that was spent is below it.
pub fn one_number(chooser: &Chooser)
    ensures solved { AnswersOne (λ offer k. (shown : _) × Policy.post chooser.now.policy shown k × (shown.now ≡ offer)) →
        HasOneNumber (λ offer k. (shown : _) × Policy.post chooser.now.policy shown k × (shown.now ≡ offer)) }
    ensures spent { AnswersOne (λ offer k. (shown : _) × Policy.post chooser.now.policy shown k × (shown.now ≡ offer)) →
        SpendsLess (λ offer k. (shown : _) × Policy.post chooser.now.policy shown k × (shown.now ≡ offer)) }
{}

/// The two policies answer one position of an offer, so that by each of them a system has one number of rounds.
pub fn policies_have_one_number()
    ensures best { AnswersOne by_best }
    ensures first { AnswersOne by_first }
    ensures solved_by_best { HasOneNumber by_best }
    ensures solved_by_first { HasOneNumber by_first }
    ensures spent_by_best { SpendsLess by_best }
    ensures spent_by_first { SpendsLess by_first }
{}

/// The bounds that the rounds end with are the vector at which the chain of improvements ends, after as many improvements.
pub fn solutions_are_ends()
    ensures best { SolutionsAreEnds by_best Best }
    ensures first { SolutionsAreEnds by_first First }
{}

/// Where the rounds are spent, the chain of improvements goes on after as many as the limit.
pub fn spent_goes_on()
    ensures best { SpentGoesOn by_best Best }
    ensures first { SpentGoesOn by_first First }
{}
