//! Laws of the definitions, each the contract of a function that does nothing.

ghost use Rattle.theory_chains.specs.Laws.{
  AnswersOne,
  DeterminedByOffers,
  IsDetermined,
  OffersAreOne,
  TransformersAreOne,
};
ghost use Rattle.theory_chains.specs.Offers.{Best, First};

/// An edge has one transformer of a row at a vector, and an unknown one offer.
pub fn offers_are_one()
    ensures transformer { TransformersAreOne }
    ensures offer { OffersAreOne }
{}

/// By a policy that answers by the offer alone there is one chain of improvements from the first vector on. It ends after one number
/// of them, and that number is above every number of improvements after which it goes on.
pub fn chains_are_one()
    ensures by_offers { DeterminedByOffers }
    ensures best { IsDetermined Best }
    ensures first { IsDetermined First }
{}

/// The first position of the greatest transformer is one, and the first whose transformer exceeds the bound.
pub fn policies_answer_one()
    ensures best { AnswersOne Best }
    ensures first { AnswersOne First }
{}
