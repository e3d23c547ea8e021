//! Laws of the definitions, each the contract of a function that does nothing.

ghost use Rattle.std.specs.Prelude.{◌≡◌, ℕ, ℤ, List, Result};
ghost use Rattle.flow_templates.specs.declared.fault.RowFault.{RowFault};
ghost use Rattle.flow_templates.specs.Grammar.{Amount, ReadsTerms};
ghost use Rattle.flow_templates.specs.RowFiles.{Answers};

/// A line reads as one list of terms at most, and a file over given variables is one template or has one fault.
pub fn one_reading()
    ensures terms { (line : List ℕ) (amounts others : List Amount) → ReadsTerms line amounts → ReadsTerms line others → amounts ≡ others }
    ensures answers { (names : List (List ℕ)) (text : List ℕ) (answer other : Result (List (List ℤ)) RowFault) →
        Answers names text answer → Answers names text other → answer ≡ other }
{}
