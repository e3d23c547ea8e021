//! Laws of the definitions, each the contract of a function that does nothing.

ghost use Rattle.std.specs.Prelude.{◌≡◌, ℕ, List};
ghost use Rattle.flow_edges.specs.declared.point.Point.{Point};
ghost use Rattle.lang_grammar.specs.Grammar.{Token};
ghost use Rattle.ask_claims.specs.Claims.{StatedClaims, FileMeans};
ghost use Rattle.ask_claims.specs.Grammar.{ReadsClaims, Written};
ghost use Rattle.ask_claims.specs.Laws.{OpenStatesBreak, ProvedClaimsHold, ProvedVerdictsHold, RefusalsAreOne, VerdictsAreOne};
ghost use Rattle.ask_claims.specs.Laws.{WideClaimsDontFit};

/// Where a post-solution of a program's system, whose rows are over the program's variables, proves a claim, in every run the condition
/// isn't false at any configuration at the point; and it is true there, if it has no free choice.
pub fn proved_claims_hold()
    ensures { ProvedClaimsHold }
{}

/// The same of a list: where a verdict on a claim of a list is that it is proved, at a post-solution of a program's system.
pub fn proved_verdicts_hold()
    ensures { ProvedVerdictsHold }
{}

/// The state of an open claim fits the vector at the claim's point, and passes all guards of a case against the claim.
pub fn open_states_break()
    ensures { OpenStatesBreak }
{}

/// The verdicts on claims are determined by the system, the bounds of the vector and the claims.
pub fn verdicts_are_one()
    ensures { VerdictsAreOne }
{}

/// A wide operation is named only where not all operations fit, and then it is determined by the system, the bounds of the
/// vector and the claims.
pub fn refusals_are_one()
    ensures apart { WideClaimsDontFit }
    ensures one { RefusalsAreOne }
{}

/// Tokens read as at most one list of claims.
pub fn one_list()
    ensures { (tokens : List Token) (cs ds : List Written) → ReadsClaims tokens cs → ReadsClaims tokens ds → cs ≡ ds }
{}

/// A text says one thing over a program's variables and points: its claims, or one fault.
pub fn one_file()
    ensures { (text : List ℕ) (names : List (List ℕ)) (points : List Point) (r s : StatedClaims) →
        FileMeans text names points r → FileMeans text names points s → r ≡ s }
{}
