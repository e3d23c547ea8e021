//! What is true of the meaning of texts.

ghost use Rattle.std.specs.Prelude.{◌≡◌, ℕ, List, Ok, IsTrue, length};
ghost use Rattle.lang_grammar.specs.Grammar.{Token};
ghost use Rattle.lang_meaning.specs.Meaning.{Answer, Means};
ghost use Rattle.lang_meaning.specs.Expressions.{Meaning};
ghost use Rattle.lang_meaning.specs.ExpressionAnswers.{ExpressionAnswer, ExpressionMeans, MeaningFits};
ghost use Rattle.lang_tree.specs.Limits.{is_program};
ghost use Rattle.lang_tree.specs.Tree.{Statements};

/// The tokens of a text mean one thing: one program, or one fault.
pub fn one_meaning()
    ensures { (text : List ℕ) (tokens : List Token) (r s : Answer) → Means text tokens r → Means text tokens s → r ≡ s }
{}

/// The tokens from one on mean one thing as an expression over names: one number, condition or
/// `nondet()`, or one fault.
pub fn one_expression()
    ensures { (text : List ℕ) (tokens : List Token) (from : ℕ) (names : List (List ℕ)) (r s : ExpressionAnswer) →
        ExpressionMeans text tokens from names r → ExpressionMeans text tokens from names s → r ≡ s }
{}

/// A program that tokens mean is within the limits: of variables, statements, leaves of a condition and numbers.
pub fn programs_within_limits()
    ensures { (text : List ℕ) (tokens : List Token) (names : List (List ℕ)) (body : Statements) →
        Means text tokens (Ok (names, body)) → IsTrue (is_program (length names) body) }
{}

/// So is what they mean as an expression over names.
pub fn expressions_within_limits()
    ensures { (text : List ℕ) (tokens : List Token) (from : ℕ) (names : List (List ℕ)) (m : Meaning) (next : ℕ) →
        ExpressionMeans text tokens from names (Ok (m, next)) → MeaningFits (length names) m }
{}
