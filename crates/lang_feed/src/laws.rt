//! What is true of the second pass.

ghost use Rattle.std.specs.Prelude.{◌≡◌, ℕ, List};
ghost use Rattle.lang_grammar.specs.Grammar.{Token, Program, Reads, Expr, Groups, spell_expr};
ghost use Rattle.lang_grammar.specs.View.{tokens_of};
ghost use Rattle.lang_tokens.specs.TokenLists.{AreTokensOf};
ghost use Rattle.lang_tokens.specs.declared.token.Token as lex_token;
ghost use Rattle.lang_meaning.specs.Walk.{walk, width_of};
ghost use Rattle.lang_meaning.specs.Meaning.{Answer, Means};
ghost use Rattle.lang_meaning.specs.Feed.{reading};
ghost use Rattle.lang_meaning.specs.Expressions.{meant};
ghost use Rattle.lang_feed.specs.Readings.{reading_of, with_next};

/// Taking the tokens of a program one by one gives what its walk gives, faults included.
pub fn programs_are_walked()
    ensures { (line : ℕ → ℕ) (tokens : List Token) (p : Program) → Reads tokens p → reading line (width_of p) tokens ≡ walk line p }
{}

/// Taking the tokens of an expression gives what it means over names.
pub fn expressions_are_walked()
    ensures { (text : List ℕ) (names : List (List ℕ)) (at : ℕ) (e : Expr) (next : ℕ) → Groups 0 e →
        reading_of text names at (spell_expr e) next ≡ with_next next (meant text names at e) }
{}

/// The tokens of every text mean something.
pub fn every_text_means()
    ensures { (text : List ℕ) (tokens : List lex_token.Token) → AreTokensOf text tokens → (wanted : Answer) × Means text
        (tokens_of text tokens) wanted }
{}
