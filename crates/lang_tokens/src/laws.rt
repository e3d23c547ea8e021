//! What the definition of tokens decides.

ghost use Rattle.std.specs.Prelude.{◌≡◌, ◌⊎◌, ℕ, List, IsTrue};
ghost use Rattle.lang_tokens.specs.declared.lexicon.Lexicon.{Lexicon};
ghost use Rattle.lang_tokens.specs.declared.lexicon.Lexicon.TheVariants.{C};
ghost use Rattle.lang_tokens.specs.declared.token.Token.{Token};
ghost use Rattle.lang_tokens.specs.declared.fault.LexFault.{LexFault};
ghost use Rattle.lang_tokens.specs.Reading.{Reads};
ghost use Rattle.lang_tokens.specs.Faults.{HasFault, is_byte_or_comment};
ghost use Rattle.lang_tokens.specs.LineLaw.{LinesAreBytes};

/// A text reads as one list of tokens or has one fault, and not both, whichever tokens are asked for.
pub fn one_reading()
    ensures tokens { (lexicon : Lexicon) (text : List ℕ) (tokens others : List Token) → Reads lexicon text tokens
        → Reads lexicon text others → tokens ≡ others }
    ensures fault { (lexicon : Lexicon) (text : List ℕ) (fault other : LexFault) → HasFault lexicon text fault
        → HasFault lexicon text other → fault ≡ other }
    ensures apart { (lexicon : Lexicon) (text : List ℕ) (tokens : List Token) (fault : LexFault) → Reads lexicon text tokens
        → HasFault lexicon text fault → ⊥ }
    ensures either { (lexicon : Lexicon) (text : List ℕ) → ((tokens : List Token) × Reads lexicon text tokens)
        ⊎ ((fault : LexFault) × HasFault lexicon text fault) }
{}

/// The fault of a C file is a bad byte or an open comment: its numbers and words are tokens whatever
/// they are (docs/FORMATS.md, "Tokens").
pub fn faults_of_c()
    ensures { (text : List ℕ) (fault : LexFault) → HasFault C text fault → IsTrue (is_byte_or_comment fault) }
{}

/// Where a text may go on with a directive is told by the bytes before: nothing but blanks stands
/// between the beginning of the line and there (docs/FORMATS.md, "Tokens").
pub fn lines_are_bytes()
    ensures { LinesAreBytes }
{}
