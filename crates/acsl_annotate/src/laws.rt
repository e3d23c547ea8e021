//! A law of annotated texts. The function does nothing: its contract is the law.

ghost use Rattle.std.specs.Prelude.{◌≡◌, ℕ, List};
ghost use Rattle.ask_words.specs.declared.request.Domain.{Domain};
ghost use Rattle.top_texts.specs.Texts.{Program};
ghost use Rattle.acsl_annotate.specs.Annotated.{IsAnnotatedOf};

/// The texts of a file and of rows have one annotated text, whichever function is asked about.
pub fn annotated_is_one()
    ensures { (program : Program) (rows : Domain (List ℕ)) (one other : List ℕ) → IsAnnotatedOf program rows one
        → IsAnnotatedOf program rows other → one ≡ other }
{}
