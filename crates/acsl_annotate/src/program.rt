//! The program `tmpl_acsl`, as one that is run.

ghost use Rattle.std.specs.Prelude.{map, string_bytes};

use crate::answer::annotation_as_solve;
use base_watch::Watch;
use std::alloc::Global;
use top_answer::Answer;
use top_run::Program;

/// The program `tmpl_acsl`, asked with words as those of `solve`.
#[derive(Clone, Copy, Debug, Drop)]
pub struct Annotating;

impl Program for Annotating {
    ghost use Rattle.top_texts.specs.Exact.{exact};
    ghost use Rattle.acsl_annotate.specs.Annotated.{annotating};
    ghost use Rattle.acsl_annotate.specs.Inside.{annotating_inside, annotating_plain};
    ghost use Rattle.acsl_annotate.specs.Messages.{saying};
    ghost use Rattle.acsl_annotate.specs.Words.{IsSolve};

    ghost commands = { annotating exact };

    ghost means = { saying exact };

    ghost takes = { λ words. IsSolve words };

    ghost inside = { annotating_inside };

    ghost plain = { annotating_plain };

    fn answer<W: Watch>(
        alloc: Global,
        words: &[String],
        contents: &[&[u8]],
        watch: &mut W,
    ) -> Answer {
        annotation_as_solve(alloc, words, contents, watch)
    }
}
