//! What a program is whose runs load, answer and put.

ghost use Rattle.std.specs.Prelude.{List, ℕ, map, string_bytes};
ghost use Rattle.ask_files.specs.Files.{texts_of};
ghost use Rattle.top_answer.specs.Answers.{IsAnsweredBy, Ends, Holds, IsAnswer, IsMessage, IsOutput};
ghost use Rattle.top_answer.specs.Commands.{Commands};
ghost use Rattle.top_run.specs.Programs.{EndsInside, IsPlain};
ghost use Rattle.top_status.specs.declared.status.Status.{Status as StatusValue};
ghost use Rattle.top_texts.specs.Meanings.{Meanings};

use base_watch::Watch;
use std::alloc::Global;
use top_answer::{Answer, answer};

/// A program: what it answers to words and to the contents of the files that they name. `run_as` loads, asks it, and puts.
pub trait Program {
    /// What it does for each request.
    ghost commands: { Commands };

    /// What its parts mean, and how its messages read.
    ghost means: { Meanings };

    /// The words that it may be asked with.
    ghost takes: { List (List ℕ) → Type 0 };

    /// The answer to words and to contents in the order of `ask_files::files_of`, as `top_answer::answer` promises it, whatever
    /// watch is told.
    fn answer<W: Watch>(
        alloc: Global,
        words: &[String],
        contents: &[&[u8]],
        watch: &mut W,
    ) -> Answer
        requires { takes (map string_bytes words.now) }
        ensures answer { IsAnswer commands (map string_bytes words.now) (texts_of contents.now) result.status }
        ensures output { Holds (IsOutput commands (map string_bytes words.now) (texts_of contents.now)) result.status result.bytes.items }
        ensures complete { (ending : StatusValue) → Ends commands (map string_bytes words.now) (texts_of contents.now) ending
            → IsAnsweredBy commands (map string_bytes words.now) (texts_of contents.now) ending result.status }
        ensures message { IsMessage means (map string_bytes words.now) (texts_of contents.now) result.status result.message };

    /// No command ends in a read or in a put that failed.
    ghost inside: { EndsInside commands };

    /// The messages of want of memory and of an output that failed name no place.
    ghost plain: { IsPlain means };
}

/// The program `tmpl`.
#[derive(Clone, Copy, Debug, Drop)]
pub struct Tmpl;

impl Program for Tmpl {
    ghost use Rattle.std.specs.Prelude.{refl};
    ghost use Rattle.top_answer.specs.Commands.{command_of};
    ghost use Rattle.top_run.specs.Inside.{inside as commands_inside, plain as plainly};
    ghost use Rattle.top_texts.specs.Exact.{exact};

    ghost commands = { command_of exact };

    ghost means = { exact };

    ghost takes = { λ _. Unit {0} };

    ghost inside = { commands_inside };

    ghost plain = { plainly };

    fn answer<W: Watch>(
        alloc: Global,
        words: &[String],
        contents: &[&[u8]],
        watch: &mut W,
    ) -> Answer {
        answer(alloc, words, contents, watch)
    }
}
