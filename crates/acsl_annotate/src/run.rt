//! The top call: the answer over files and streams.

ghost use Rattle.std.specs.Prelude.{map, string_bytes};
ghost use Rattle.top_run.specs.Progress.{IsUntold};
ghost use Rattle.top_run.specs.Run.{IsRun};
ghost use Rattle.top_run.specs.Seen.{shelf_with, sink_with};
ghost use Rattle.acsl_annotate.specs.Annotated.{annotating};
ghost use Rattle.acsl_annotate.specs.Messages.{saying};
ghost use Rattle.acsl_annotate.specs.Words.{as_solve};

use crate::program::Annotating;
use crate::words::solve_words;
use base_files::{Shelf, Sink};
use base_watch::Watch;
use std::alloc::Global;
use top_answer::{Exact, Meaning};
use top_run::{Status, run_as, run_without_words};

/// Does all that the program does, and says how it ended. `words` are a program's name and the options of `solve` but the format; the
/// annotated text goes to `out`, and the message of every other ending to `err` (docs/USING.md, "Annotations").
///
/// Where the words ask for progress, `watch` is told of rounds, turns and pivots, as by `top_run::run`.
///
/// What it loads, the causes, and their order, are those of `top_run::run` for `solve` and these words.
pub fn annotate<S: Shelf, K: Sink, L: Sink, W: Watch>(
    alloc: Global,
    words: &[String],
    shelf: &mut S,
    out: &mut K,
    err: &mut L,
    watch: &mut W,
) -> Status
    ensures run { IsRun (annotating ⟦<Exact as Meaning>⟧.means) (saying ⟦<Exact as Meaning>⟧.means) (as_solve (map string_bytes words.now))
        (shelf_with (S.files shelf.old) (S.loads shelf.old) (S.faults shelf.old) (S.last_failed shelf.old))
        (shelf_with (S.files shelf.new) (S.loads shelf.new) (S.faults shelf.new) (S.last_failed shelf.new))
        (sink_with (K.held out.old) (K.taken out.old) (K.faults out.old) (K.spare out.old))
        (sink_with (K.held out.new) (K.taken out.new) (K.faults out.new) (K.spare out.new))
        (sink_with (L.held err.old) (L.taken err.old) (L.faults err.old) (L.spare err.old))
        (sink_with (L.held err.new) (L.taken err.new) (L.faults err.new) (L.spare err.new)) result }
    ensures untold { IsUntold (as_solve (map string_bytes words.now)) watch.old watch.new }
{
    match solve_words(alloc, words) {
        Ok(all) => run_as::<Annotating, S, K, L, W>(alloc, &all, shelf, out, err, watch),
        Err(_) => run_without_words::<Annotating, S, K, L>(alloc, shelf, out, err),
    }
}
