//! What the program promises of an analysis, in one contract that names no method.

ghost use Rattle.std.specs.Prelude.{◌≡◌, ℕ, List, Some, map, string_bytes};
ghost use Rattle.ask_words.specs.Request.{request_of};
ghost use Rattle.ask_words.specs.declared.format.Format.{Format};
ghost use Rattle.ask_words.specs.declared.request.Analysis.{Analysis};
ghost use Rattle.ask_words.specs.declared.request.Purpose.TheVariants.{Report};
ghost use Rattle.ask_words.specs.declared.request.Request.TheVariants.{Analyse};
ghost use Rattle.top_run.specs.Headline.{IsHeadline};
ghost use Rattle.top_run.specs.Seen.{shelf_with, sink_with};

use crate::program::run;
use base_files::{Shelf, Sink};
use base_watch::Watch;
use std::alloc::Global;
use top_answer::{Exact, Meaning};
use top_status::Status;

/// The headline: `run` where the words ask for the report of a program, which is a function of a C file. It does nothing else than `run`,
/// whose contract says this and more; here stand the definitions alone, of functions, their runs, and least vectors.
///
/// The files are loaded in this call. Where all are read, these are the texts: where it is done, the output gets the report, in the format
/// of the words, of the least vector over the template, which every run by C of the function keeps to, with the number of improvements by
/// the policy. Where the improvements end within the limit, it is done, but for want of memory, a fraction that is too wide, a joint
/// problem that is too large, or an output that failed in this call. Where they aren't all read, a file failed in this call or is too
/// long, or memory was wanted.
pub fn headline<S: Shelf, K: Sink, L: Sink, W: Watch>(
    alloc: Global,
    words: &[String],
    shelf: &mut S,
    out: &mut K,
    err: &mut L,
    watch: &mut W,
) -> Status
    ensures { (analysis : Analysis (List ℕ)) (format : Format)
        → request_of (map string_bytes words.now) ≡ Some (Analyse Report analysis format)
        → IsHeadline ⟦<Exact as Meaning>⟧.means analysis format
        (shelf_with (S.files shelf.old) (S.loads shelf.old) (S.faults shelf.old) (S.last_failed shelf.old))
        (shelf_with (S.files shelf.new) (S.loads shelf.new) (S.faults shelf.new) (S.last_failed shelf.new))
        (sink_with (K.held out.old) (K.taken out.old) (K.faults out.old) (K.spare out.old))
        (sink_with (K.held out.new) (K.taken out.new) (K.faults out.new) (K.spare out.new)) result }
{
    run(alloc, words, shelf, out, err, watch)
}
