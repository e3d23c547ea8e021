//! `tmpl_acsl`: real files and streams around the top call.
#![tactic(auto)]

ghost use Rattle.std.specs.Prelude.{◌≡◌, map, string_bytes};
ghost use Rattle.std.specs.Process.{exit_status};
ghost use Rattle.acsl_annotate.specs.Annotated.{annotating};
ghost use Rattle.acsl_annotate.specs.Messages.{saying};
ghost use Rattle.acsl_annotate.specs.Words.{as_solve};
ghost use Rattle.top_run.specs.Progress.{IsUntold};
ghost use Rattle.top_run.specs.Run.{IsRun};
ghost use Rattle.top_run.specs.Seen.{shelf_with, sink_with};
ghost use Rattle.top_status.specs.Status.{code_of};
ghost use Rattle.top_status.specs.declared.status.Status.{Status};

use acsl_annotate::annotate;
use base_files::{FileShelf, Shelf, Sink, StreamSink};
use base_watch::Watch;
use std::alloc::Global;
use std::io::IsTerminal;
use std::process::ExitCode;
use std::rt::Env;
use std::{env, io};
use top_run::{Exact, Meaning, Teller};

/// The code of a system that doesn't give the program its words, for another cause than memory.
const NO_WORDS: u8 = 9;

/// The code for want of memory.
const NO_MEMORY: u8 = 7;

/// The words after the program's own name.
fn words(rt: &(impl Env + Alloc<A = Global>)) -> io::Result<Vec<String>> {
    Ok(env::args(rt)?.skip(1).collect(rt.alloc())?)
}

/// Does all that the program does, and gives the exit code of how that ended: all that `annotate` promises of its status holds of the one
/// with this code.
fn exit_of<S: Shelf, K: Sink, L: Sink, W: Watch>(
    alloc: Global,
    words: &[String],
    shelf: &mut S,
    out: &mut K,
    err: &mut L,
    watch: &mut W,
) -> ExitCode
    ensures run { (status : Status) × IsRun (annotating ⟦<Exact as Meaning>⟧.means) (saying ⟦<Exact as Meaning>⟧.means)
        (as_solve (map string_bytes words.now))
        (shelf_with (S.files shelf.old) (S.loads shelf.old) (S.faults shelf.old) (S.last_failed shelf.old))
        (shelf_with (S.files shelf.new) (S.loads shelf.new) (S.faults shelf.new) (S.last_failed shelf.new))
        (sink_with (K.held out.old) (K.taken out.old) (K.faults out.old) (K.spare out.old))
        (sink_with (K.held out.new) (K.taken out.new) (K.faults out.new) (K.spare out.new))
        (sink_with (L.held err.old) (L.taken err.old) (L.faults err.old) (L.spare err.old))
        (sink_with (L.held err.new) (L.taken err.new) (L.faults err.new) (L.spare err.new)) status
        × (exit_status result ≡ code_of status) }
    ensures untold { IsUntold (as_solve (map string_bytes words.now)) watch.old watch.new }
{
    let status = annotate(alloc, words, shelf, out, err, watch);
    ExitCode::from(status.code())
}

fn main(rt: HostRuntime) -> ExitCode {
    let words = match words(&rt) {
        Ok(words) => words,
        Err(error) => {
            return ExitCode::from(match error.kind() {
                io::ErrorKind::OutOfMemory => NO_MEMORY,
                _ => NO_WORDS,
            });
        }
    };
    let mut shelf = FileShelf::new(rt.alloc(), &rt);
    let mut out = StreamSink::new(rt.stdout());
    let mut err = StreamSink::new(rt.stderr());
    // Progress goes where messages go, and a terminal shows one line of it.
    let mut teller = Teller::new(StreamSink::new(rt.stderr()), rt.stderr().is_terminal());
    exit_of(
        rt.alloc(),
        &words,
        &mut shelf,
        &mut out,
        &mut err,
        &mut teller,
    )
}
