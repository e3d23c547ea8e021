//! The points of a program.

ghost use Rattle.std.specs.Prelude.{◌≤◌, IfOk, IfErr, length};
ghost use Rattle.ask_words.specs.Request.{source_text};
ghost use Rattle.base_limits.specs.declared.limits.TheConstants.{MOST_PROGRAM_BYTES};
ghost use Rattle.top_texts.specs.Outcomes.{IsUnread};
ghost use Rattle.top_texts.specs.LeastReports.{ArePointsOf};

use crate::program::{flow_of, program_of};
use crate::refusal::Refusal;
use ask_words::Source;
use out_report::point_heads;
use std::alloc::Global;

/// The heads of a program's points, each as its report has it (docs/FORMATS.md, "The points of a program").
///
/// # Errors
///
/// The first cause that stands: a fault of the text, or points and edges beyond the limits; or want of memory.
pub fn points_text(alloc: Global, program: Source<&[u8]>) -> Result<Vec<u8>, Refusal>
    requires { length program.text.now ≤ MOST_PROGRAM_BYTES }
    ensures ok { IfOk result (λ bytes. ArePointsOf (source_text program.entry) bytes.items) }
    ensures err { IfErr result (λ refusal. IsUnread (source_text program.entry) refusal) }
{
    let core = program_of(alloc, program)?;
    let flow = flow_of(alloc, &core)?;
    Ok(point_heads(alloc, &flow)?)
}
