//! The systems of texts.

ghost use Rattle.std.specs.Prelude.{◌≤◌, ◌<◌, IfOk, IsTrue, length};
ghost use Rattle.flow_systems.specs.SystemLimits.{is_over};

use crate::cases::Fail;
use flow_edges::{Flow, flow};
use flow_systems::System;
use flow_templates::{RowFault, Template, intervals, zones};
use lang_parser::parse;
use lang_tokens::{Lexicon, lex};
use std::alloc::Global;

/// The rows that a system is made over.
#[derive(Clone, Copy, PartialEq, Eq, Drop)]
pub(crate) enum Domain {
    Intervals,
    Zones,
}

/// A counter: points entry, loop and exit; edge 0 to the loop, edge 1 through its body, edge 2 to the exit.
pub(crate) const COUNTER: &[u8] = b"int main() { int x = 0; while (x < 100) { x = x + 1; } }";

/// A loop with no bound above; edges as those of the counter.
pub(crate) const ENDLESS: &[u8] = b"int main() { int x = 0; while (nondet()) { x = x + 1; } }";

/// Two counters that run together; edges as those of the counter.
pub(crate) const TOGETHER: &[u8] =
    b"int main() { int x = 0, y = 0; while (x < 10) { x = x + 1; y = y + 1; } }";

/// Three counters through three loops, of which the two inner ones do nothing: points entry, loop, first and second inner loop, and
/// exit; edge 0 to the loop, edge 1 through its body to the first inner loop, edges 2, 3 and 4 to the exit by the cases of the
/// condition, edge 5 around the first inner loop, edge 6 to the second, edge 7 around it, and edge 8 back.
pub(crate) const INNER_LOOPS: &[u8] = b"int main() { int x = 0, y = 0, z = 0; \
      while (x < 10 && y < 20 && z < 30) { x = x + 1; y = y + 1; z = z + 1; while (nondet()) { } while (nondet()) { } } }";

/// As `INNER_LOOPS`, with no bound above; points as there: edge 0 to the loop, edge 1 through its body, edge 2 to the exit, edge 3
/// around the first inner loop, edge 4 to the second, edge 5 around it, and edge 6 back.
pub(crate) const GROWING: &[u8] = b"int main() { int x = 0, y = 0, z = 0; \
      while (nondet()) { x = x + 1; y = y + 1; z = z + 1; while (nondet()) { } while (nondet()) { } } }";

/// The same where one variable is 2^43 times another, and so too wide for a fraction where that one is 2^20.
pub(crate) const FAST: &[u8] = b"int main() { int x = 0, y = 0, z = 0; \
      while (nondet()) { x = x + 1; y = 8796093022208*x; z = z + 1; while (nondet()) { } while (nondet()) { } } }";

/// A loop that does nothing, with any value; edges as those of the counter.
pub(crate) const IDLE: &[u8] = b"int main() { int x; while (nondet()) { } }";

/// Three cases of one assumption: edges 0, 1 and 2 to the point behind it, and edge 3 to the exit.
pub(crate) const CASES: &[u8] =
    b"int main() { int x = nondet(); assume(x <= 1 || x <= 2 || x <= 3); }";

// The points and edges of a text.
fn flow_of(alloc: Global, text: &[u8]) -> Result<Flow, Fail> {
    if text.len() > 65536 {
        return Err("a short text".into());
    }
    let tokens = match lex(alloc, text, Lexicon::Own) {
        Ok(tokens) => tokens,
        Err(_) => return Err("tokens".into()),
    };
    let program = match parse(alloc, &tokens, text) {
        Ok(program) => program,
        Err(_) => return Err("a program".into()),
    };
    match flow(alloc, &program) {
        Ok(flow) => Ok(flow),
        Err(_) => Err("points and edges".into()),
    }
}

// The rows of each variable, or also those of pairs.
fn template_of(alloc: Global, count: u32, in_pairs: bool) -> Result<Template, RowFault>
    requires some { 1 ≤ count }
    requires few { count ≤ 3 }
    ensures { IfOk result (λ template. IsTrue (is_over count template)) }
{
    if in_pairs {
        zones(alloc, count)
    } else {
        Ok(intervals(alloc, count)?)
    }
}

// Whether a domain has rows of pairs.
fn has_pairs(domain: Domain) -> bool {
    match domain {
        Domain::Intervals => false,
        Domain::Zones => true,
    }
}

/// The system of a text with one to three variables.
pub(crate) fn system_of(alloc: Global, text: &[u8], domain: Domain) -> Result<System, Fail>
    ensures { IfOk result (λ system. 0 < length system.flow.points) }
{
    let flow = flow_of(alloc, text)?;
    let count = flow.names.as_slice().len() as u32;
    if count != 1 && count != 2 && count != 3 {
        return Err("one to three variables".into());
    }
    let template = template_of(alloc, count, has_pairs(domain)).map_err(|_| "a template")?;
    match System::new(flow, template) {
        Ok(system) => Ok(system),
        Err(_) => Err("too many unknowns".into()),
    }
}
