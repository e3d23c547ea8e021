//! The systems of texts, over intervals or zones.

ghost use Rattle.std.specs.Prelude.{◌≤◌, ◌<◌, IfOk, IsTrue, length};
ghost use Rattle.flow_systems.specs.SystemLimits.{is_over};

use crate::cases::Fail;
use flow_edges::{Flow, flow};
use flow_systems::System;
use flow_templates::{RowFault, Template, intervals, zones};
use lang_parser::parse;
use lang_tokens::{Lexicon, lex};
use std::alloc::Global;

// The points and edges of a text.
fn flow_of(alloc: Global, text: &[u8]) -> Result<Flow, Fail> {
    if text.len() > 65536 {
        return Err("a short text".into());
    }
    let tokens = lex(alloc, text, Lexicon::Own).map_err(|_| "tokens")?;
    let program = parse(alloc, &tokens, text).map_err(|_| "a program")?;
    flow(alloc, &program).map_err(|_| "points and edges".into())
}

// The rows of each variable, or also those of both together.
fn template_of(alloc: Global, count: u32, in_pairs: bool) -> Result<Template, RowFault>
    requires some { 1 ≤ count }
    requires few { count ≤ 2 }
    ensures { IfOk result (λ template. IsTrue (is_over count template)) }
{
    if in_pairs {
        zones(alloc, count)
    } else {
        Ok(intervals(alloc, count)?)
    }
}

/// The system of a text with one variable or two, over zones or over intervals.
pub(crate) fn system_of(alloc: Global, text: &[u8], in_pairs: bool) -> Result<System, Fail>
    ensures { IfOk result (λ system. 0 < length system.flow.points) }
{
    let flow = flow_of(alloc, text)?;
    let count = flow.names.as_slice().len() as u32;
    if count != 1 && count != 2 {
        return Err("one variable or two".into());
    }
    let template = template_of(alloc, count, in_pairs).map_err(|_| "a template")?;
    match System::new(flow, template) {
        Ok(system) => Ok(system),
        Err(_) => Err("too many unknowns".into()),
    }
}
