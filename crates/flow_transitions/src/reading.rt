//! Reading a transition system from a text.

ghost use Rattle.std.specs.Prelude.{◌≡◌, ◌≢◌, ◌≤◌, Err, IfErr, IfOk, Ok, length};
ghost use Rattle.base_limits.specs.declared.limits.TheConstants.{MOST_TEXT_BYTES};
ghost use Rattle.lang_tokens.specs.declared.lexicon.Lexicon.TheVariants.{Own};
ghost use Rattle.lang_tokens.specs.Reading.{Reads};
ghost use Rattle.flow_transitions.specs.declared.fault.AutoFault.TheVariants.{NoMemory};
ghost use Rattle.flow_transitions.specs.AutoSymbols.{IsSource};
ghost use Rattle.flow_transitions.specs.AutoContents.{AutoAnswer, label_of, points_of};
ghost use Rattle.flow_transitions.specs.AutoReading.{IsRead, ReadsTo, start};
ghost use Rattle.flow_transitions.specs.AutoTexts.{GivesAuto, IsAuto, content};

use crate::auto::Auto;
use crate::auto_edge::AutoEdges;
use crate::fault::AutoFault;
use flow_edges::{Place, Point, Points};
use lang_tokens::{LexFault, Lexicon, Token, lex};
use lang_tree::Names;
use std::alloc::{AllocError, Global};

mod acts;
mod edges;
mod heads;
mod places;
mod point_name;
mod symbol;
mod tokens;
mod values;

use edges::edges;
use heads::{points, variables};
use point_name::PointName;
pub(crate) use tokens::token;

/// The transition system of a text of at most 65,536 bytes, or the text's first fault.
///
/// `docs/FORMATS.md`, "Transition systems", has the grammar, and `AutoFault` the order of the faults.
pub fn read(alloc: Global, text: &[u8]) -> Result<Auto, AutoFault>
    requires { length text.now ≤ MOST_TEXT_BYTES }

    // What is answered is so.
    ensures system { IfOk result (λ auto. IsAuto text.now (Ok (content auto))) }
    ensures refused { IfErr result (λ fault. fault ≢ NoMemory → IsAuto text.now (Err fault)) }

    // What is so is answered, where there is memory.
    ensures exact { (answer : AutoAnswer) → IsAuto text.now answer → GivesAuto result answer }
{
    answer(alloc, text)
}

/// What the text is read as, token by token.
fn answer(alloc: Global, text: &[u8]) -> Result<Auto, AutoFault>
    requires { length text.now ≤ MOST_TEXT_BYTES }
    ensures system { IfOk result (λ auto. IsRead text.now (Ok (content auto))) }
    ensures refused { IfErr result (λ fault. fault ≢ NoMemory → IsRead text.now (Err fault)) }
{
    let tokens = tokens_of(alloc, text)?;
    system_of(alloc, text, &tokens)
}

/// The tokens of a text.
pub(crate) fn tokens_of(alloc: Global, text: &[u8]) -> Result<Vec<Token>, AutoFault>
    requires { length text.now ≤ MOST_TEXT_BYTES }
    ensures reads { IfOk result (λ tokens. Reads Own text.now tokens.items) }
    ensures source { IfOk result (λ tokens. IsSource text.now tokens.items) }
    ensures refused { IfErr result (λ fault. fault ≢ NoMemory → IsRead text.now (Err fault)) }
{
    match lex(alloc, text, Lexicon::Own) {
        Ok(tokens) => Ok(tokens),
        Err(fault) => match fault {
            LexFault::NoMemory => Err(AutoFault::NoMemory),
            _ => Err(AutoFault::Lex(fault)),
        },
    }
}

/// The transition system that tokens read as.
fn system_of(alloc: Global, text: &[u8], tokens: &[Token]) -> Result<Auto, AutoFault>
    requires { IsSource text.now tokens.now }
    ensures system { IfOk result (λ auto. ReadsTo text.now tokens.now (Ok start) 0 (Ok (content auto))) }
    ensures refused { IfErr result (λ fault. fault ≢ NoMemory → ReadsTo text.now tokens.now (Ok start) 0 (Err fault)) }
{
    let (names, at) = variables(alloc, text, tokens)?;
    let (points, at) = points(alloc, text, tokens, at)?;
    let (edges, _end) = edges(alloc, text, tokens, at, &names, &points)?;
    Ok(Auto {
        names: Names::new(names),
        points: points_of(alloc, &points)?,
        edges: AutoEdges::new(edges),
    })
}

/// The points with these names: the first is the entry, each other one a label.
fn points_of(alloc: Global, names: &[PointName]) -> Result<Points, AllocError>
    ensures { IfOk result (λ points. points ≡ points_of names.now) }
{
    let mut list = Vec::new(alloc);
    let Some((_, later)) = names.split_first() else {
        return Ok(Points::new(list));
    };
    list.push(Point {
        place: Place::Entry,
        line: 0,
    })?;
    for point in later {
        list.push(Point {
            place: Place::Label(point.name.again()),
            line: point.line,
        })?;
    }
    Ok(Points::new(list))
}
