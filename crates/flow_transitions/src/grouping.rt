//! The groups of a transition system: which of its variables stand together.

ghost use Rattle.std.specs.Prelude.{◌≡◌, ◌≢◌, ◌≤◌, [], Err, IfErr, IfOk, Ok, OnOk, length};
ghost use Rattle.base_limits.specs.declared.limits.TheConstants.{MOST_TEXT_BYTES};
ghost use Rattle.lang_tokens.specs.declared.lexicon.Lexicon.TheVariants.{Own};
ghost use Rattle.lang_tokens.specs.Reading.{Reads};
ghost use Rattle.flow_transitions.specs.declared.fault.AutoFault.TheVariants.{NoMemory};
ghost use Rattle.flow_transitions.specs.declared.limits.TheConstants.{MOST_VARIABLES};
ghost use Rattle.flow_transitions.specs.AutoGrammar.{tokens_here};
ghost use Rattle.flow_transitions.specs.AutoSymbols.{IsSource};
ghost use Rattle.flow_transitions.specs.AutoTexts.{IsAuto, content};
ghost use Rattle.flow_transitions.specs.AutoGroups.{HasGroups};
ghost use Rattle.flow_transitions.specs.AutoWalk.{at_start, turned, walked};

use crate::auto::Auto;
use crate::fault::AutoFault;
use crate::reading::{token, tokens_of};
use lang_groups::{Collector, Groups, Mark};
use lang_tokens::Token;
use lang_tree::Name;
use std::alloc::{AllocError, Global};

mod turn;

use turn::{Turn, turn_in};

/// What has been met of a text: its groups so far, and what has begun.
#[derive(Drop)]
pub(crate) struct Walk {
    pub collector: Collector,
    /// An assignment has begun.
    pub assigned: bool,
}

/// The groups of a transition system (docs/MEANING.md, "Transition systems"), which has been read from this text: for each comparison of an
/// assumption the variables that occur in it, and for each assignment its variable with those of its right side.
pub fn groups(alloc: Global, text: &[u8], auto: &Auto) -> Result<Groups, AutoFault>
    requires { length text.now ≤ MOST_TEXT_BYTES }
    // What is answered is so, where the text is this transition system.
    ensures groups { IfOk result (λ groups. IsAuto text.now (Ok (content auto.now)) → HasGroups text.now groups) }
    ensures refused { IfErr result (λ fault. fault ≢ NoMemory → IsAuto text.now (Err fault)) }
{
    let tokens = tokens_in(alloc, text)?;
    let groups = walk_through(alloc, text, &tokens, auto.names.as_slice())?;
    Ok(groups)
}

/// The tokens of the text.
fn tokens_in(alloc: Global, text: &[u8]) -> Result<Vec<Token>, AutoFault>
    requires { length text.now ≤ MOST_TEXT_BYTES }
    ensures reads { IfOk result (λ tokens. Reads Own text.now tokens.items) }
    ensures source { IfOk result (λ tokens. IsSource text.now tokens.items) }
    ensures refused { IfErr result (λ fault. fault ≢ NoMemory → IsAuto text.now (Err fault)) }
{
    tokens_of(alloc, text)
}

/// The groups that are met on the way through the tokens.
fn walk_through(
    alloc: Global,
    text: &[u8],
    tokens: &[Token],
    names: &[Name],
) -> Result<Groups, AllocError>
    requires source { IsSource text.now tokens.now }
    requires names { length names.now ≤ MOST_VARIABLES }
    ensures { IfOk result (λ groups. groups ≡ (walked names.now (tokens_here text.now tokens.now) (at_start [])).collector.groups) }
{
    let mut walk = Walk {
        collector: Collector::new(alloc),
        assigned: false,
    };
    for at in 0..tokens.len() as u32 {
        walk.turn(turn_in(text, token(tokens, at), names))?;
    }
    Ok(walk.collector.into_groups())
}

impl Walk {
    // Goes on behind a token.
    fn turn(&mut self, turn: Turn) -> Result<(), AllocError>
        ensures { OnOk result (self.new ≡ turned turn self.old) }
    {
        match turn {
            Turn::Takes(mark) => self.collector.take(mark),
            Turn::Assigns => {
                self.assigned = true;
                self.collector.take(Mark::Parts)
            }
            Turn::Ends => self.end(),
            Turn::Passes => Ok(()),
        }
    }

    // Ends an act.
    fn end(&mut self) -> Result<(), AllocError>
        ensures { OnOk result (self.new ≡ turned Turn.Ends self.old) }
    {
        if self.assigned {
            self.collector.end_together()?;
        } else {
            self.collector.end()?;
        }
        self.assigned = false;
        Ok(())
    }
}
