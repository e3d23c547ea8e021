//! Reading equations from a text.

ghost use Rattle.std.specs.Prelude.{◌≡◌, ◌≢◌, ◌≤◌, ◌+◌, List, Result, length, IfOk, IfErr, Ok, Err};
ghost use Rattle.base_limits.specs.declared.limits.TheConstants.{MOST_TEXT_BYTES};
ghost use Rattle.lang_tokens.specs.declared.lexicon.Lexicon.TheVariants.{Own};
ghost use Rattle.lang_tokens.specs.Reading.{Reads};
ghost use Rattle.flow_rationals.specs.declared.fault.EquFault.{EquFault};
ghost use Rattle.flow_rationals.specs.declared.fault.EquFault.TheVariants.{NoMemory};
ghost use Rattle.flow_rationals.specs.declared.equation.Equation.{Equation};
ghost use Rattle.flow_rationals.specs.declared.reading.written.Written.{Written};
ghost use Rattle.flow_rationals.specs.Symbols.{AllWithin};
ghost use Rattle.flow_rationals.specs.EquFaults.{choice_count};
ghost use Rattle.flow_rationals.specs.EquationTexts.{ReadsWritten, Answers, Gives};

use crate::equations::Equations;
use crate::fault::EquFault;
use lang_tokens::{LexFault, Lexicon, Token, lex};
use std::alloc::Global;

mod checks;
mod heads;
mod literal;
mod make;
mod parts;
mod place;
mod scaled;
mod symbol;
mod symbols;
mod tree;
mod written;

use checks::first_fault;
use make::equations_of;
use place::refused;
use symbols::symbols_of;
use tree::equations;
use written::Written;

// The tokens of a text.
fn tokens_of(alloc: Global, text: &[u8]) -> Result<Vec<Token>, EquFault>
    requires { length text.now ≤ MOST_TEXT_BYTES }
    ensures reads { IfOk result (λ tokens. Reads Own text.now tokens.items) }
    ensures within { IfOk result (λ tokens. AllWithin text.now tokens.items) }
    ensures few { IfOk result (λ tokens. length tokens.items ≤ MOST_TEXT_BYTES + 1) }
    ensures refused { IfErr result (λ fault. fault ≢ NoMemory → Answers text.now (Err fault)) }
    ensures alone { IfErr result (λ fault. fault ≢ NoMemory → (right : Result (List Equation) EquFault) → Answers text.now right
        → right ≡ Err fault) }
{
    match lex(alloc, text, Lexicon::Own) {
        Ok(tokens) => Ok(tokens),
        Err(fault) => match fault {
            LexFault::NoMemory => Err(EquFault::NoMemory),
            _ => Err(EquFault::Lex(fault)),
        },
    }
}

// The equations that are written, whatever they are.
fn spelled(alloc: Global, text: &[u8]) -> Result<Vec<Written>, EquFault>
    requires { length text.now ≤ MOST_TEXT_BYTES }
    ensures reads { IfOk result (λ es. ReadsWritten text.now es.items) }
    ensures only { IfOk result (λ es. (other : List Written) → ReadsWritten text.now other → es.items ≡ other) }
    ensures few { IfOk result (λ es. length es.items + choice_count es.items ≤ MOST_TEXT_BYTES + 1) }
    ensures refused { IfErr result (λ fault. fault ≢ NoMemory → Answers text.now (Err fault)) }
    ensures alone { IfErr result (λ fault. fault ≢ NoMemory → (right : Result (List Equation) EquFault) → Answers text.now right
        → right ≡ Err fault) }
{
    let tokens = tokens_of(alloc, text)?;
    let symbols = symbols_of(alloc, text, &tokens)?;
    if let Some(place) = refused(&symbols) {
        return Err(EquFault::Unexpected {
            at: tokens[place].at,
        });
    }
    match equations(alloc, &symbols)? {
        Some(list) => Ok(list),
        None => unreachable!(),
    }
}

// What the text is.
fn answer(alloc: Global, text: &[u8]) -> Result<Equations, EquFault>
    requires { length text.now ≤ MOST_TEXT_BYTES }
    ensures equations { IfOk result (λ equations. Answers text.now (Ok equations)) }
    ensures equations_alone { IfOk result (λ equations. (right : Result (List Equation) EquFault) → Answers text.now right
        → right ≡ Ok equations) }
    ensures refused { IfErr result (λ fault. fault ≢ NoMemory → Answers text.now (Err fault)) }
    ensures alone { IfErr result (λ fault. fault ≢ NoMemory → (right : Result (List Equation) EquFault) → Answers text.now right
        → right ≡ Err fault) }
{
    let list = spelled(alloc, text)?;
    match first_fault(&list) {
        Some(fault) => Err(fault),
        None => {
            let made = equations_of(alloc, &list)?;
            Ok(made)
        }
    }
}

/// The equations of a text of at most 65,536 bytes, each sum over its common denominator, or the text's first fault.
///
/// `1:2` is one half. `docs/FORMATS.md` has the grammar, and `EquFault` (`fault.rt`) the faults in
/// their order.
pub fn read(alloc: Global, text: &[u8]) -> Result<Equations, EquFault>
    requires { length text.now ≤ MOST_TEXT_BYTES }

    // What is answered is so.
    ensures equations { IfOk result (λ equations. Answers text.now (Ok equations)) }
    ensures refused { IfErr result (λ fault. fault ≢ NoMemory → Answers text.now (Err fault)) }

    // What is so is answered, where there is memory.
    ensures exact { (right : Result (List Equation) EquFault) → Answers text.now right → Gives result right }
{
    answer(alloc, text)
}
