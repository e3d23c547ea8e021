//! Whether tokens are a function, by a stack of what has still to come; what each goal takes is in `enter.rt`.

ghost use Rattle.std.specs.Prelude.{◌≡◌, ◌↔◌, OnOk, IfOk, List, map};
ghost use Rattle.source_grammar.specs.Tokens.{Token};
ghost use Rattle.source_grammar.specs.Machine.{start};
ghost use Rattle.source_grammar.specs.Faults.{Scan, Finds};
ghost use Rattle.source_grammar.specs.Verdicts.{scan, verdict};
ghost use Rattle.source_grammar.specs.Symbols.{symbol_kind};
ghost use Rattle.source_grammar.specs.View.{token_of, Are};
ghost use Rattle.source_grammar.specs.Goals.{entry_of, stack_of, added, Advances, scan_of};

use crate::enter::enter;
use crate::goal::{Entry, Goal, Mark, Site};
use crate::symbol::{Piece, Symbol};
use std::alloc::{AllocError, Global};

// Puts what has to come next onto the stack.
fn add(stack: &mut Vec<Goal>, entry: Entry) -> Result<(), AllocError>
    ensures { OnOk result (stack_of stack.new.items ≡ added (entry_of entry) (stack_of stack.old.items)) }
{
    match entry {
        Entry::One(first) => stack.push(first)?,
        Entry::Two(first, second) => {
            stack.push(second)?;
            stack.push(first)?;
        }
        Entry::Three(first, second, third) => {
            stack.push(third)?;
            stack.push(second)?;
            stack.push(first)?;
        }
        Entry::Four(first, second, third, fourth) => {
            stack.push(fourth)?;
            stack.push(third)?;
            stack.push(second)?;
            stack.push(first)?;
        }
        Entry::Five(first, second, third, fourth, fifth) => {
            stack.push(fifth)?;
            stack.push(fourth)?;
            stack.push(third)?;
            stack.push(second)?;
            stack.push(first)?;
        }
        Entry::Six(first, second, third, fourth, fifth, sixth) => {
            stack.push(sixth)?;
            stack.push(fifth)?;
            stack.push(fourth)?;
            stack.push(third)?;
            stack.push(second)?;
            stack.push(first)?;
        }
        Entry::Nothing | Entry::Skips | Entry::Stops | Entry::Deep => {}
    }
    Ok(())
}

/// What became of a token.
#[derive(Clone, Copy)]
pub(crate) enum Outcome {
    Went,
    Refused,
    TooDeep,
}

/// Takes a token.
pub(crate) fn advance(stack: &mut Vec<Goal>, symbol: Symbol) -> Result<Outcome, AllocError>
    ensures { IfOk result (λ o. Advances o (verdict (stack_of stack.old.items) (symbol_kind symbol)) (stack_of stack.new.items)) }
{
    while let Some(goal) = stack.pop() {
        match enter(goal, symbol) {
            Entry::Skips => {}
            Entry::Stops => return Ok(Outcome::Refused),
            Entry::Deep => return Ok(Outcome::TooDeep),
            taken => {
                add(stack, taken)?;
                return Ok(Outcome::Went);
            }
        }
    }
    Ok(Outcome::Refused)
}

/// What becomes of tokens; `at` counts the bytes before a token.
#[derive(Clone, Copy, Debug, PartialEq, Eq)]
pub enum Syntax {
    /// They are a function.
    Whole,
    /// They begin a function, and end too early.
    Short,
    /// This token is the first with which they begin none.
    Unexpected { at: u32 },
    /// This token is the first that opens a construct while 64 are open.
    Nested { at: u32 },
}

// A stack on which a whole function has to come.
fn whole_function(alloc: Global) -> Result<Vec<Goal>, AllocError>
    ensures { IfOk result (λ stack. stack_of stack.items ≡ start) }
{
    let mut stack = Vec::new(alloc);
    stack.push(Goal::Statement(Site::Block, 0))?;
    stack.push(Goal::Only(Mark::LeftBrace))?;
    stack.push(Goal::Only(Mark::RightParen))?;
    stack.push(Goal::Parameters)?;
    stack.push(Goal::Only(Mark::LeftParen))?;
    stack.push(Goal::FunctionName)?;
    stack.push(Goal::Specifiers)?;
    Ok(stack)
}

// The first fault of the grammar, by the machine.
fn recognise(alloc: Global, pieces: &[Piece]) -> Result<Syntax, AllocError>
    ensures { IfOk result (λ s. scan_of s ≡ scan start (map token_of pieces.now)) }
{
    let mut stack = whole_function(alloc)?;
    for piece in pieces {
        match advance(&mut stack, piece.symbol)? {
            Outcome::Went => {}
            Outcome::Refused => return Ok(Syntax::Unexpected { at: piece.at }),
            Outcome::TooDeep => return Ok(Syntax::Nested { at: piece.at }),
        }
    }
    if stack.is_empty() {
        Ok(Syntax::Whole)
    } else {
        Ok(Syntax::Short)
    }
}

/// What the grammar says of the tokens of a function of a C file, by the trees of functions alone
/// (docs/MEANING.md, "Functions of C"): they are one, they end too early, or the first fault and its place.
///
/// The tokens are any that have the symbols and places of the pieces; the answer is the same whatever
/// their names, constants and numbers are.
pub fn examine(alloc: Global, pieces: &[Piece]) -> Result<Syntax, AllocError>
    // What is answered is so.
    ensures found { IfOk result (λ s. (tokens : List Token) → Are tokens pieces.now → Finds (scan_of s) tokens) }
    // What is so is answered.
    ensures exact { IfOk result (λ s. (tokens : List Token) (t : Scan) → Are tokens pieces.now → Finds t tokens → scan_of s ≡ t) }
{
    recognise(alloc, pieces)
}
