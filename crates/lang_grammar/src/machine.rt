//! Whether tokens are a sentence, by a stack of what has still to come; what each goal takes is in `goal.rt`.

ghost use Rattle.std.specs.Prelude.{◌≡◌, OnOk, IfOk, List, ℕ, map};
ghost use Rattle.lang_grammar.specs.Machine.{start};
ghost use Rattle.lang_grammar.specs.Faults.{Scan, short, Finds};
ghost use Rattle.lang_grammar.specs.Verdicts.{scan, verdict};
ghost use Rattle.lang_grammar.specs.View.{plain_kind, plain_token, tokens_of};
ghost use Rattle.lang_grammar.specs.Goals.{entry_of, stack_of, added, Advances, scan_of};

use crate::goal::{Entry, Goal, Mark, Place, enter};
use crate::symbol::symbol_of;
use lang_tokens::{Kind, Token};
use std::alloc::{AllocError, Global};

// Puts what has to come next onto the stack.
fn add(stack: &mut Vec<Goal>, entry: Entry) -> Result<(), AllocError>
    ensures { OnOk result (stack_of stack.new.items ≡ added (entry_of entry) (stack_of stack.old.items)) }
{
    match entry {
        Entry::One(first) => stack.push(first)?,
        Entry::Two(first, second) => {
            stack.push(second)?;
            stack.push(first)?;
        }
        Entry::Three(first, second, third) => {
            stack.push(third)?;
            stack.push(second)?;
            stack.push(first)?;
        }
        Entry::Four(first, second, third, fourth) => {
            stack.push(fourth)?;
            stack.push(third)?;
            stack.push(second)?;
            stack.push(first)?;
        }
        Entry::Nothing | Entry::Skips | Entry::Stops | Entry::Deep => {}
    }
    Ok(())
}

/// What became of a token.
#[derive(Clone, Copy)]
pub(crate) enum Outcome {
    Went,
    Refused,
    TooDeep,
}

/// Takes a token.
pub(crate) fn advance(stack: &mut Vec<Goal>, kind: Kind) -> Result<Outcome, AllocError>
    ensures { IfOk result (λ o. Advances o (verdict (stack_of stack.old.items) (plain_kind kind)) (stack_of stack.new.items)) }
{
    let symbol = symbol_of(kind);
    while let Some(goal) = stack.pop() {
        match enter(goal, symbol) {
            Entry::Skips => {}
            Entry::Stops => return Ok(Outcome::Refused),
            Entry::Deep => return Ok(Outcome::TooDeep),
            taken => {
                add(stack, taken)?;
                return Ok(Outcome::Went);
            }
        }
    }
    Ok(Outcome::Refused)
}

/// What becomes of tokens; `at` counts the bytes of the text before a token.
#[derive(Clone, Copy, Debug, PartialEq, Eq)]
pub enum Syntax {
    /// They are a sentence.
    Whole,
    /// They begin a sentence, and end too early.
    Short,
    /// This token is the first with which they begin none.
    Unexpected { at: u32 },
    /// This token is the first that opens a construct while 64 are open.
    Nested { at: u32 },
}

// A stack on which a whole program has to come.
fn whole_program(alloc: Global) -> Result<Vec<Goal>, AllocError>
    ensures { IfOk result (λ stack. stack_of stack.items ≡ start) }
{
    let mut stack = Vec::new(alloc);
    stack.push(Goal::Only(Mark::End))?;
    stack.push(Goal::Statement(Place::Main, 0))?;
    stack.push(Goal::Only(Mark::LeftBrace))?;
    stack.push(Goal::Parameters)?;
    stack.push(Goal::Only(Mark::LeftParen))?;
    stack.push(Goal::Only(Mark::Main))?;
    stack.push(Goal::Only(Mark::Int))?;
    Ok(stack)
}

// The first fault of the grammar, by the machine.
fn recognise(alloc: Global, tokens: &[Token]) -> Result<Syntax, AllocError>
    ensures { IfOk result (λ s. scan_of s ≡ scan start (map plain_token tokens.now)) }
{
    let mut stack = whole_program(alloc)?;
    for token in tokens {
        match advance(&mut stack, token.kind)? {
            Outcome::Went => {}
            Outcome::Refused => return Ok(Syntax::Unexpected { at: token.at }),
            Outcome::TooDeep => return Ok(Syntax::Nested { at: token.at }),
        }
    }
    if stack.is_empty() {
        Ok(Syntax::Whole)
    } else {
        Ok(Syntax::Short)
    }
}

/// What the grammar says of the tokens of a text, by the trees of programs alone
/// (docs/FORMATS.md, "Grammar" and "The order of faults").
///
/// The names are those that `text` has at the tokens; the answer is the same whatever they are.
pub fn examine(alloc: Global, tokens: &[Token]) -> Result<Syntax, AllocError>
    // What is answered is so.
    ensures found { IfOk result (λ s. (text : List ℕ) → Finds (scan_of s) (tokens_of text tokens.now)) }
    // What is so is answered, unless the text ends too early.
    ensures exact { IfOk result (λ s. (text : List ℕ) (t : Scan) → (t ≡ short → ⊥) → Finds t (tokens_of text tokens.now) → scan_of s ≡ t) }
{
    recognise(alloc, tokens)
}
