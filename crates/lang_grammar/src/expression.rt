//! How far an expression reaches, by the machine of programs.

ghost use Rattle.std.specs.Prelude.{◌≡◌, IfOk, List, ℕ, map};
ghost use Rattle.lang_grammar.specs.Expressions.{Reach, runs_out, FindsExpr};
ghost use Rattle.lang_grammar.specs.Reaches.{expression_start, ends_before, reach, reach_of};
ghost use Rattle.lang_grammar.specs.View.{plain_kind, plain_token, tokens_of};
ghost use Rattle.lang_grammar.specs.Goals.{stack_of};

use crate::goal::{Ender, Goal};
use crate::machine::{Outcome, advance};
use crate::symbol::{Symbol, symbol_of};
use lang_tokens::{Kind, Token};
use std::alloc::{AllocError, Global};

/// What becomes of tokens that begin with an expression; `at` counts the bytes of the text before a
/// token.
#[derive(Clone, Copy, Debug, PartialEq, Eq)]
pub enum Extent {
    /// The first `count` tokens are the longest expression.
    Reaches { count: usize },
    /// The tokens end too early.
    Short,
    /// The tokens before this one begin an expression and are none, and with it they begin none.
    Unexpected { at: u32 },
    /// This token is the first that opens a construct while 64 are open, counted from the
    /// expression's beginning.
    Nested { at: u32 },
}

// A stack on which an expression has to come.
fn one_expression(alloc: Global) -> Result<Vec<Goal>, AllocError>
    ensures { IfOk result (λ stack. stack_of stack.items ≡ expression_start) }
{
    let mut stack = Vec::new(alloc);
    stack.push(Goal::More(Ender::Semicolon, 0))?;
    stack.push(Goal::Operand(0))?;
    Ok(stack)
}

// Whether an expression is whole, and ends before a token of this kind.
fn ends_before(stack: &[Goal], kind: Kind) -> bool
    ensures { result ≡ ends_before (stack_of stack.now) (plain_kind kind) }
{
    match symbol_of(kind) {
        Symbol::Infix(_) => false,
        _ => stack.len() == 1,
    }
}

// How far an expression reaches, by the machine.
fn reach(alloc: Global, tokens: &[Token]) -> Result<Extent, AllocError>
    ensures { IfOk result (λ s. reach_of s ≡ reach expression_start (map plain_token tokens.now)) }
{
    let mut stack = one_expression(alloc)?;
    for (count, token) in tokens.iter().enumerate() {
        if ends_before(stack.as_slice(), token.kind) {
            return Ok(Extent::Reaches { count });
        }
        match advance(&mut stack, token.kind)? {
            Outcome::Went => {}
            Outcome::Refused => return Ok(Extent::Unexpected { at: token.at }),
            Outcome::TooDeep => return Ok(Extent::Nested { at: token.at }),
        }
    }
    Ok(Extent::Short)
}

/// What the grammar says of tokens that begin with an expression, by the trees of expressions alone
/// (docs/FORMATS.md, "Grammar").
///
/// The names are those that `text` has at the tokens; the answer is the same whatever they are.
pub fn examine_expression(alloc: Global, tokens: &[Token]) -> Result<Extent, AllocError>
    // What is answered is so.
    ensures found { IfOk result (λ s. (text : List ℕ) → FindsExpr (reach_of s) (tokens_of text tokens.now)) }
    // What is so is answered, unless the tokens end too early.
    ensures exact { IfOk result (λ s. (text : List ℕ) (t : Reach) → (t ≡ runs_out → ⊥) → FindsExpr t (tokens_of text tokens.now)
        → reach_of s ≡ t) }
{
    reach(alloc, tokens)
}
