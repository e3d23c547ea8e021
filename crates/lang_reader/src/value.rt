//! What expressions are: numbers, truth values or `nondet()`.
#![tactic(auto, using(lang_meaning::proofs::results::Binds::then_ok, lang_meaning::proofs::results::Binds::then_err))]

ghost use Rattle.std.specs.Prelude.{◌≡◌, ◌≤◌, ◌+◌, min};
ghost use Rattle.lang_tree.specs.Tree.{leaf_count};
ghost use Rattle.lang_tree.specs.View.{condition_of};
ghost use Rattle.lang_grammar.specs.Grammar.{or_op, and_op};
ghost use Rattle.lang_grammar.specs.Symbols.{relation_of, op_of};
ghost use Rattle.lang_meaning.specs.Walk.{number_of, as_condition, first_of, rel_of, compared, product, tested};
ghost use Rattle.lang_meaning.specs.Feed.{combined_small};
ghost use Rattle.lang_meaning.specs.Gives.{Gives};
ghost use Rattle.lang_reader.specs.Values.{value_of};

use crate::forms::{is_comparable, is_constant, scaled, together};
use lang_grammar::{Op, Relation};
use lang_meaning::{Limit, ParseFault};
use lang_tree::{Cond, Form, Rel};
use std::alloc::Global;

/// The most leaves of a condition.
const LEAVES: u32 = 64;

/// What an expression is.
#[derive(Drop)]
pub enum Value {
    /// A number, with the place of its first token.
    Form(Form, u32),
    Truth(Cond),
    /// `nondet()`, with its place.
    Nondet(u32),
}

// The number of a condition's leaves, or one more than `most` where it has more. It calls itself
// at most so many times deeper than constructs nest.
fn leaves_up_to(cond: &Cond, most: u32) -> u32
    requires { most ≤ 64 }
    ensures { result ≡ min (leaf_count (condition_of cond.now)) (most + 1) }
{
    match cond {
        Cond::Free => 1,
        Cond::Cmp(_, _) => 1,
        Cond::Not(inner) => leaves_up_to(inner, most),
        Cond::Both(first, second) => {
            let last = leaves_up_to(second, most);
            if last > most {
                last
            } else {
                last + leaves_up_to(first, most - last)
            }
        }
        Cond::Either(first, second) => {
            let last = leaves_up_to(second, most);
            if last > most {
                last
            } else {
                last + leaves_up_to(first, most - last)
            }
        }
    }
}

/// The number that the sign at `sign` asks for.
pub fn number_of(sign: u32, value: Value) -> Result<Form, ParseFault>
    ensures { Gives (λ form. form) result (number_of sign (value_of value)) }
{
    match value {
        Value::Form(form, _) => Ok(form),
        Value::Truth(_) => Err(ParseFault::NotAffine { at: sign }),
        Value::Nondet(at) => Err(ParseFault::NondetHere { at }),
    }
}

/// The value as a condition.
pub fn as_condition(value: Value) -> Result<Cond, ParseFault>
    ensures { Gives condition_of result (as_condition (value_of value)) }
{
    match value {
        Value::Form(form, first) => {
            if is_comparable(&form) {
                Ok(Cond::Cmp(Rel::Ne, form))
            } else {
                Err(ParseFault::BigNumber { at: first })
            }
        }
        Value::Truth(cond) => Ok(cond),
        Value::Nondet(_) => Ok(Cond::Free),
    }
}

// The place of a number's first token.
fn first_of(sign: u32, value: &Value) -> u32
    ensures { result ≡ first_of sign (value_of value.now) }
{
    match value {
        Value::Form(_, first) => *first,
        Value::Truth(_) => sign,
        Value::Nondet(at) => *at,
    }
}

// The relation of a comparison.
fn rel_of(relation: Relation) -> Rel
    ensures { result ≡ rel_of (relation_of relation) }
{
    match relation {
        Relation::Equal => Rel::Eq,
        Relation::Unequal => Rel::Ne,
        Relation::Less => Rel::Lt,
        Relation::AtMost => Rel::Le,
        Relation::Greater => Rel::Gt,
        Relation::AtLeast => Rel::Ge,
    }
}

// The relation between the difference of two numbers and 0.
fn compared(
    alloc: Global,
    relation: Relation,
    at: u32,
    left: &Form,
    right: &Form,
) -> Result<Value, ParseFault>
    ensures { Gives value_of result (compared (relation_of relation) at left.now right.now) }
{
    let form = together(alloc, at, true, left, right)?;
    if is_comparable(&form) {
        Ok(Value::Truth(Cond::Cmp(rel_of(relation), form)))
    } else {
        Err(ParseFault::BigNumber { at })
    }
}

// The product of two numbers of which one is constant.
fn product(alloc: Global, at: u32, left: &Form, right: &Form) -> Result<Form, ParseFault>
    ensures { Gives (λ form. form) result (product at left.now right.now) }
{
    if is_constant(left) {
        scaled(alloc, at, left.constant, right)
    } else if is_constant(right) {
        scaled(alloc, at, right.constant, left)
    } else {
        Err(ParseFault::NotAffine { at })
    }
}

// What `||` makes of its sides. Past the limit of leaves, where the statement will be refused, the
// left one stays as it is, so that no condition gets deeper than constructs nest and leaves allow.
fn either(alloc: Global, left: Value, right: Value) -> Result<Value, ParseFault>
    ensures { Gives value_of result (combined_small or_op 0 (value_of left) (value_of right)) }
{
    let first = as_condition(left)?;
    let second = as_condition(right)?;
    if leaves_up_to(&first, LEAVES) > LEAVES {
        return Ok(Value::Truth(first));
    }
    Ok(Value::Truth(Cond::Either(Box::new(alloc, first)?, Box::new(alloc, second)?)))
}

// What `&&` makes of its sides; past the limit of leaves likewise.
fn both(alloc: Global, left: Value, right: Value) -> Result<Value, ParseFault>
    ensures { Gives value_of result (combined_small and_op 0 (value_of left) (value_of right)) }
{
    let first = as_condition(left)?;
    let second = as_condition(right)?;
    if leaves_up_to(&first, LEAVES) > LEAVES {
        return Ok(Value::Truth(first));
    }
    Ok(Value::Truth(Cond::Both(Box::new(alloc, first)?, Box::new(alloc, second)?)))
}

/// The condition of what begins at `at`.
pub fn tested(at: u32, value: Value) -> Result<Cond, ParseFault>
    ensures { Gives condition_of result (tested at (value_of value)) }
{
    let cond = as_condition(value)?;
    if leaves_up_to(&cond, LEAVES) > LEAVES {
        return Err(ParseFault::Limit {
            at,
            which: Limit::Leaves,
        });
    }
    Ok(cond)
}

/// What the sign `op` at `at` makes of its sides.
pub fn combined(
    alloc: Global,
    op: Op,
    at: u32,
    left: Value,
    right: Value,
) -> Result<Value, ParseFault>
    ensures { Gives value_of result (combined_small (op_of op) at (value_of left) (value_of right)) }
{
    match op {
        Op::Or => return either(alloc, left, right),
        Op::And => return both(alloc, left, right),
        _ => {}
    }
    let first = first_of(at, &left);
    let f = number_of(at, left)?;
    let g = number_of(at, right)?;
    match op {
        Op::Compare(relation) => compared(alloc, relation, at, &f, &g),
        Op::Plus => Ok(Value::Form(together(alloc, at, false, &f, &g)?, first)),
        Op::Minus => Ok(Value::Form(together(alloc, at, true, &f, &g)?, first)),
        _ => Ok(Value::Form(product(alloc, at, &f, &g)?, first)),
    }
}
