//! What is done to places.

ghost use Rattle.std.specs.Prelude.{◌≡◌, ◌≤◌, ◌++◌, ℕ, List, Some, length, OnOk};
ghost use Rattle.source_meaning.specs.Names.{State};
ghost use Rattle.std.specs.Option.{option_map};
ghost use Rattle.base_integers.specs.declared.integers.Integers.{Integers};
ghost use Rattle.source_grammar.specs.Symbols.{direction_of, change_of};
ghost use Rattle.source_grammar.specs.Tokens.{Token};
ghost use Rattle.source_grammar.specs.Tokens as g;
ghost use Rattle.source_grammar.specs.Grammar.{Effect, Expr, GoodEffect, Groups, assigns, steps, spell_expr};
ghost use Rattle.source_grammar.proofs.grammar.Follow.{AfterExpr};
ghost use Rattle.source_tree.specs.Expressions.{Expression};
ghost use Rattle.source_core.specs.Elaborated.{elaborated};
ghost use Rattle.source_value.specs.Operations.{operation_of};
ghost use Rattle.source_value.specs.Stands.{Stands};
ghost use Rattle.source_reader.specs.Answers.{Answers};
ghost use Rattle.source_reader.specs.Reading.{at_tokens, first_kind};
ghost use Rattle.source_change.specs.Onto.{onto_effect};
ghost use Rattle.source_change.specs.Changed.{Aim, StandsChange, StandsTarget, done_to, change_to, joined_by, step_by, var_of};

use crate::deeds::Changed;
use crate::nexts::{Next, coming};
use crate::places::Target;
use crate::ranges::ranged;
use source_expression::expression;
use source_grammar::{Change, Direction};
use source_reader::{Reader, Scope, Stop};
use source_value::{Evaluated, Operation, Site, Value, operated};
use std::alloc::Global;

// The operation of an assignment that uses the place's value.
fn joined_by(change: Change) -> Option<Operation>
    ensures { option_map operation_of result ≡ joined_by (change_of change) }
{
    match change {
        Change::Replaces => None,
        Change::Adds => Some(Operation::Plus),
        Change::Subtracts => Some(Operation::Minus),
        Change::Multiplies => Some(Operation::Times),
        Change::Divides => Some(Operation::Over),
        Change::Remains => Some(Operation::Remainder),
    }
}

// The operation of a step.
fn step_by(direction: Direction) -> Operation
    ensures { operation_of result ≡ step_by (direction_of direction) }
{
    match direction {
        Direction::Up => Operation::Plus,
        Direction::Down => Operation::Minus,
    }
}

// The place with this variable, if it is one, takes a value: an element is only evaluated.
fn change_to(var: Option<u32>, value: Value) -> Changed
    ensures { (integers : Integers) (n line : ℕ) (a : Aim) (e : Expression) → var ≡ var_of a
        → Stands n value (elaborated integers line e n) → StandsChange integers n line result (change_to a e line) }
{
    match var {
        Some(var) => Changed::Sets { var, value },
        None => Changed::Evaluates(Evaluated {
            prelude: value.prelude,
            next: value.next,
        }),
    }
}

// The place with 1 more or less; the sign of the step stands at `sign`.
pub(crate) fn stepped(
    alloc: Global,
    site: Site,
    target: Target,
    direction: Direction,
    sign: u32,
) -> Result<Changed, Stop>
    ensures { (a : Aim) (st : State) → StandsTarget site.integers site.variables site.line target a
        → Answers (λ c h. StandsChange site.integers site.variables site.line c h) result
        (done_to site.integers site.variables site.line st a (steps (direction_of direction) sign)) }
{
    let operation = step_by(direction);
    let old = target.old.into_number(alloc, site)?;
    let one = ranged(Value::number(alloc, site, old.next, 1, sign), sign)?;
    let one = one.into_number(alloc, site)?;
    let value = ranged(operated(alloc, site, operation, sign, old, one), sign)?;
    Ok(change_to(target.var, value))
}

// What stands behind the `=` of an assignment to the place.
fn replaced(reader: &mut Reader, scope: &Scope, site: Site, target: Target) -> Result<Changed, Stop>
    ensures reads { (a : Aim) (sign : ℕ) (e : Expr) (rest : List Token) → StandsTarget site.integers site.variables site.line target a
        → Groups 0 e
        → reader.old.ahead ≡ spell_expr e ++ rest → AfterExpr (first_kind rest)
        → Answers (λ c h. StandsChange site.integers site.variables site.line c h × (reader.new ≡ at_tokens reader.old rest)) result
        (done_to site.integers site.variables site.line scope.now a (assigns g.replaces sign e)) }
    ensures shorter { OnOk result (length reader.new.ahead ≤ length reader.old.ahead) }
{
    match target.var {
        Some(var) => {
            let value = expression(reader, scope, site, site.variables)?;
            Ok(Changed::Sets { var, value })
        }
        None => {
            let Target { old, .. } = target;
            let value = expression(reader, scope, site, old.next)?;
            let all = Evaluated {
                prelude: old.prelude,
                next: old.next,
            };
            Ok(Changed::Evaluates(all.with(value)?))
        }
    }
}

// What stands behind the sign of an assignment by an operation; the sign stands at `sign`.
fn joined(
    reader: &mut Reader,
    scope: &Scope,
    site: Site,
    target: Target,
    operation: Operation,
    sign: u32,
) -> Result<Changed, Stop>
    ensures reads { (a : Aim) (c : g.Change) (e : Expr) (rest : List Token)
        → StandsTarget site.integers site.variables site.line target a → Groups 0 e
        → Some (operation_of operation) ≡ joined_by c
        → reader.old.ahead ≡ spell_expr e ++ rest → AfterExpr (first_kind rest)
        → Answers (λ c h. StandsChange site.integers site.variables site.line c h × (reader.new ≡ at_tokens reader.old rest)) result
        (done_to site.integers site.variables site.line scope.now a (assigns c sign e)) }
    ensures shorter { OnOk result (length reader.new.ahead ≤ length reader.old.ahead) }
{
    let alloc = reader.alloc();
    let old = target.old.into_number(alloc, site)?;
    let right = expression(reader, scope, site, old.next)?;
    let right = right.into_number(alloc, site)?;
    let value = ranged(operated(alloc, site, operation, sign, old, right), sign)?;
    Ok(change_to(target.var, value))
}

// What is done to the place.
pub(crate) fn effect(
    reader: &mut Reader,
    scope: &Scope,
    site: Site,
    target: Target,
) -> Result<Changed, Stop>
    ensures reads { (a : Aim) (f : Effect) (rest : List Token) → StandsTarget site.integers site.variables site.line target a → GoodEffect f
        → reader.old.ahead ≡ onto_effect f rest → AfterExpr (first_kind rest)
        → Answers (λ c h. StandsChange site.integers site.variables site.line c h × (reader.new ≡ at_tokens reader.old rest)) result
        (done_to site.integers site.variables site.line scope.now a f) }
    ensures shorter { OnOk result (length reader.new.ahead ≤ length reader.old.ahead) }
{
    let what = coming(reader);
    let sign = reader.at();
    reader.skip();
    match what {
        Next::Step(direction) => stepped(reader.alloc(), site, target, direction, sign),
        Next::Change(change) => match joined_by(change) {
            Some(operation) => joined(reader, scope, site, target, operation, sign),
            None => replaced(reader, scope, site, target),
        },
        _ => Err(Stop::Unlike),
    }
}
