//! Expressions, by how tightly their signs hold their sides.

ghost use Rattle.std.specs.Prelude.{◌≡◌, ◌≤◌, ◌<◌, ◌∷◌, ◌++◌, ℕ, suc, List, length};
ghost use Rattle.source_tree.specs.Expressions.{Expression};
ghost use Rattle.source_grammar.specs.Tokens.{Token, token, infix_sign, question, colon, level};
ghost use Rattle.source_grammar.specs.Symbols.{op_of};
ghost use Rattle.source_grammar.specs.Grammar.{Expr, Groups, spell_expr};
ghost use Rattle.source_grammar.proofs.grammar.Follow.{AfterExpr};
ghost use Rattle.source_meaning.specs.Expressions.{read, right_of};
ghost use Rattle.source_reader.specs.Reading.{GoesOn, behind_first, first_kind};
ghost use Rattle.source_expression.specs.Signs.{asks_conditions};
ghost use Rattle.source_expression.specs.Sides.{IsRead};
ghost use Rattle.source_expression.specs.Readings.{Reads, ReadsTested};
ghost use Rattle.source_expression.specs.Joins.{Join, Stops, chosen_with, joined_with, read_condition};

use crate::operands::operand;
use crate::sides::{Sign, as_side, joined};
use crate::signs::{Work, is_question, level, sign_in, work_of};
use source_grammar::Op;
use source_reader::{Mark, Reader, Scope, Stop, placed};
use source_value::{Site, Tested, Value, chosen};

/// The expression that comes next, with the names that are known; hidden variables are taken from `next` on. Of its faults it tells the
/// first, at its place, and otherwise stands behind its last token.
#[cycle(expressions)]
pub fn expression(
    reader: &mut Reader<'_>,
    known: &Scope<'_>,
    site: Site,
    next: u32,
) -> Result<Value, Stop>
    ensures reads { (e : Expr) (rest : List Token) → Groups 0 e → AfterExpr (first_kind rest)
        → reader.old.ahead ≡ spell_expr e ++ rest → Reads site next (read site.integers site.line known.now e next) rest result reader.new }
    ensures goes { GoesOn reader.old reader.new }
{
    let first = reader.at();
    let value = joins(reader, known, site, next, 1)?;
    if is_question(reader.symbol()) {
        choice(reader, known, site, first, value)
    } else {
        Ok(value)
    }
}

/// The expression that comes next as a condition, likewise.
pub fn condition(
    reader: &mut Reader<'_>,
    known: &Scope<'_>,
    site: Site,
    next: u32,
) -> Result<Tested, Stop>
    ensures reads { (e : Expr) (rest : List Token) → Groups 0 e → AfterExpr (first_kind rest)
        → reader.old.ahead ≡ spell_expr e ++ rest
        → ReadsTested site next (read_condition site.integers site.line known.now e next) rest result reader.new }
    ensures goes { GoesOn reader.old reader.new }
{
    let first = reader.at();
    let value = expression(reader, known, site, next)?;
    placed(value.into_condition(site), first)
}

// `? e : f` behind an expression, whose first token stands at `first`.
#[cycle(expressions)]
fn choice(
    reader: &mut Reader<'_>,
    known: &Scope<'_>,
    site: Site,
    first: u32,
    value: Value,
) -> Result<Value, Stop>
    ensures reads { (x : Expression) (h sign between : ℕ) (e f : Expr) (rest : List Token) → IsRead site h value x
        → Groups 0 e → Groups 0 f → AfterExpr (first_kind rest)
        → reader.old.ahead ≡ token question sign ∷ (spell_expr e ++ token colon between ∷ (spell_expr f ++ rest))
        → Reads site h (chosen_with site.integers site.line known.now first sign x e f h) rest result reader.new }
    ensures goes { GoesOn reader.old reader.new }
{
    let alloc = reader.alloc();
    let sign = reader.take(Mark::Question)?;
    let condition = placed(value.into_condition(site), first)?;
    let passable = known.passable();
    let yes = expression(reader, &passable, site, condition.next)?;
    let yes = yes.into_number(alloc, site)?;
    let _between = reader.take(Mark::Colon)?;
    let no = expression(reader, &passable, site, yes.next)?;
    let no = no.into_number(alloc, site)?;
    placed(chosen(alloc, site, condition, yes, no), sign)
}

// An expression in which no sign holds its sides looser than `least`, which is at least 1.
#[cycle(expressions)]
fn joins(
    reader: &mut Reader<'_>,
    known: &Scope<'_>,
    site: Site,
    next: u32,
    least: u8,
) -> Result<Value, Stop>
    ensures reads { (e : Expr) (rest : List Token) → 1 ≤ least → Groups least e → Stops least rest
        → reader.old.ahead ≡ spell_expr e ++ rest → Reads site next (read site.integers site.line known.now e next) rest result reader.new }
    ensures goes { GoesOn reader.old reader.new }
{
    let first = reader.at();
    let mut value = operand(reader, known, site, next)?;
    'signs: while let Some(op) = sign_in(reader.symbol(), least) {
        value = join(reader, known, site, op, first, value)?;
    }
    Ok(value)
}

// The right side of a sign, in which no sign holds its sides looser than `least`, which is at least 1. C may pass over that of `&&` and
// of `||`.
#[cycle(expressions)]
fn right_side(
    reader: &mut Reader<'_>,
    known: &Scope<'_>,
    site: Site,
    work: Work,
    next: u32,
    least: u8,
) -> Result<Value, Stop>
    ensures reads { (e : Expr) (rest : List Token) → 1 ≤ least → Groups least e → Stops least rest
        → reader.old.ahead ≡ spell_expr e ++ rest
        → Reads site next (read site.integers site.line (right_of (asks_conditions work) known.now) e next) rest result reader.new }
    ensures goes { GoesOn reader.old reader.new }
{
    if work.asks_conditions() {
        joins(reader, &known.passable(), site, next, least)
    } else {
        joins(reader, known, site, next, least)
    }
}

// A sign, which comes next, with its right side; the left side was read, and its first token stands at `first`.
#[cycle(expressions)]
fn join(
    reader: &mut Reader<'_>,
    known: &Scope<'_>,
    site: Site,
    op: Op,
    first: u32,
    left: Value,
) -> Result<Value, Stop>
    requires { 0 < length reader.old.ahead }
    ensures reads { (x : Expression) (h : ℕ) (j : Join) (rest : List Token) → IsRead site h left x → j.op ≡ op_of op
        → Groups (suc (level j.op)) j.right → Stops (suc (level j.op)) rest
        → reader.old.ahead ≡ token (infix_sign j.op) j.at ∷ (spell_expr j.right ++ rest)
        → Reads site h (joined_with site.integers site.line known.now first x j h) rest result reader.new }
    ensures goes { GoesOn reader.old reader.new }
    ensures fewer { length reader.new.ahead ≤ length (behind_first reader.old.ahead) }
{
    let alloc = reader.alloc();
    let at = reader.at();
    reader.skip();
    let work = work_of(op);
    let left = as_side(alloc, site, work, first, left)?;
    let first = reader.at();
    let right = right_side(reader, known, site, work, left.next(), level(op) + 1)?;
    joined(alloc, site, Sign { work, at }, left, first, right)
}
