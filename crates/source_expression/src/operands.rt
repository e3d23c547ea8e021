//! Operands: what no sign between two sides splits.

ghost use Rattle.std.specs.Prelude.{◌≡◌, ◌<◌, ◌∷◌, ◌++◌, ℕ, List, length};
ghost use Rattle.source_grammar.specs.Tokens.{Name, Token, token, a_name, a_number, nondet_word, sign_of, left_paren, right_paren};
ghost use Rattle.source_grammar.specs.Grammar as spelled;
ghost use Rattle.source_grammar.specs.Grammar.{Expr, Arguments, Subscripts, Groups, GoodArguments, GoodSubscripts};
ghost use Rattle.source_grammar.specs.Grammar.{spell_arguments, spell_expr, spell_subscripts};
ghost use Rattle.source_meaning.specs.Names.{State};
ghost use Rattle.source_meaning.specs.Expressions.{read};
ghost use Rattle.source_reader.specs.Reading.{GoesOn};
ghost use Rattle.source_expression.specs.Signs.{prefix_of};
ghost use Rattle.source_expression.specs.Readings.{Reads};
ghost use Rattle.source_expression.specs.Joins.{Stops};

use crate::ends::call_behind;
use crate::expressions::expression;
use crate::lists::arguments;
use crate::names::{named, stepped_before, stepped_behind};
use crate::sides::signed;
use crate::signs::{Opening, Prefix, opening_in};
use crate::subscripts::element;
use source_reader::{Mark, Reader, Scope, Stop, placed};
use source_value::{Site, Value};

// A number.
fn number(reader: &mut Reader<'_>, site: Site, next: u32) -> Result<Value, Stop>
    ensures reads { (v a : ℕ) (st : State) (rest : List Token) → reader.old.ahead ≡ token (a_number v) a ∷ rest
        → Reads site next (read site.integers site.line st (spelled.number v a) next) rest result reader.new }
    ensures goes { GoesOn reader.old reader.new }
{
    let at = reader.at();
    let value = Value::number(reader.alloc(), site, next, reader.number(), at);
    reader.skip();
    placed(value, at)
}

// `nondet()`
fn unknown(reader: &mut Reader<'_>, site: Site, next: u32) -> Result<Value, Stop>
    ensures reads { (a b c : ℕ) (st : State) (rest : List Token)
        → reader.old.ahead ≡ token nondet_word a ∷ token left_paren b ∷ token right_paren c ∷ rest
        → Reads site next (read site.integers site.line st (spelled.free a b c) next) rest result reader.new }
    ensures goes { GoesOn reader.old reader.new }
{
    reader.skip();
    let _open = reader.take(Mark::LeftParen)?;
    let _close = reader.take(Mark::RightParen)?;
    Ok(Value::any(reader.alloc(), site, next))
}

// An element of an array.
#[cycle(expressions)]
fn named_element(
    reader: &mut Reader<'_>,
    known: &Scope<'_>,
    site: Site,
    next: u32,
) -> Result<Value, Stop>
    ensures reads { (x : Name) (a : ℕ) (is : Subscripts) (rest : List Token) → GoodSubscripts is → Stops 7 rest
        → reader.old.ahead ≡ token (a_name x) a ∷ (spell_subscripts is ++ rest)
        → Reads site next (read site.integers site.line known.now (spelled.element x a is) next) rest result reader.new }
    ensures goes { GoesOn reader.old reader.new }
{
    let name = reader.name();
    let value = reader.constant();
    let at = reader.at();
    reader.skip();
    let extents = known.array(name, value, at, reader.subscripts())?;
    element(reader, known, site, next, extents)
}

// A call of a function.
#[cycle(expressions)]
fn call(reader: &mut Reader<'_>, known: &Scope<'_>, site: Site, next: u32) -> Result<Value, Stop>
    ensures reads { (x : Name) (a b c : ℕ) (es : Arguments) (rest : List Token) → GoodArguments es
        → reader.old.ahead ≡ token (a_name x) a ∷ token left_paren b ∷ (spell_arguments es ++ token right_paren c ∷ rest)
        → Reads site next (read site.integers site.line known.now (spelled.call x a b es c) next) rest result reader.new }
    ensures goes { GoesOn reader.old reader.new }
{
    known.called(reader.name(), reader.constant(), reader.at())?;
    reader.skip();
    let _open = reader.take(Mark::LeftParen)?;
    let given = arguments(reader, known, site, next)?;
    call_behind(reader, site, given)
}

// An expression in parentheses.
#[cycle(expressions)]
fn grouped(reader: &mut Reader<'_>, known: &Scope<'_>, site: Site, next: u32) -> Result<Value, Stop>
    ensures reads { (a b : ℕ) (e : Expr) (rest : List Token) → Groups 0 e
        → reader.old.ahead ≡ token left_paren a ∷ (spell_expr e ++ token right_paren b ∷ rest)
        → Reads site next (read site.integers site.line known.now (spelled.grouped a e b) next) rest result reader.new }
    ensures goes { GoesOn reader.old reader.new }
{
    let _open = reader.take(Mark::LeftParen)?;
    let value = expression(reader, known, site, next)?;
    let _close = reader.take(Mark::RightParen)?;
    Ok(value)
}

// A sign, which comes next, before an operand.
#[cycle(expressions)]
fn prefixed(
    reader: &mut Reader<'_>,
    known: &Scope<'_>,
    site: Site,
    next: u32,
    prefix: Prefix,
) -> Result<Value, Stop>
    requires { 0 < length reader.old.ahead }
    ensures reads { (a : ℕ) (e : Expr) (rest : List Token) → Groups 7 e → Stops 7 rest
        → reader.old.ahead ≡ token (sign_of (prefix_of prefix)) a ∷ (spell_expr e ++ rest)
        → Reads site next (read site.integers site.line known.now (spelled.prefixed (prefix_of prefix) a e) next) rest result reader.new }
    ensures goes { GoesOn reader.old reader.new }
{
    let sign = reader.at();
    reader.skip();
    let first = reader.at();
    let value = operand(reader, known, site, next)?;
    signed(reader.alloc(), site, prefix, sign, first, value)
}

/// An operand.
#[cycle(expressions)]
pub(crate) fn operand(
    reader: &mut Reader<'_>,
    known: &Scope<'_>,
    site: Site,
    next: u32,
) -> Result<Value, Stop>
    ensures reads { (e : Expr) (rest : List Token) → Groups 7 e → Stops 7 rest
        → reader.old.ahead ≡ spell_expr e ++ rest → Reads site next (read site.integers site.line known.now e next) rest result reader.new }
    ensures goes { GoesOn reader.old reader.new }
{
    match opening_in(reader.symbol(), reader.second()) {
        Some(Opening::Number) => number(reader, site, next),
        Some(Opening::Variable) => named(reader, known, site, next),
        Some(Opening::SteppedBehind) => stepped_behind(reader, known, site, next),
        Some(Opening::SteppedBefore) => stepped_before(reader, known, site, next),
        Some(Opening::Element) => named_element(reader, known, site, next),
        Some(Opening::Call) => call(reader, known, site, next),
        Some(Opening::Unknown) => unknown(reader, site, next),
        Some(Opening::Grouped) => grouped(reader, known, site, next),
        Some(Opening::Prefixed(prefix)) => prefixed(reader, known, site, next, prefix),
        None => Err(Stop::Unlike),
    }
}
