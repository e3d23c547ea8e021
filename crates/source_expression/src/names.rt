//! Names as operands.

ghost use Rattle.std.specs.Prelude.{◌≡◌, ◌∷◌, ℕ, List, Ok};
ghost use Rattle.std.specs.Option.{option_map};
ghost use Rattle.source_tree.specs.Expressions as tree;
ghost use Rattle.source_grammar.specs.Tokens.{Name, Direction, Token, token, a_name, step_sign};
ghost use Rattle.source_grammar.specs.Grammar as spelled;
ghost use Rattle.source_meaning.specs.Expressions.{operand, read};
ghost use Rattle.source_names.specs.Entries.{thing_of};
ghost use Rattle.source_reader.specs.Answers.{Answers};
ghost use Rattle.source_reader.specs.Reading.{GoesOn};
ghost use Rattle.source_expression.specs.Sides.{IsRead};
ghost use Rattle.source_expression.specs.Readings.{Reads};

use crate::signs::direction_in;
use source_meaning::FunctionFault;
use source_names::Thing;
use source_reader::{Reader, Scope, Stop, placed};
use source_value::{Moment, Site, Step, Value, stepped};
use std::alloc::Global;

// A variable, whose name stands at `at`.
fn variable(alloc: Global, site: Site, next: u32, at: u32, var: u32) -> Result<Value, Stop>
    ensures { Answers (IsRead site next) result (Ok (tree.variable var at)) }
{
    Ok(Value::variable(alloc, site, next, var)?)
}

// What a name at `at` is as an operand: a variable, or the number that a constant is.
fn valued(
    alloc: Global,
    site: Site,
    next: u32,
    at: u32,
    thing: Option<Thing<'_>>,
) -> Result<Value, Stop>
    ensures { Answers (IsRead site next) result (operand site.integers site.line at next (option_map thing_of thing.entry)) }
{
    match thing {
        Some(Thing::Variable(var)) => variable(alloc, site, next, at, var),
        Some(Thing::Constant(number)) => placed(Value::number(alloc, site, next, number, at), at),
        Some(Thing::Array(_)) => Err(Stop::Fault(FunctionFault::WrongKind { at })),
        None => Err(Stop::Fault(FunctionFault::UnknownName { at })),
    }
}

/// A variable or a constant.
pub(crate) fn named(
    reader: &mut Reader<'_>,
    known: &Scope<'_>,
    site: Site,
    next: u32,
) -> Result<Value, Stop>
    ensures reads { (x : Name) (a : ℕ) (rest : List Token) → reader.old.ahead ≡ token (a_name x) a ∷ rest
        → Reads site next (read site.integers site.line known.now (spelled.variable x a) next) rest result reader.new }
    ensures goes { GoesOn reader.old reader.new }
{
    let thing = known.thing(reader.name(), reader.constant());
    let value = valued(reader.alloc(), site, next, reader.at(), thing);
    reader.skip();
    value
}

/// A variable with `++` or `--` behind it.
pub(crate) fn stepped_behind(
    reader: &mut Reader<'_>,
    known: &Scope<'_>,
    site: Site,
    next: u32,
) -> Result<Value, Stop>
    ensures reads { (x : Name) (a : ℕ) (d : Direction) (b : ℕ) (rest : List Token)
        → reader.old.ahead ≡ token (a_name x) a ∷ token (step_sign d) b ∷ rest
        → Reads site next (read site.integers site.line known.now (spelled.stepped_behind x a d b) next) rest result reader.new }
    ensures goes { GoesOn reader.old reader.new }
{
    let name = reader.name();
    let constant = reader.constant();
    let at = reader.at();
    reader.skip();
    let sign = reader.at();
    let var = known.stepped(name, constant, at, sign)?;
    let step = Step {
        direction: direction_in(reader.symbol()),
        moment: Moment::Behind,
        var,
        sign,
    };
    reader.skip();
    Ok(stepped(reader.alloc(), site, step, next)?)
}

/// `++` or `--` before a variable.
pub(crate) fn stepped_before(
    reader: &mut Reader<'_>,
    known: &Scope<'_>,
    site: Site,
    next: u32,
) -> Result<Value, Stop>
    ensures reads { (d : Direction) (a : ℕ) (x : Name) (b : ℕ) (rest : List Token)
        → reader.old.ahead ≡ token (step_sign d) a ∷ token (a_name x) b ∷ rest
        → Reads site next (read site.integers site.line known.now (spelled.stepped_before d a x b) next) rest result reader.new }
    ensures goes { GoesOn reader.old reader.new }
{
    let sign = reader.at();
    let direction = direction_in(reader.symbol());
    reader.skip();
    let var = known.stepped(reader.name(), reader.constant(), reader.at(), sign)?;
    let step = Step {
        direction,
        moment: Moment::Before,
        var,
        sign,
    };
    reader.skip();
    Ok(stepped(reader.alloc(), site, step, next)?)
}
