//! Places: variables, and elements of arrays.

ghost use Rattle.std.specs.Prelude.{◌≡◌, ◌≤◌, ◌++◌, List, length, OnOk};
ghost use Rattle.source_grammar.specs.Tokens.{Token};
ghost use Rattle.source_grammar.specs.Grammar.{Subscripts, GoodSubscripts, spell_subscripts, Index, GoodIndex};
ghost use Rattle.source_grammar.proofs.grammar.Follow.{AfterPlace};
ghost use Rattle.source_core.specs.Elaborated.{elaborated};
ghost use Rattle.source_meaning.specs.Changes.{read_element};
ghost use Rattle.source_value.specs.Stands.{Stands};
ghost use Rattle.source_reader.specs.Answers.{Answers};
ghost use Rattle.source_reader.specs.Reading.{at_tokens, first_kind};
ghost use Rattle.source_change.specs.Onto.{onto_index};
ghost use Rattle.source_change.specs.Changed.{StandsTarget, aim};
ghost use Rattle.source_change.specs.Tests.{name_of};

use crate::names::Named;
use crate::nexts::{Next, coming};
use source_expression::element;
use source_reader::{Reader, Scope, Stop};
use source_value::{Site, Value};

// A place: its value, which is any for an element, behind the check of its index; and its variable, if it is one.
#[derive(Drop)]
pub(crate) struct Target {
    pub old: Value,
    pub var: Option<u32>,
}

// The element of the array with this name, from its `[` on.
fn read_element(
    reader: &mut Reader,
    scope: &Scope,
    site: Site,
    named: &Named,
) -> Result<Value, Stop>
    ensures reads { (is : Subscripts) (rest : List Token) → GoodSubscripts is → reader.old.ahead ≡ spell_subscripts is ++ rest
        → AfterPlace (first_kind rest)
        → Answers (λ v x. Stands site.variables v (elaborated site.integers site.line x site.variables) ×
        (reader.new ≡ at_tokens reader.old rest))
        result (read_element site.integers site.variables site.line scope.now (name_of named.now) named.now.at is) }
    ensures shorter { OnOk result (length reader.new.ahead ≤ length reader.old.ahead) }
{
    let count = reader.subscripts();
    let extents = scope.array(named.name.bytes(), named.value, named.at, count)?;
    element(reader, scope, site, site.variables, extents)
}

// The variable with this name.
fn variable(reader: &Reader, scope: &Scope, site: Site, named: &Named) -> Result<Target, Stop>
    ensures { Answers (λ t a. StandsTarget site.integers site.variables site.line t a) result
        (aim site.integers site.variables site.line scope.now (name_of named.now) named.now.at Index.no_index) }
{
    let var = scope.variable(named.name.bytes(), named.value, named.at)?;
    Ok(Target {
        old: Value::variable(reader.alloc(), site, site.variables, var)?,
        var: Some(var),
    })
}

// The place that begins with this name, behind it.
pub(crate) fn place(
    reader: &mut Reader,
    scope: &Scope,
    site: Site,
    named: &Named,
) -> Result<Target, Stop>
    ensures reads { (i : Index) (rest : List Token) → GoodIndex i → reader.old.ahead ≡ onto_index i rest → AfterPlace (first_kind rest)
        → Answers (λ t a. StandsTarget site.integers site.variables site.line t a × (reader.new ≡ at_tokens reader.old rest)) result
        (aim site.integers site.variables site.line scope.now (name_of named.now) named.now.at i) }
    ensures shorter { OnOk result (length reader.new.ahead ≤ length reader.old.ahead) }
{
    match coming(reader) {
        Next::Bracket => Ok(Target {
            old: read_element(reader, scope, site, named)?,
            var: None,
        }),
        _ => variable(reader, scope, site, named),
    }
}
