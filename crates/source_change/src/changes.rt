//! Changes.

ghost use Rattle.std.specs.Prelude.{◌≡◌, ◌<◌, ◌≤◌, ℕ, List, [], length, OnOk};
ghost use Rattle.lang_tokens.specs.Lines.{line_at};
ghost use Rattle.source_grammar.specs.Symbols.{direction_of};
ghost use Rattle.source_grammar.specs.Tokens.{Token};
ghost use Rattle.source_grammar.specs.Grammar.{Index, GoodIndex, Effect, GoodEffect, steps, Place, GoodPlace, place, Update, GoodUpdate};
ghost use Rattle.source_grammar.specs.Grammar.{spell_update, MoreUpdates, GoodMoreUpdates, Updates, GoodUpdates};
ghost use Rattle.source_grammar.proofs.grammar.Follow.{AfterPart, AfterList};
ghost use Rattle.source_meaning.specs.Names.{among};
ghost use Rattle.source_meaning.specs.Changes.{changed, read_update};
ghost use Rattle.source_meaning.specs.Statements.{read_more_updates, read_updates};
ghost use Rattle.source_reader.specs.Answers.{Answers};
ghost use Rattle.source_reader.specs.Reading.{at_tokens, first_kind};
ghost use Rattle.source_change.specs.Changed.{StandsChange, changed_by};
ghost use Rattle.source_change.specs.Tests.{WasChanged, WereChanged, name_of};
ghost use Rattle.source_change.specs.Onto.{onto_index, onto_place, onto_effect, onto_update, onto_more_updates, onto_updates};

use crate::deeds::{Changed, counted_change};
use crate::effects::{effect, stepped};
use crate::names::{Named, take_name};
use crate::nexts::{has_change, has_comma, step};
use crate::places::place;
use crate::pushed::append;
use lang_tree::Deed;
use source_grammar::Direction;
use source_names::Known;
use source_reader::{Reader, Scope, Stop};
use source_value::Site;

// The change of the place that begins with this name, behind it.
fn behind_name(
    reader: &mut Reader,
    scope: &Scope,
    site: Site,
    first: &Named,
) -> Result<Changed, Stop>
    ensures reads { (i : Index) (f : Effect) (rest : List Token) → GoodIndex i → GoodEffect f
        → reader.old.ahead ≡ onto_index i (onto_effect f rest) → AfterPart (first_kind rest)
        → Answers (λ c h. StandsChange site.integers site.variables site.line c h × (reader.new ≡ at_tokens reader.old rest)) result
        (changed site.integers site.variables site.line scope.now (place (name_of first.now) first.now.at i) f) }
    ensures shorter { OnOk result (length reader.new.ahead ≤ length reader.old.ahead) }
{
    let target = place(reader, scope, site, first)?;
    effect(reader, scope, site, target)
}

// The place behind a `++` or `--` at `at`, as the change of it.
fn step_before(
    reader: &mut Reader,
    scope: &Scope,
    site: Site,
    direction: Direction,
    at: u32,
) -> Result<Changed, Stop>
    ensures reads { (p : Place) (rest : List Token) → GoodPlace p → reader.old.ahead ≡ onto_place p rest → AfterPart (first_kind rest)
        → Answers (λ c h. StandsChange site.integers site.variables site.line c h × (reader.new ≡ at_tokens reader.old rest)) result
        (changed site.integers site.variables site.line scope.now p (steps (direction_of direction) at)) }
    ensures shorter { OnOk result (length reader.new.ahead ≤ length reader.old.ahead) }
{
    let first = take_name(reader)?;
    let target = place(reader, scope, site, &first)?;
    stepped(reader.alloc(), site, target, direction, at)
}

// The change that comes next, each expression in it among its tokens.
fn change(reader: &mut Reader, known: &Known, site: Site) -> Result<Changed, Stop>
    ensures reads { (u : Update) (rest : List Token) → GoodUpdate u → reader.old.ahead ≡ onto_update u rest → AfterPart (first_kind rest)
        → Answers (λ c h. StandsChange site.integers site.variables site.line c h × (reader.new ≡ at_tokens reader.old rest)) result
        (changed_by site.integers site.variables site.line (among (spell_update u) known.now) u) }
    ensures shorter { OnOk result (length reader.new.ahead < length reader.old.ahead) }
{
    let scope = reader.scope(known);
    match step(reader) {
        Some(direction) => {
            let at = reader.at();
            reader.skip();
            step_before(reader, &scope, site, direction, at)
        }
        None => {
            let first = take_name(reader)?;
            behind_name(reader, &scope, site, &first)
        }
    }
}

/// The change that comes next, as deeds, which count as statements (docs/MEANING.md, "Functions of C").
pub fn update(reader: &mut Reader, known: &mut Known) -> Result<Vec<Deed>, Stop>
    ensures reads { (u : Update) (rest : List Token) → GoodUpdate u → reader.old.ahead ≡ onto_update u rest → AfterPart (first_kind rest)
        → Answers (λ deeds r. WasChanged reader.old.integers reader.old.variables rest reader.old reader.new known.new deeds.items r)
        result (read_update reader.old.integers (line_at reader.old.text) reader.old.variables known.old u) }
    ensures shorter { OnOk result (length reader.new.ahead < length reader.old.ahead) }
{
    let at = reader.at();
    let site = reader.site(at);
    let changed = change(reader, known, site)?;
    counted_change(reader.alloc(), known, site, at, changed)
}

// The changes behind the first, behind those that were read.
fn more_updates(reader: &mut Reader, known: &mut Known, deeds: &mut Vec<Deed>) -> Result<(), Stop>
    ensures reads { (us : MoreUpdates) (rest : List Token) → GoodMoreUpdates us → reader.old.ahead ≡ onto_more_updates us rest
        → AfterList (first_kind rest)
        → Answers (λ _ r. WereChanged reader.old.integers reader.old.variables rest reader.old reader.new
        known.new deeds.old.items deeds.new.items r) result
        (read_more_updates reader.old.integers (line_at reader.old.text) reader.old.variables known.old us) }
    ensures shorter { OnOk result (length reader.new.ahead ≤ length reader.old.ahead) }
{
    'changes: while has_comma(reader) {
        reader.skip();
        let more = update(reader, known)?;
        append(deeds, more)?;
    }
    Ok(())
}

/// Changes with commas between them, or none, as deeds, which count as statements (docs/MEANING.md, "Functions of C").
pub fn updates(reader: &mut Reader, known: &mut Known) -> Result<Vec<Deed>, Stop>
    ensures reads { (us : Updates) (rest : List Token) → GoodUpdates us → reader.old.ahead ≡ onto_updates us rest
        → AfterList (first_kind rest)
        → Answers (λ deeds r. WereChanged reader.old.integers reader.old.variables rest reader.old reader.new
        known.new [] deeds.items r) result
        (read_updates reader.old.integers (line_at reader.old.text) reader.old.variables known.old us) }
    ensures shorter { OnOk result (length reader.new.ahead ≤ length reader.old.ahead) }
{
    if !has_change(reader) {
        return Ok(Vec::new(reader.alloc()));
    }
    let mut deeds = update(reader, known)?;
    more_updates(reader, known, &mut deeds)?;
    Ok(deeds)
}
