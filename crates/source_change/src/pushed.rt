//! Deeds behind others, and as statements.

ghost use Rattle.std.specs.Prelude.{◌≡◌, ◌++◌, ℕ, OnOk};
ghost use Rattle.lang_tree.specs.Tree.{nil, statement_by};
ghost use Rattle.lang_tree.specs.View.{deed_of, deeds_of, statement_of, statements_of};
ghost use Rattle.source_tree.specs.Expressions.{Expressions};
ghost use Rattle.source_tree.specs.Statements.{evaluates};
ghost use Rattle.source_core.specs.Core.{followed_by, behind};
ghost use Rattle.source_core.specs.Elaborated.{evaluated};
ghost use Rattle.source_meaning.specs.Statements.{read_evaluated};
ghost use Rattle.source_value.specs.Stands.{StandsEvaluated};
ghost use Rattle.source_reader.specs.Answers.{Answers};
ghost use Rattle.source_change.specs.Pushed.{WasEvaluated};

use crate::limits::evaluated;
use lang_tree::{Deed, Stmt};
use source_names::Known;
use source_reader::Stop;
use source_value::{Evaluated, Site};
use std::alloc::AllocError;

// The deeds, behind those that are there.
pub(crate) fn append(deeds: &mut Vec<Deed>, more: Vec<Deed>) -> Result<(), AllocError>
    ensures { OnOk result (deeds_of deeds.new.items ≡ deeds_of deeds.old.items ++ deeds_of more.items) }
{
    for deed in more {
        deeds.push(deed)?;
    }
    Ok(())
}

fn statement_by(deed: Deed) -> Stmt
    ensures { statement_of result ≡ statement_by (deed_of deed) }
{
    match deed {
        Deed::Set { var, form, line } => Stmt::Set { var, form, line },
        Deed::Havoc { var, line } => Stmt::Havoc { var, line },
        Deed::Where { cond, line } => Stmt::Where { cond, line },
        Deed::Check { check, cond, line } => Stmt::Check { check, cond, line },
    }
}

/// The deeds as statements, behind those that are there.
pub fn push_deeds(out: &mut Vec<Stmt>, deeds: Vec<Deed>) -> Result<(), AllocError>
    ensures { OnOk result (statements_of out.new.items ≡ followed_by (statements_of out.old.items) (behind (deeds_of deeds.items) nil)) }
{
    for deed in deeds {
        out.push(statement_by(deed))?;
    }
    Ok(())
}

/// What the statement that begins at `at` evaluates, without use of its value, as statements behind those that are there; they are counted.
pub fn push_evaluated(
    known: &mut Known,
    site: Site,
    at: u32,
    all: Evaluated,
    out: &mut Vec<Stmt>,
) -> Result<(), Stop>
    ensures { (line : ℕ → ℕ) (es : Expressions) → site.line ≡ line at
        → StandsEvaluated site.variables all (evaluated site.integers (line at) es site.variables)
        → Answers (λ _ r. WasEvaluated site.integers site.variables known.new out.old.items out.new.items r) result
        (read_evaluated site.integers line site.variables known.old at (evaluates es (line at))) }
{
    let deeds = evaluated(site, at, all)?;
    known.count(at, deeds.len())?;
    push_deeds(out, deeds)?;
    Ok(())
}
