//! The nodes of `assume` and `assert`.

ghost use Rattle.std.specs.Prelude.{◌≡◌, IfOk};
ghost use Rattle.lang_grammar.specs.Symbols.{demand_of};
ghost use Rattle.lang_tokens.specs.Lines.{line_at};
ghost use Rattle.lang_tree.specs.View.{condition_of, statements_of};
ghost use Rattle.lang_meaning.specs.Walk.{demanded};

use lang_grammar::Demand;
use lang_reader::{Source, one};
use lang_tokens::line_of;
use lang_tree::{Check, CheckKind, Cond, Stmt};
use std::alloc::AllocError;

// The nodes of the `assume` or `assert` at `place` with this condition.
pub(crate) fn demanded(
    source: &Source,
    demand: Demand,
    place: u32,
    cond: Cond,
) -> Result<Vec<Stmt>, AllocError>
    ensures { IfOk result (λ nodes. statements_of nodes.items
        ≡ demanded (line_at source.now.text.now) (demand_of demand) place (condition_of cond)) }
{
    let line = line_of(source.text, place);
    match demand {
        Demand::Assumes => one(source.alloc, Stmt::Assume { cond, line }),
        Demand::Asserts => {
            let check = Check {
                kind: CheckKind::Assert,
                at: place,
            };
            let again = cond.again(source.alloc)?;
            let mut nodes = Vec::new(source.alloc);
            nodes.push(Stmt::Check { check, cond, line })?;
            nodes.push(Stmt::Where { cond: again, line })?;
            Ok(nodes)
        }
    }
}
