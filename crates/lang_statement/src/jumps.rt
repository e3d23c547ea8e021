//! The nodes of statements that are one or two tokens.
#![tactic(auto, using(lang_meaning::proofs::results::Binds::then_ok, lang_meaning::proofs::results::Binds::then_err))]

ghost use Rattle.std.specs.Prelude.{◌≡◌, IfOk};
ghost use Rattle.lang_grammar.specs.Symbols.{direction_of, jump_of};
ghost use Rattle.lang_tokens.specs.Lines.{line_at};
ghost use Rattle.lang_tree.specs.Tree.{jump};
ghost use Rattle.lang_tree.specs.View.{statement_of, statements_of};
ghost use Rattle.lang_meaning.specs.Walk.{step_node, jump_kind};

use lang_grammar::{Direction, Jump};
use lang_reader::{Source, one, variable_form};
use lang_tokens::line_of;
use lang_tree::Stmt;
use std::alloc::AllocError;

// The node of `++` or `--`.
pub(crate) fn step_node(
    source: &Source,
    direction: Direction,
    var: u32,
    place: u32,
) -> Result<Vec<Stmt>, AllocError>
    ensures { IfOk result (λ nodes. statements_of nodes.items
        ≡ step_node (line_at source.now.text.now) source.now.width (direction_of direction) var place) }
{
    let constant = match direction {
        Direction::Up => 1,
        Direction::Down => -1,
    };
    let form = variable_form(source.alloc, source.width, var, constant)?;
    let line = line_of(source.text, place);
    one(source.alloc, Stmt::Set { var, form, line })
}

// The node of `break` or `continue`.
pub(crate) fn jump_node(kind: Jump, line: u32) -> Stmt
    ensures { statement_of result ≡ jump (jump_kind (jump_of kind)) line }
{
    match kind {
        Jump::Breaks => Stmt::Break { line },
        Jump::Continues => Stmt::Continue { line },
    }
}
