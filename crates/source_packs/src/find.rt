//! The groups of a function: each token is given to the search (`search.rt`), whose goals are in `goal.rt`.

ghost use Rattle.std.specs.Prelude.{◌≤◌, ◌<◌, IfOk, length};
ghost use Rattle.lang_groups.specs.Groups.{SameTogether};
ghost use Rattle.lang_tree.specs.declared.limits.TheConstants.{MOST_VARIABLES};
ghost use Rattle.source_grammar.specs.Grammar.{Function, Reads};
ghost use Rattle.source_tokens.specs.Texts.{AreTokensIn};
ghost use Rattle.source_tokens.specs.View.{tokens_of};
ghost use Rattle.source_packs.specs.Packs.{groups_of};

use crate::part::part_seen;
use crate::search::Search;
use lang_groups::{Groups, groups_of_marks, groups_of_tied_marks};
use lang_tokens::Token;
use lang_tree::Name;
use source_tokens::Definition;
use std::alloc::{AllocError, Global};

/// The groups of the function that tokens of a text read as, by these definitions and of the variables with these names: those of a
/// comparison, of a change and of a loop stand together (docs/MEANING.md, "Variables that stand together").
///
/// Where they read as no function, the answer says nothing.
pub fn groups(
    alloc: Global,
    text: &[u8],
    tokens: &[Token],
    constants: &[Definition],
    names: &[Name],
) -> Result<Groups, AllocError>
    requires tokens { AreTokensIn text.now tokens.now }
    requires few { length names.now ≤ MOST_VARIABLES }
    ensures { (f : Function) → Reads (tokens_of constants.now text.now tokens.now) f →
        IfOk result (λ groups. SameTogether groups (groups_of names.now f)) }
{
    let mut search = Search::new(alloc)?;
    for token in tokens {
        search.take(part_seen(text, constants, names, token))?;
    }
    groups_of_marks();
    groups_of_tied_marks();
    Ok(search.into_groups())
}
