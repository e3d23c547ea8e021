//! The groups of a function: the file tells which of its tokens the function is, and these give the groups.

ghost use Rattle.std.specs.Prelude.{◌≡◌, ◌≤◌, ◌++◌, ◌∷◌, [], List, length, Ok, Err, IfOk, IfErr};
ghost use Rattle.std.specs.Option.{option_copied};
ghost use Rattle.base_limits.specs.declared.limits.TheConstants.{MOST_PROGRAM_BYTES};
ghost use Rattle.lang_tokens.specs.declared.token.Token.{Token as Lexed};
ghost use Rattle.lang_tokens.specs.Reading.{end_at};
ghost use Rattle.lang_tokens.specs.TokenLists.{AreTokensOf};
ghost use Rattle.lang_tree.specs.declared.limits.TheConstants.{MOST_VARIABLES};
ghost use Rattle.lang_groups.specs.Groups.{SameTogether};
ghost use Rattle.source_grammar.specs.Grammar.{Function, Reads};
ghost use Rattle.source_tokens.specs.Texts.{AreTokensIn};
ghost use Rattle.source_tokens.specs.View.{tokens_of};
ghost use Rattle.source_tree.specs.Statements.{Statements};
ghost use Rattle.source_file.specs.Meaning.{Means, item_of};
ghost use Rattle.source_file.specs.declared.fault.SourceFault.TheVariants.{NoMemory};
ghost use Rattle.source_packs.specs.Packs.{groups_of};
ghost use Rattle.source_groups.specs.Grouping.{AreGroups};

use base_integers::Integers;
use lang_groups::Groups;
use lang_tokens::Token;
use lang_tree::Name;
use source_file::{Chosen, SourceFault, defined};
use source_packs::groups as groups_in;
use std::alloc::{AllocError, Global};

// The groups of a function whose place is known.
fn grouped(
    alloc: Global,
    text: &[u8],
    chosen: &Chosen,
    names: &[Name],
) -> Result<Groups, AllocError>
    requires order { chosen.now.function.first ≤ chosen.now.function.end }
    requires within { chosen.now.function.end ≤ length chosen.now.code.items }
    requires tokens { AreTokensIn text.now chosen.now.code.items }
    requires few { length names.now ≤ MOST_VARIABLES }
    ensures { (f : Function)
        → Reads (tokens_of chosen.now.definitions.items text.now (item_of chosen.now.code.items chosen.now.function)) f →
        IfOk result (λ groups. SameTogether groups (groups_of names.now f)) }
{
    let code = chosen.code.as_slice();
    let item = &code[chosen.function.first..chosen.function.end];
    groups_in(alloc, text, item, chosen.definitions.as_slice(), names)
}

/// Which variables stand together in the function of a file that is asked about, or is meant where none is named: those of a comparison,
/// of a change and of a loop (docs/MEANING.md, "Variables that stand together"). `names` are its variables in order, by which groups count
/// them. The tokens are all those of C.
///
/// Faults of its grammar and behind it aren't looked for: where the function has one, groups say nothing.
pub fn groups(
    alloc: Global,
    tokens: &[Token],
    text: &[u8],
    asked: Option<&[u8]>,
    integers: Integers,
    names: &[Name],
) -> Result<Groups, SourceFault>
    requires size { length text.now ≤ MOST_PROGRAM_BYTES }
    requires tokens { AreTokensOf text.now tokens.now }
    requires few { length names.now ≤ MOST_VARIABLES }
    // Where the file means a function with these variables, the groups are its.
    ensures found { IfOk result (λ groups. (front : List Lexed) → front ++ end_at (length text.now) ∷ [] ≡ tokens.now
        → (body : Statements) → Means integers text.now (option_copied asked.entry) front (Ok (names.now, body))
        → AreGroups integers text.now (option_copied asked.entry) front names.now groups) }
    // A fault is that of the file.
    ensures fault { IfErr result (λ e. (e ≡ NoMemory → ⊥) → (front : List Lexed) → front ++ end_at (length text.now) ∷ [] ≡ tokens.now
        → Means integers text.now (option_copied asked.entry) front (Err e)) }
{
    let chosen = defined(alloc, tokens, text, asked, integers)?;
    Ok(grouped(alloc, text, &chosen, names)?)
}
