//! The anchors of a function: each token is given to the search (`search.rt`), whose goals are in `goal.rt`.

ghost use Rattle.std.specs.Prelude.{◌≡◌, ◌≤◌, IfOk, List, length, slice_range};
ghost use Rattle.base_limits.specs.declared.limits.TheConstants.{MOST_PROGRAM_BYTES};
ghost use Rattle.lang_tokens.specs.TokenLists.{AreTokensOf};
ghost use Rattle.source_grammar.specs.Grammar.{Function, Reads};
ghost use Rattle.source_tokens.specs.View.{tokens_of};
ghost use Rattle.source_tokens.specs.declared.definition.Definition.{Definition};
ghost use Rattle.acsl_anchors.specs.Anchors.{anchors_of};
ghost use Rattle.acsl_anchors.specs.View.{plain_anchors};

use crate::anchor::Anchor;
use crate::part::part_seen;
use crate::search::Search;
use lang_tokens::Token;
use std::alloc::{AllocError, Global};

/// The anchors of the function that the tokens of a text from `first` up to `end` read as, in the order of the text: its loops, its labels
/// and its end (docs/MEANING.md, "Annotations").
///
/// Where they read as no function, whatever the names stand for, the answer says nothing.
pub fn anchors(
    alloc: Global,
    tokens: &[Token],
    text: &[u8],
    first: usize,
    end: usize,
) -> Result<Vec<Anchor>, AllocError>
    requires size { length text.now ≤ MOST_PROGRAM_BYTES }
    requires tokens { AreTokensOf text.now tokens.now }
    requires order { first ≤ end }
    requires within { end ≤ length tokens.now }
    ensures { (constants : List Definition) (f : Function)
        → Reads (tokens_of constants text.now (slice_range tokens.now first end)) f →
        IfOk result (λ anchors. anchors.items ≡ plain_anchors (anchors_of f)) }
{
    let mut search = Search::new(alloc)?;
    let inner = &tokens[first..end];
    for token in inner {
        search.take(&part_seen(text, token), token.at)?;
    }
    Ok(search.into_anchors())
}
