//! The functions of a file that may be asked about.

ghost use Rattle.std.specs.Prelude.{◌≡◌, IfOk};
ghost use Rattle.source_tokens.specs.Texts.{AreTokensIn, IsTokenIn};
ghost use Rattle.source_file.specs.Functions.{named_by, defined_by, functions_of};

use lang_tokens::{Kind, Token, Word};
use lang_tree::Name;
use source_items::Item;
use source_tokens::name_of;
use std::alloc::{AllocError, Global};

/// A function with a body: an item of a file that may be asked about by its name (docs/MEANING.md, "Functions of C"). Tokens are
/// counted from 0.
#[derive(Drop)]
pub struct Defined {
    pub name: Name,
    /// How many bytes stand before its name.
    pub at: u32,
    /// Its first token.
    pub first: usize,
    /// The token behind its last one.
    pub end: usize,
}

// The function of an item whose name is this token, if it may be asked about.
fn named_by(text: &[u8], item: &Item, token: &Token) -> Option<Defined>
    requires { IsTokenIn text.now token.now }
    ensures { result ≡ named_by text.now item.now token.now }
{
    match token.kind {
        Kind::Name | Kind::Word(Word::Main) => Some(Defined {
            name: name_of(text, token),
            at: token.at,
            first: item.first,
            end: item.end,
        }),
        _ => None,
    }
}

// The function that an item is, if it is one.
fn defined_by(text: &[u8], tokens: &[Token], item: &Item) -> Option<Defined>
    requires { AreTokensIn text.now tokens.now }
    ensures { result ≡ defined_by text.now tokens.now item.now }
{
    let index = item.name?;
    let token = tokens.get(index)?;
    named_by(text, item, token)
}

/// The functions of items in order.
pub(crate) fn functions_of(
    alloc: Global,
    text: &[u8],
    tokens: &[Token],
    items: &[Item],
) -> Result<Vec<Defined>, AllocError>
    requires { AreTokensIn text.now tokens.now }
    ensures { IfOk result (λ functions. functions.items ≡ functions_of text.now tokens.now items.now) }
{
    let mut functions = Vec::new(alloc);
    for item in items {
        if let Some(function) = defined_by(text, tokens, item) {
            functions.push(function)?;
        }
    }
    Ok(functions)
}
