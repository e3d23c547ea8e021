//! Tokens that may stand in no function.

ghost use Rattle.std.specs.Prelude.{◌≡◌};
ghost use Rattle.source_tokens.specs.Texts.{AreTokensIn, IsTokenIn};
ghost use Rattle.source_file.specs.Meaning.{first_outside, outside, unless_macro};

use crate::fault::SourceFault;
use lang_tokens::{Kind, Token};
use source_constants::is_macro;
use source_tokens::Definition;

// A token that is one of code of a function, unless it is a macro.
fn unless_macro(definitions: &[Definition], text: &[u8], token: &Token) -> Option<SourceFault>
    requires { IsTokenIn text.now token.now }
    ensures { result ≡ unless_macro definitions.now text.now token.now }
{
    if is_macro(definitions, text, token) {
        Some(SourceFault::Macro { at: token.at })
    } else {
        None
    }
}

// Why a token may stand in no function.
fn outside(definitions: &[Definition], text: &[u8], token: &Token) -> Option<SourceFault>
    requires { IsTokenIn text.now token.now }
    ensures { result ≡ outside definitions.now text.now token.now }
{
    match token.kind {
        Kind::Foreign(foreign) => Some(SourceFault::Foreign {
            at: token.at,
            foreign,
        }),
        _ => unless_macro(definitions, text, token),
    }
}

/// Why the first of these tokens may stand in no function that may not.
pub(crate) fn first_outside(
    definitions: &[Definition],
    text: &[u8],
    tokens: &[Token],
) -> Option<SourceFault>
    requires { AreTokensIn text.now tokens.now }
    ensures { result ≡ first_outside definitions.now text.now tokens.now }
{
    for token in tokens {
        let fault = outside(definitions, text, token);
        if fault.is_some() {
            return fault;
        }
    }
    None
}
