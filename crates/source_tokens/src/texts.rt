//! The bytes of tokens, and those that are names.

ghost use Rattle.std.specs.Prelude.{◌≡◌, ◌≤◌, ◌+◌, length};
ghost use Rattle.source_tokens.specs.Texts.{IsNaming, IsTokenIn};
ghost use Rattle.source_tokens.specs.View.{bytes_of};

use lang_tokens::Token;
use lang_tree::Name;

/// The bytes of a token of a text.
pub fn bytes_of<'a>(text: &'a [u8], token: &Token) -> &'a [u8]
    requires { token.now.at + token.now.len ≤ length text.now }
    ensures { result.now ≡ bytes_of text.now token.now }
{
    let at = token.at as usize;
    &text[at..at + token.len as usize]
}

/// The word that a token of a text is: a name, or one that is reserved; in a directive or not.
pub fn name_of(text: &[u8], token: &Token) -> Name
    requires token { IsTokenIn text.now token.now }
    requires name { IsNaming token.now.kind }
    ensures { result ≡ bytes_of text.now token.now }
{
    Name::new(bytes_of(text, token)).unwrap()
}
