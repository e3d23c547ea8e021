//! What a token of a transition system is to its groups.

ghost use Rattle.std.specs.Prelude.{◌≡◌, ◌+◌, ◌<◌, ◌≤◌, ℕ, List, IfSome, length, slice_range};
ghost use Rattle.lang_grammar.specs.View.{sign_kind};
ghost use Rattle.lang_meaning.specs.Names.{place_of};
ghost use Rattle.lang_meaning.specs.Proper.{IsProper};
ghost use Rattle.flow_transitions.specs.declared.limits.TheConstants.{MOST_VARIABLES};
ghost use Rattle.flow_transitions.specs.AutoGrammar.{kind_here};
ghost use Rattle.flow_transitions.specs.AutoWalk.{named, turn_of};

use lang_groups::Mark;
use lang_tokens::{Kind, Sign, Token};
use lang_tree::Name;

/// What a token is to the groups of a transition system.
#[derive(Clone, Copy, Debug)]
pub(crate) enum Turn {
    /// Something to the groups of an expression.
    Takes(Mark),
    /// The `=` of an assignment.
    Assigns,
    /// What ends an act, or stands before one: `;` or `{`.
    Ends,
    /// Nothing.
    Passes,
}

/// What a token is to the groups over these variables.
pub(crate) fn turn_in(text: &[u8], token: Token, names: &[Name]) -> Turn
    requires proper { IsProper text.now token }
    requires names { length names.now ≤ MOST_VARIABLES }
    ensures { result ≡ turn_of names.now (kind_here (slice_range text.now token.at (token.at + token.len)) token.kind) }
{
    match token.kind {
        Kind::Name => variable(text, token, names),
        Kind::Sign(sign) => sign_turn(sign),
        _ => Turn::Passes,
    }
}

/// What a name is.
fn variable(text: &[u8], token: Token, names: &[Name]) -> Turn
    requires within { token.at + token.len ≤ length text.now }
    requires names { length names.now ≤ MOST_VARIABLES }
    ensures { result ≡ named (place_of (slice_range text.now token.at (token.at + token.len)) names.now) }
{
    let from = token.at as usize;
    match place_in(&text[from..from + token.len as usize], names) {
        Some(place) => Turn::Takes(Mark::Variable(place as u32)),
        None => Turn::Passes,
    }
}

/// The place of the first name with these bytes.
fn place_in(bytes: &[u8], names: &[Name]) -> Option<usize>
    ensures place { result ≡ place_of bytes.now names.now }
    ensures inside { IfSome result (λ place. place < length names.now) }
{
    names.iter().position(|name| bytes == name.bytes())
}

/// What a sign is.
fn sign_turn(sign: Sign) -> Turn
    ensures { (names : List (List ℕ)) → result ≡ turn_of names (sign_kind sign) }
{
    match sign {
        Sign::LeftParen => Turn::Takes(Mark::Opens),
        Sign::RightParen => Turn::Takes(Mark::Closes),
        Sign::Less => Turn::Takes(Mark::Compares),
        Sign::LessEqual => Turn::Takes(Mark::Compares),
        Sign::Greater => Turn::Takes(Mark::Compares),
        Sign::GreaterEqual => Turn::Takes(Mark::Compares),
        Sign::EqualEqual => Turn::Takes(Mark::Compares),
        Sign::BangEqual => Turn::Takes(Mark::Compares),
        Sign::AndAnd => Turn::Takes(Mark::Parts),
        Sign::OrOr => Turn::Takes(Mark::Parts),
        Sign::Assign => Turn::Assigns,
        Sign::Semicolon => Turn::Ends,
        Sign::LeftBrace => Turn::Ends,
        _ => Turn::Passes,
    }
}
