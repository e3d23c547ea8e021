//! Where an expression stands: the names that are known, and the tokens around it.

ghost use Rattle.std.specs.Prelude.{◌≡◌, ◌≤◌, ◌++◌, length, count_by, nat_eq, List, map, Option};
ghost use Rattle.std.specs.Option.{option_map};
ghost use Rattle.base_limits.specs.declared.limits.TheConstants.{MOST_PROGRAM_BYTES};
ghost use Rattle.source_tree.specs.Extents.{extent_of};
ghost use Rattle.source_meaning.specs.Names.{State, among, passable, is_named, stepped_of, variable_of, array_of, as_called};
ghost use Rattle.source_meaning.specs.Names.{thing_of as spelled_thing};
ghost use Rattle.source_names.specs.Entries.{named, thing_of};
ghost use Rattle.source_names.specs.Gives.{seen};
ghost use Rattle.source_tokens.specs.Texts.{AreTokensIn, IsTokenIn};
ghost use Rattle.source_tokens.specs.View.{token_of, tokens_of};

use lang_tokens::{Kind, Token};
use source_meaning::FunctionFault;
use source_names::{Known, Thing};
use source_tokens::{Definition, bytes_of, constant_of};
use source_tree::Extent;
use std::marker::Model;

/// Where an expression stands: the names that are known there, and the tokens of the change, the declarator, the condition or the call
/// around it, among which the name of a variable that is stepped stands once (docs/MEANING.md, "Functions of C"). Contracts see what has
/// been met, with these tokens where C comes to each step in the expression, and with none where it may pass over one.
#[derive(Drop)]
pub struct Scope<'a> {
    known: &'a Known,
    text: &'a [u8],
    definitions: &'a [Definition],
    around: &'a [Token],
    is_certain: bool,
}

impl<'a> Model for Scope<'a> {
    ghost use Rattle.std.specs.Prelude.{◌≤◌, length, Some, None, if◌then◌else◌};
    ghost use Rattle.base_limits.specs.declared.limits.TheConstants.{MOST_PROGRAM_BYTES};
    ghost use Rattle.source_meaning.specs.Names.{State};
    ghost use Rattle.source_tokens.specs.View.{tokens_of};
    ghost use Rattle.source_tokens.specs.Texts.{AreTokensIn};

    ghost Value = { State };

    ghost view = { λ s. record s.known.now {
      around = if s.is_certain then Some (tokens_of s.definitions.now s.text.now s.around.now) else None;
    } };

    ghost invariant = { λ s. (length s.text.now ≤ MOST_PROGRAM_BYTES) × AreTokensIn s.text.now s.around.now };
}

// Whether a token is this name, where that is no constant.
fn is_named(name: &[u8], text: &[u8], definitions: &[Definition], token: &Token) -> bool
    requires { IsTokenIn text.now token.now }
    ensures { result ≡ is_named name.now (token_of definitions.now text.now token.now) }
{
    match token.kind {
        Kind::Name => {
            let bytes = bytes_of(text, token);
            bytes == name && constant_of(definitions, bytes, token.at).is_none()
        }
        _ => false,
    }
}

// Whether a name stands once among these tokens of a text.
fn stands_once(name: &[u8], text: &[u8], definitions: &[Definition], tokens: &[Token]) -> bool
    requires { AreTokensIn text.now tokens.now }
    ensures { result ≡ nat_eq (count_by (is_named name.now) (tokens_of definitions.now text.now tokens.now)) 1 }
{
    let mut count: usize = 0;
    for token in tokens {
        if is_named(name, text, definitions, token) {
            count += 1;
        }
    }
    count == 1
}

impl<'a> Scope<'a> {
    // Among these tokens of a text, where names are defined so.
    pub(crate) fn new(
        known: &'a Known,
        text: &'a [u8],
        definitions: &'a [Definition],
        around: &'a [Token],
    ) -> Self
        requires few { length text.now ≤ MOST_PROGRAM_BYTES }
        requires placed { AreTokensIn text.now around.now }
        ensures { result ≡ among (tokens_of definitions.now text.now around.now) known.now }
    {
        Scope {
            known,
            text,
            definitions,
            around,
            is_certain: true,
        }
    }

    /// The same where C may pass over the expression: the right side of `&&` or `||`, and both sides behind a `?`.
    pub fn passable(&self) -> Scope<'a>
        ensures { result ≡ passable self.now }
    {
        Scope {
            known: self.known,
            text: self.text,
            definitions: self.definitions,
            around: self.around,
            is_certain: false,
        }
    }

    /// What a name is, if it is known.
    pub fn thing(&self, name: &[u8], value: Option<i64>) -> Option<Thing<'a>>
        ensures { option_map thing_of result ≡ spelled_thing (named name.now value) self.now }
    {
        self.known.thing(name, value)
    }

    /// The variable with this name, which stands at `at`.
    pub fn variable(&self, name: &[u8], value: Option<i64>, at: u32) -> Result<u32, FunctionFault>
        ensures { result ≡ variable_of (named name.now value) at self.now }
    {
        self.known.variable(name, value, at)
    }

    /// The variable with this name, which stands at `at` and is stepped by the sign at `sign`: the name stands nowhere else around it, and
    /// C comes to the step.
    pub fn stepped(
        &self,
        name: &[u8],
        value: Option<i64>,
        at: u32,
        sign: u32,
    ) -> Result<u32, FunctionFault>
        ensures { result ≡ stepped_of (named name.now value) at sign self.now }
    {
        let number = self.known.variable(name, value, at)?;
        if self.is_certain && stands_once(name, self.text, self.definitions, self.around) {
            Ok(number)
        } else {
            Err(FunctionFault::SideEffect { at: sign })
        }
    }

    /// The extents of the array with this name, which has `count` indexes where it stands, at `at`.
    pub fn array(
        &self,
        name: &[u8],
        value: Option<i64>,
        at: u32,
        count: usize,
    ) -> Result<&'a [Extent], FunctionFault>
        ensures { seen (λ extents. map extent_of extents.now) result ≡ array_of (named name.now value) at count self.now }
    {
        self.known.array(name, value, at, count)
    }

    /// The name at `at` may be called: it is no variable and no array that is known, and no constant.
    pub fn called(&self, name: &[u8], value: Option<i64>, at: u32) -> Result<(), FunctionFault>
        ensures { result ≡ as_called at (spelled_thing (named name.now value) self.now) tt }
    {
        self.known.called(name, value, at)
    }
}
