//! A reader of tokens.

ghost use Rattle.std.specs.Prelude.{◌≡◌, ◌≤◌, ◌++◌, ℕ, ℤ, pos, List, ◌∷◌, length, true, Option, Some, IsTrue, MatchResult};
ghost use Rattle.base_limits.specs.declared.limits.TheConstants.{MOST_PROGRAM_BYTES};
ghost use Rattle.lang_tokens.specs.Lines.{line_at};
ghost use Rattle.lang_tree.specs.Word.{is_word};
ghost use Rattle.source_grammar.specs.Tokens.{Name, Token as Spelled, token, a_name, left_bracket};
ghost use Rattle.source_grammar.specs.Grammar.{Expr, Update, Declarator, Subscripts, spell_expr, spell_update, spell_declarator};
ghost use Rattle.source_grammar.specs.Grammar.{spell_subscripts};
ghost use Rattle.source_grammar.specs.Symbols.{symbol_kind};
ghost use Rattle.source_grammar.specs.View.{plain_kind};
ghost use Rattle.source_tokens.specs.View.{bytes_of, kind_of, tokens_of};
ghost use Rattle.source_tokens.specs.Texts.{IsTokenIn, AreTokensIn};
ghost use Rattle.source_meaning.specs.Expressions.{subscript_count};
ghost use Rattle.source_meaning.specs.Names.{among};
ghost use Rattle.source_reader.specs.Units.{ends_unit};
ghost use Rattle.source_reader.specs.Marks.{mark_in};
ghost use Rattle.source_reader.specs.Reading.{behind_first, constant_in, first_kind, first_place, name_in, number_in, passed};
ghost use Rattle.source_reader.specs.declared.stop.Stop.TheVariants.{Unlike};

use crate::brackets::{Brackets, bracket_in};
use crate::lines::line_from;
use crate::mark::{Mark, mark_in};
use crate::scope::Scope;
use crate::stop::Stop;
use crate::units::unit_length;
use base_integers::Integers;
use lang_tokens::{Kind, Token};
use source_grammar::Symbol;
use source_names::Known;
use source_tokens::{Definition, bytes_of, constant_of, symbol_of};
use source_value::Site;
use std::alloc::Global;
use std::marker::Model;

/// The tokens of a function that are still to come. Contracts see the text, these tokens as the grammar does, with the numbers that names
/// stand for, the number of the function's variables, and the integers by which it computes (`specs/Reading.antt`).
#[derive(Drop)]
pub struct Reader<'a> {
    alloc: Global,
    text: &'a [u8],
    rest: &'a [Token],
    definitions: &'a [Definition],
    variables: u32,
    integers: Integers,
    // Where the last token stands that was passed, and its line.
    place: u32,
    line: u32,
}

impl<'a> Model for Reader<'a> {
    ghost use Rattle.std.specs.Prelude.{◌≡◌, ◌≤◌, length};
    ghost use Rattle.base_limits.specs.declared.limits.TheConstants.{MOST_PROGRAM_BYTES};
    ghost use Rattle.lang_tokens.specs.Lines.{line_at};
    ghost use Rattle.source_tokens.specs.View.{tokens_of};
    ghost use Rattle.source_tokens.specs.Texts.{AreTokensIn};
    ghost use Rattle.source_reader.specs.Reading.{Reading};

    ghost Value = { Reading };

    ghost view = { λ r. record {
      text = r.text.now;
      ahead = tokens_of r.definitions.now r.text.now r.rest.now;
      variables = r.variables;
      integers = r.integers;
    } };

    ghost invariant = { λ r. (length r.text.now ≤ MOST_PROGRAM_BYTES) × AreTokensIn r.text.now r.rest.now
        × (r.line ≡ line_at r.text.now r.place) };
}

// The bytes of a name; none of another token.
fn name_of<'a>(text: &'a [u8], token: &Token) -> &'a [u8]
    requires { IsTokenIn text.now token.now }
    ensures bytes { (value : Option ℤ) → result.now ≡ name_in (kind_of (bytes_of text.now token.now) value token.now.kind) }
    ensures word { (value : Option ℤ) (x : Name) → kind_of (bytes_of text.now token.now) value token.now.kind ≡ a_name x
        → IsTrue (is_word x.text) }
{
    match token.kind {
        Kind::Name => bytes_of(text, token),
        _ => &[],
    }
}

// The value of a number; 0 of another token.
fn value_of(token: &Token) -> i64
    ensures { (bytes : List ℕ) (value : Option ℤ) → result ≡ pos (number_in (kind_of bytes value token.now.kind)) }
{
    match token.kind {
        Kind::Number(number) if number >= 0 => number,
        _ => 0,
    }
}

impl<'a> Reader<'a> {
    /// Before the first of these tokens of a text, which are those of a function with so many variables that computes by these integers,
    /// where names are defined so, in the order of the text.
    pub fn new(
        alloc: Global,
        text: &'a [u8],
        tokens: &'a [Token],
        definitions: &'a [Definition],
        variables: u32,
        integers: Integers,
    ) -> Self
        requires few { length text.now ≤ MOST_PROGRAM_BYTES }
        requires placed { AreTokensIn text.now tokens.now }
        ensures { result ≡ record {
          text = text.now;
          ahead = tokens_of definitions.now text.now tokens.now;
          variables = variables;
          integers = integers;
        } }
    {
        Reader {
            alloc,
            text,
            rest: tokens,
            definitions,
            variables,
            integers,
            place: 0,
            line: 1,
        }
    }

    /// Where memory comes from.
    pub fn alloc(&self) -> Global {
        self.alloc
    }

    /// How many variables the function has, which is the number of the first hidden one.
    pub fn variables(&self) -> u32
        ensures { result ≡ self.now.variables }
    {
        self.variables
    }

    /// The integers by which it computes.
    pub fn integers(&self) -> Integers
        ensures { result ≡ self.now.integers }
    {
        self.integers
    }

    /// The line of the byte at a place, counted from 1; `at` counts the bytes before it.
    pub fn line(&self, at: u32) -> u32
        ensures { result ≡ line_at self.now.text at }
    {
        line_from(self.text, self.place, self.line, at)
    }

    /// The statement whose first token is at this place.
    pub fn site(&self, at: u32) -> Site
        ensures variables { result.variables ≡ self.now.variables }
        ensures line { result.line ≡ line_at self.now.text at }
        ensures integers { result.integers ≡ self.now.integers }
    {
        Site {
            variables: self.variables,
            line: self.line(at),
            integers: self.integers,
        }
    }

    /// What comes next, whatever its name or number; behind the last token nothing that stands in a function.
    pub fn symbol(&self) -> Symbol
        ensures { symbol_kind result ≡ plain_kind (first_kind self.now.ahead) }
    {
        match self.rest {
            [] => Symbol::Other,
            [first, ..] => symbol_of(first),
        }
    }

    /// What comes behind that, likewise.
    pub fn second(&self) -> Symbol
        ensures { symbol_kind result ≡ plain_kind (first_kind (behind_first self.now.ahead)) }
    {
        match self.rest {
            [_, second, ..] => symbol_of(second),
            _ => Symbol::Other,
        }
    }

    /// The place of what comes next: how many bytes stand before it. 0 behind the last token.
    pub fn at(&self) -> u32
        ensures { result ≡ first_place self.now.ahead }
    {
        match self.rest {
            [] => 0,
            [first, ..] => first.at,
        }
    }

    /// The bytes of the name that comes next, which are a word of 1 to 32 bytes; none where no name does.
    pub fn name(&self) -> &'a [u8]
        ensures bytes { result.now ≡ name_in (first_kind self.now.ahead) }
        ensures word { (x : Name) (at : ℕ) (ts : List Spelled) → self.now.ahead ≡ token (a_name x) at ∷ ts → IsTrue (is_word x.text) }
    {
        match self.rest {
            [] => &[],
            [first, ..] => name_of(self.text, first),
        }
    }

    /// The number that the name stands for that comes next; none where it is no constant, or no name comes next.
    pub fn constant(&self) -> Option<i64>
        ensures { result ≡ constant_in (first_kind self.now.ahead) }
    {
        match self.rest {
            [] => None,
            [first, ..] => match first.kind {
                Kind::Name => constant_of(self.definitions, name_of(self.text, first), first.at),
                _ => None,
            },
        }
    }

    /// The value of the number that comes next, at least 0; 0 where no number does.
    pub fn number(&self) -> i64
        ensures { result ≡ pos (number_in (first_kind self.now.ahead)) }
    {
        match self.rest {
            [] => 0,
            [first, ..] => value_of(first),
        }
    }

    /// How many indexes of an element come next, each in its brackets.
    pub fn subscripts(&self) -> usize
        ensures { (is : Subscripts) (ts : List Spelled) → self.now.ahead ≡ spell_subscripts is ++ ts
            → (first_kind ts ≡ left_bracket → ⊥) → result ≡ subscript_count is }
    {
        let mut brackets = Brackets {
            opened: 0,
            depth: 0,
        };
        for token in self.rest {
            match brackets.behind(bracket_in(symbol_of(token))) {
                Some(next) => brackets = next,
                None => return brackets.opened,
            }
        }
        brackets.opened
    }

    /// Where the expressions stand of what comes next, with the names that are known there: of an expression, which a condition and a call
    /// are, too, of a change, or of a declarator.
    pub fn scope<'k>(&self, known: &'k Known) -> Scope<'k>
    where
        'a: 'k,
        ensures expression { (e : Expr) (ts : List Spelled) → self.now.ahead ≡ spell_expr e ++ ts → ends_unit (first_kind ts) ≡ true
            → result ≡ among (spell_expr e) known.now }
        ensures change { (u : Update) (ts : List Spelled) → self.now.ahead ≡ spell_update u ++ ts → ends_unit (first_kind ts) ≡ true
            → result ≡ among (spell_update u) known.now }
        ensures declarator { (x : Declarator) (ts : List Spelled) → self.now.ahead ≡ spell_declarator x ++ ts
            → ends_unit (first_kind ts) ≡ true → result ≡ among (spell_declarator x) known.now }
    {
        let around = &self.rest[..unit_length(self.rest)];
        Scope::new(known, self.text, self.definitions, around)
    }

    /// Passes what comes next.
    pub fn skip(&mut self)
        ensures { self.new ≡ passed self.old }
    {
        if let [first, rest @ ..] = self.rest {
            self.line = self.line(first.at);
            self.place = first.at;
            self.rest = rest;
        }
    }

    /// Passes this sign or word, which has to come next, and tells its place. Where something else comes next, the reader stays.
    pub fn take(&mut self, mark: Mark) -> Result<u32, Stop>
        ensures { MatchResult result
            (λ at. (mark_in (first_kind self.old.ahead) ≡ Some mark) × (at ≡ first_place self.old.ahead) × (self.new ≡ passed self.old))
            (λ stop. (mark_in (first_kind self.old.ahead) ≡ Some mark → ⊥) × (stop ≡ Unlike) × (self.new ≡ self.old)) }
    {
        match mark_in(self.symbol()) {
            Some(found) if found == mark => {
                let at = self.at();
                self.skip();
                Ok(at)
            }
            _ => Err(Stop::Unlike),
        }
    }
}
