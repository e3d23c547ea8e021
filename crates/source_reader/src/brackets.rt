//! Brackets of elements, counted ahead.

ghost use Rattle.std.specs.Prelude.{◌≡◌, ◌+◌, ◌<◌, ◌^◌};
ghost use Rattle.source_grammar.specs.Symbols.{symbol_kind};
ghost use Rattle.source_reader.specs.Brackets.{bracket_in, Counts};

use source_grammar::Symbol;

/// What a token is to the brackets of elements.
#[derive(Clone, Copy)]
pub(crate) enum Bracket {
    Opens,
    Closes,
    Other,
}

// The bracket that a symbol is.
pub(crate) fn bracket_in(symbol: Symbol) -> Bracket
    ensures { result ≡ bracket_in (symbol_kind symbol) }
{
    match symbol {
        Symbol::LeftBracket => Bracket::Opens,
        Symbol::RightBracket => Bracket::Closes,
        _ => Bracket::Other,
    }
}

/// How many brackets have been opened outside of others, and how deep in them the next token stands.
#[derive(Clone, Copy)]
pub(crate) struct Brackets {
    pub opened: usize,
    pub depth: usize,
}

impl Brackets {
    /// Behind one more token; none where it stands behind the last bracket.
    pub fn behind(self, bracket: Bracket) -> Option<Brackets>
        requires { self.opened + self.depth + 1 < 2 ^ 64 }
        ensures { Counts self bracket result }
    {
        match bracket {
            Bracket::Opens if self.depth == 0 => Some(Brackets {
                opened: self.opened + 1,
                depth: 1,
            }),
            Bracket::Opens => Some(Brackets {
                opened: self.opened,
                depth: self.depth + 1,
            }),
            _ if self.depth == 0 => None,
            Bracket::Closes => Some(Brackets {
                opened: self.opened,
                depth: self.depth - 1,
            }),
            Bracket::Other => Some(self),
        }
    }
}
