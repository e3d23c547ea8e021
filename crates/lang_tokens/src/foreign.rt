//! Signs that only C has.

ghost use Rattle.std.specs.Prelude.{◌≡◌, length};
ghost use Rattle.lang_tokens.specs.Signs.{foreign_bytes, is_second_spelling};

/// A sign of C that the language lacks, by the bytes that spell it.
#[derive(Clone, Copy, Debug, PartialEq, Eq)]
pub enum ForeignSign {
    /// `.`
    Dot,
    /// `->`
    Arrow,
    /// `&`
    And,
    /// `|`
    Or,
    /// `^`
    Caret,
    /// `~`
    Tilde,
    /// `<<`
    ShiftLeft,
    /// `>>`
    ShiftRight,
    /// `...`
    Ellipsis,
    /// `&=`
    AndAssign,
    /// `|=`
    OrAssign,
    /// `^=`
    CaretAssign,
    /// `<<=`
    ShiftLeftAssign,
    /// `>>=`
    ShiftRightAssign,
    /// `<:`, a second spelling of `[`
    LessColon,
    /// `:>`, a second spelling of `]`
    ColonGreater,
    /// `<%`, a second spelling of `{`
    LessPercent,
    /// `%>`, a second spelling of `}`
    PercentGreater,
    /// `%:`, a second spelling of `#`
    PercentColon,
}

impl ForeignSign {
    /// How many bytes spell it.
    pub fn width(self) -> usize
        ensures { result ≡ length (foreign_bytes self) }
    {
        match self {
            ForeignSign::Dot
            | ForeignSign::And
            | ForeignSign::Or
            | ForeignSign::Caret
            | ForeignSign::Tilde => 1,
            ForeignSign::Ellipsis | ForeignSign::ShiftLeftAssign | ForeignSign::ShiftRightAssign =>
                3,
            _ => 2,
        }
    }

    /// Whether it is a second spelling of another sign.
    pub fn is_second_spelling(self) -> bool
        ensures { result ≡ is_second_spelling self }
    {
        matches!(
            self,
            ForeignSign::LessColon
                | ForeignSign::ColonGreater
                | ForeignSign::LessPercent
                | ForeignSign::PercentGreater
                | ForeignSign::PercentColon
        )
    }
}
