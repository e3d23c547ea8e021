//! Signs.

ghost use Rattle.std.specs.Prelude.{◌≡◌, length};
ghost use Rattle.lang_tokens.specs.Signs.{sign_bytes};

/// A sign, by the bytes that spell it.
#[derive(Clone, Copy, Debug, PartialEq, Eq)]
pub enum Sign {
    /// `(`
    LeftParen,
    /// `)`
    RightParen,
    /// `{`
    LeftBrace,
    /// `}`
    RightBrace,
    /// `,`
    Comma,
    /// `;`
    Semicolon,
    /// `:`
    Colon,
    /// `=`
    Assign,
    /// `+=`
    PlusAssign,
    /// `-=`
    MinusAssign,
    /// `++`
    Increment,
    /// `--`
    Decrement,
    /// `+`
    Plus,
    /// `-`
    Minus,
    /// `*`
    Star,
    /// `!`
    Bang,
    /// `<`
    Less,
    /// `<=`
    LessEqual,
    /// `>`
    Greater,
    /// `>=`
    GreaterEqual,
    /// `==`
    EqualEqual,
    /// `!=`
    BangEqual,
    /// `&&`
    AndAnd,
    /// `||`
    OrOr,
    /// `/`, where it starts no comment
    Slash,
    /// `%`
    Percent,
    /// `?`
    Question,
    /// `[`
    LeftBracket,
    /// `]`
    RightBracket,
    /// `*=`
    StarAssign,
    /// `/=`
    SlashAssign,
    /// `%=`
    PercentAssign,
}

impl Sign {
    /// How many bytes spell it.
    pub fn width(self) -> usize
        ensures { result ≡ length (sign_bytes self) }
    {
        match self {
            Sign::PlusAssign
            | Sign::MinusAssign
            | Sign::Increment
            | Sign::Decrement
            | Sign::LessEqual
            | Sign::GreaterEqual
            | Sign::EqualEqual
            | Sign::BangEqual
            | Sign::AndAnd
            | Sign::OrOr
            | Sign::StarAssign
            | Sign::SlashAssign
            | Sign::PercentAssign => 2,
            _ => 1,
        }
    }
}
