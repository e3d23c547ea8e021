//! What the grammar sees of a token.

/// How two numbers are compared.
#[derive(Clone, Copy)]
pub enum Relation {
    Equal,
    Unequal,
    Less,
    AtMost,
    Greater,
    AtLeast,
}

/// A sign that stands between two sides.
#[derive(Clone, Copy)]
pub enum Op {
    Or,
    And,
    Compare(Relation),
    Plus,
    Minus,
    Times,
    Over,
    Remainder,
}

/// What an assignment does: `=`, `+=`, `-=`, `*=`, `/=`, `%=`.
#[derive(Clone, Copy)]
pub enum Change {
    Replaces,
    Adds,
    Subtracts,
    Multiplies,
    Divides,
    Remains,
}

/// `++` and `--`.
#[derive(Clone, Copy)]
pub enum Direction {
    Up,
    Down,
}

/// `break` and `continue`.
#[derive(Clone, Copy)]
pub enum Jump {
    Breaks,
    Continues,
}

/// `assume` and `assert`.
#[derive(Clone, Copy)]
pub enum Demand {
    Assumes,
    Asserts,
}

/// What a token is to the grammar, whatever its name, constant or number
/// (docs/MEANING.md, "Functions of C").
#[derive(Clone, Copy)]
pub enum Symbol {
    Name,
    Number,
    Infix(Op),
    Bang,
    Question,
    Colon,
    LeftParen,
    RightParen,
    LeftBrace,
    RightBrace,
    LeftBracket,
    RightBracket,
    Comma,
    Semicolon,
    Change(Change),
    Step(Direction),
    Int,
    Void,
    Main,
    /// `static`, `inline` or `extern`.
    Storage,
    /// `const` before `int`.
    Const,
    If,
    Else,
    While,
    Do,
    For,
    Jump(Jump),
    Return,
    Demand(Demand),
    Nondet,
    /// Whatever stands nowhere in a function.
    Other,
}

/// A token as the grammar sees it; `at` counts the bytes before it.
#[derive(Clone, Copy)]
pub struct Piece {
    pub symbol: Symbol,
    pub at: u32,
}
