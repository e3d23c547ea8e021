//! What a token is to the groups of an expression.

/// What a token is to the groups of an expression. Other tokens, as numbers and the signs of sums, are nothing to them.
#[derive(Clone, Copy, Debug, PartialEq, Eq)]
pub enum Mark {
    /// A variable, by its number.
    Variable(u32),
    /// A bracket that opens, of any kind.
    Opens,
    /// A bracket that closes.
    Closes,
    /// The sign of a comparison.
    Compares,
    /// A sign that holds looser than a comparison: `,`, `&&`, `||`, `?`, `:` or `=`.
    Parts,
}
