// What an operation answers where its result does not fit.

/// An operation of an ordered field.
#[derive(Clone, Copy, PartialEq, Eq, Debug, Drop)]
pub enum Op {
    Add,
    Sub,
    Mul,
    Div,
}

/// An operation whose exact result has a part above the limit, with its two operands.
#[derive(Clone, Copy, PartialEq, Eq, Debug, Drop)]
pub struct Wide<F> {
    pub op: Op,
    pub left: F,
    pub right: F,
}
