//! The integers by which a function computes.

ghost use Rattle.std.specs.Prelude.{◌≡◌};
ghost use Rattle.base_integers.specs.Integers.{greatest};

/// How many bits a machine's integers have, in two's complement.
#[derive(Clone, Copy, Debug, PartialEq, Eq)]
pub enum Width {
    Bits8,
    Bits16,
    Bits32,
}

impl Width {
    /// The greatest of these integers; the least one is its opposite less 1.
    pub fn greatest(self) -> u32
        ensures { result ≡ greatest self }
    {
        match self {
            Width::Bits8 => 127,
            Width::Bits16 => 32_767,
            Width::Bits32 => 2_147_483_647,
        }
    }
}

/// The integers by which a function computes (docs/MEANING.md, "Machine integers").
#[derive(Clone, Copy, Debug, PartialEq, Eq)]
pub enum Integers {
    /// All of them: no result is too large.
    Mathematical,
    /// Those of a machine: an operation whose exact result isn't one of them has no value.
    Machine(Width),
}
