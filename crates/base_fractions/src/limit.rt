// How large the parts of a fraction may be.

/// The greatest number that a numerator, apart from its sign, or a denominator may be.
pub trait Limit: Copy {
    ghost use Rattle.std.specs.Prelude.{ℤ, pos, ◌≤ℤ◌};

    ghost LIMIT: { ℤ };

    ghost limit_low: { pos 2 ≤ℤ LIMIT };

    ghost limit_high: { LIMIT ≤ℤ pos 9223372036854775807 };

    const LIMIT: i64;
}

/// The limit of `Frac`: the greatest number of an `i64`.
#[derive(Clone, Copy, PartialEq, Eq, Hash, Debug, Drop)]
pub struct LongLimit {}

impl Limit for LongLimit {
    ghost use Rattle.std.specs.Prelude.{pos};
    ghost use lib.Signed.{le_z_yes};

    ghost LIMIT = { pos 9223372036854775807 };

    ghost limit_low = { le_z_yes tt };

    ghost limit_high = { le_z_yes tt };

    const LIMIT: i64 = 9223372036854775807;
}

/// The limit of `Short`: the greatest number of an `i16`.
#[derive(Clone, Copy, PartialEq, Eq, Hash, Debug, Drop)]
pub struct ShortLimit {}

impl Limit for ShortLimit {
    ghost use Rattle.std.specs.Prelude.{pos};
    ghost use lib.Signed.{le_z_yes};

    ghost LIMIT = { pos 32767 };

    ghost limit_low = { le_z_yes tt };

    ghost limit_high = { le_z_yes tt };

    const LIMIT: i64 = 32767;
}
