//! Numbers that are counted no further than they matter.

ghost use Rattle.std.specs.Prelude.{◌≡◌, ◌+◌, ◌*◌, ◌≤◌, min};

use crate::limits::MOST_EDGES;

/// Where counting stops: one more than a program may have edges, and more than a condition may have cases.
pub(crate) const ENOUGH: u32 = MOST_EDGES + 1;

/// The sum.
pub(crate) fn sum(a: u32, b: u32) -> u32
    requires a { a ≤ ENOUGH }
    requires b { b ≤ ENOUGH }
    ensures { result ≡ min (a + b) ENOUGH }
{
    (a + b).min(ENOUGH)
}

/// The product.
pub(crate) fn product(a: u32, b: u32) -> u32
    requires a { a ≤ ENOUGH }
    requires b { b ≤ ENOUGH }
    ensures { result ≡ min (a * b) ENOUGH }
{
    (a * b).min(ENOUGH)
}
