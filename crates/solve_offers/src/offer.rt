//! Offers.

ghost use Rattle.std.specs.Prelude.{◌≡◌, ◌↔◌, length, IsTrue};
ghost use Rattle.base_numbers.specs.Extended.{◌<ᴱ◌};
ghost use Rattle.base_fractions.specs.Extended.{extended};

use base_fractions::Ext;
use base_list::Sequence;
use flow_systems::Bounds;

/// Numbers of edges in order.
pub type EdgeNumbers = Sequence<u32>;

/// Transformers in order: the bounds that edges give an unknown.
pub type Values = Bounds;

/// What the edges into a point offer an unknown: its bound, the numbers of these edges, and beside each the edge's
/// transformer of the unknown's row.
#[derive(Drop)]
pub struct Offer {
    pub bound: Ext,
    pub edges: EdgeNumbers,
    pub values: Values,
    pub ghost beside: { length edges ≡ length values },
}

/// Whether a value exceeds a bound. Takes no memory.
pub fn exceeds(value: Ext, bound: Ext) -> bool
    ensures { IsTrue result ↔ (extended bound <ᴱ extended value) }
{
    bound < value
}

impl Offer {
    ghost use Rattle.solve_offers.specs.Offers.{SomeExceeds};

    /// Whether some value exceeds the bound. Takes no memory.
    pub fn some_exceeds(&self) -> bool
        ensures { IsTrue result ↔ SomeExceeds self.now }
    {
        for value in self.values.as_slice() {
            if exceeds(*value, self.bound) {
                return true;
            }
        }
        false
    }
}
