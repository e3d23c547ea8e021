//! How many elements arrays have.

ghost use Rattle.std.specs.Prelude.{◌≡◌};
ghost use Rattle.source_tree.specs.Extents.{extent_of};
ghost use Rattle.source_meaning.specs.Arrays.{sized_by};
ghost use Rattle.source_names.specs.Gives.{seen};

use source_meaning::FunctionFault;
use source_tree::Extent;

/// So many elements of an array, by the number or the constant at `at`: at least one, and at most 2^31 - 1.
pub fn sized(number: i64, at: u32) -> Result<Extent, FunctionFault>
    ensures { seen extent_of result ≡ sized_by at number }
{
    if 1 <= number && number <= i64::from(i32::MAX) {
        Ok(Extent::Elements(number as u32))
    } else {
        Err(FunctionFault::Array { at })
    }
}
