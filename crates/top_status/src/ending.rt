//! How a command ends.

ghost use Rattle.std.specs.Prelude.{◌≡◌};

use crate::status::Status;

/// How a run ends, and what its message names (docs/FORMATS.md, "Messages").
#[derive(Clone, Copy, Drop)]
pub struct Ending {
    pub status: Status,
    /// The line of its cause in the text that was read, from 1; 0 where it has none.
    pub line: u32,
    /// The number of rows by which an unknown is numbered; 0 where none is named.
    pub rows: usize,
}

/// An ending that has no line and no unknown.
pub fn plain_ending(status: Status) -> Ending
    ensures status { result.status ≡ status }
    ensures line { result.line ≡ 0 }
    ensures rows { result.rows ≡ 0 }
{
    Ending {
        status,
        line: 0,
        rows: 0,
    }
}
