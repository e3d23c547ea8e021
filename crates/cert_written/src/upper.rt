//! The evidence of upper bounds in a certificate.

use crate::entries::Entries;
use base_list::Sequence;

/// Evidence that an edge leads to at most the bound of an unknown at its end. Multipliers are one for each row of the
/// template and one for each guard of the edge, in order; rows are numbered from 0.
#[derive(Drop)]
pub enum Upper {
    /// This row has the bound `-inf` at the edge's source, so nothing starts there.
    Unreached { row: u32 },
    /// The rows and guards, so often taken, have no solution.
    Empty { rows: Entries, guards: Entries },
    /// The rows and guards, so often taken, give the bound.
    Bound { rows: Entries, guards: Entries },
}

/// Evidence in order.
pub type Uppers = Sequence<Upper>;
