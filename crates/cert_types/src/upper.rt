//! The evidence of upper bounds in a certificate.

use base_list::Sequence;
use flow_systems::Fracs;

/// Evidence that an edge leads to at most the bound of an unknown at its end. Multipliers are one for each row of the
/// template and one for each guard of the edge, in order; rows are numbered from 0.
#[derive(Drop)]
pub enum Upper {
    /// This row has the bound `-inf` at the edge's source, so nothing starts there.
    Unreached { row: u32 },
    /// The rows and guards, so often taken, have no solution.
    Empty { rows: Fracs, guards: Fracs },
    /// The rows and guards, so often taken, give the bound.
    Bound { rows: Fracs, guards: Fracs },
}

/// Evidence in order.
pub type Uppers = Sequence<Upper>;
