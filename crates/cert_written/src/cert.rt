//! Certificates.

use crate::entries::Entries;
use crate::step::Steps;
use crate::upper::Uppers;
use base_list::Sequence;
use flow_systems::Bounds;

/// Rows of a template in order, none or as many as there are; their coefficients are whole numbers.
pub type Rows = Sequence<Entries>;

/// A certificate as a text has it: the rows of the template; the bounds, point after point, one for each row; steps that
/// lead to them from the start; and evidence that no edge leads above them.
#[derive(Drop)]
pub struct Cert {
    pub rows: Rows,
    pub bounds: Bounds,
    pub steps: Steps,
    pub uppers: Uppers,
}
