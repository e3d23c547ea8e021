//! Certificates.

use crate::step::Steps;
use crate::upper::Uppers;
use base_list::Sequence;
use flow_systems::Bounds;
use lang_tree::Coeffs;

/// Rows of a template in order, none or as many as there are.
pub type Rows = Sequence<Coeffs>;

/// A certificate of least bounds: the rows of the template; the bounds, point after point, one for each row; steps that
/// lead to them from the start; and evidence that no edge leads above them.
///
/// Anything of this type is a certificate; whether it is valid for a system is another matter.
#[derive(Drop)]
pub struct Cert {
    pub rows: Rows,
    pub bounds: Bounds,
    pub steps: Steps,
    pub uppers: Uppers,
}
