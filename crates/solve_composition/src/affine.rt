//! Affine forms over the columns of an edge.

use base_fractions::Frac;
use base_list::Sequence;
use flow_systems::Fracs;

/// A form over the columns of an edge, which are numbered from 0: one coefficient for each start variable, in order of
/// declaration, then one for each free value, in the order of the free assignments; and a constant.
#[derive(Drop)]
pub struct Affine {
    pub coeffs: Fracs,
    pub constant: Frac,
}

/// Forms in order.
pub type Affines = Sequence<Affine>;
