//! What the fields of a certificate are read under.

use base_list::Sequence;
use cert_written::Trace;

/// Traces in order, numbered from 0.
pub(crate) type Traces = Sequence<Trace>;

/// What the fields of a certificate are read under: how many rows the template has; the traces that items name by their
/// numbers, or `None` where traces stand in their places; and whether lists of fractions are without zeros.
#[derive(Drop)]
pub(crate) struct Setting {
    pub(crate) rows: usize,
    pub(crate) traces: Option<Traces>,
    pub(crate) sparse: bool,
}
