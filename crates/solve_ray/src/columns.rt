//! Columns of a linear problem.

use base_list::Sequence;

/// The numbers of columns, counted from 0, in order.
pub type Columns = Sequence<u32>;
