//! Where the columns of a joint problem stand.

use crate::columns::Columns;
use base_list::Sequence;

/// The columns of one listed unknown: of its rise, and of its trace along the picked edge. Each start value and each free
/// value takes two columns, the positive part and then the negative part; `starts` and `frees` name the positive ones, in
/// order of the variables and of the free assignments. Columns are counted from 0.
#[derive(Drop)]
pub struct Rise {
    pub unknown: u32,
    pub col: u32,
    pub starts: Columns,
    pub frees: Columns,
}

/// The columns of listed unknowns, in order.
pub type Rises = Sequence<Rise>;

/// Where the columns of a joint problem stand: for each listed unknown, in order, those of its rise and of its trace.
#[derive(Drop)]
pub struct Layout {
    pub rises: Rises,
}
