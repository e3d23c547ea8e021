//! The columns of one listed unknown in a joint problem.

/// The columns of one listed unknown in the joint problem of a list: of all `cols` columns the first are the rises of the list,
/// in order, and from `offset` behind them on stand the split columns of the unknown's picked edge.
#[derive(Drop)]
pub(crate) struct Span<'a> {
    pub list: &'a [u32],
    pub offset: usize,
    pub cols: usize,
}
