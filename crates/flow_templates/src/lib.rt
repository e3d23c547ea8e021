//! Templates: the linear forms whose bounds an analysis gives.
#![tactic(auto)]

mod domains;
mod fault;
mod file;
mod given;
mod law;
mod limits;
mod line;
mod row;
mod sums;
mod template;
mod term;

pub use domains::{add_signed_sums, interval_rows, intervals, multiple, octagons, zones};
pub use fault::RowFault;
pub use file::read_rows;
pub use given::from_rows;
pub use law::one_reading;
pub use limits::MOST_ROWS;
pub use template::Template;
