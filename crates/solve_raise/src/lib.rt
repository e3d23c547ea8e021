//! The step of a certificate that raises one unknown towards the transformer of its picked edge.
//!
//! `specs/Raises.antt` says which step that is, and by which operations it is made.
#![tactic(auto)]

mod carry;
mod fault;
mod law;
mod low;
mod number;
mod raising;

pub use carry::carried;
pub use fault::RaiseFault;
pub use law::raises_agree;
pub use raising::raise;
