//! What the texts of a command answer: from loaded texts to the bytes that are put, or the cause for which there are none. No file has a
//! name here.
#![tactic(auto)]

mod analyse;
mod bench;
mod check;
mod equations;
mod form;
mod functions;
mod groups;
mod points;
mod program;
mod prove;
mod refusal;
mod transitions;
mod upgrade;
mod verify;

// One call for each command that is asked of texts alone.
pub use bench::bench_text;
pub use equations::equations_text;
pub use functions::functions_text;
pub use points::points_text;
pub use prove::prove_text;
pub use transitions::transitions_text;
pub use upgrade::upgrade_text;
pub use verify::{Judged, verify_text};

// The parts of an analysis and of a check, whose messages name rows.
pub use analyse::certify::certificate_of;
pub use analyse::least::{LeastBounds, least_on};
pub use analyse::rounds::report_of;
pub use analyse::system::system_on;
pub use check::accept::report_by;
pub use check::certificate::{Given, read_given};
pub use refusal::{Refusal, refused};
