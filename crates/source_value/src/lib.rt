//! What expressions of C are in the core, as code: each operation on values that stand for expressions that were read
//! (docs/MEANING.md, "Functions of C"; `specs/Stands.antt`).
#![tactic(auto)]

mod conditions;
mod elements;
mod ended;
mod fault;
mod forms;
mod hidden;
mod numbers;
mod operation;
mod prelude;
mod ranges;
mod site;
mod step;
mod truth;
mod truths;
mod value;

pub use elements::{indexed, negative, positive};
pub use fault::OperationFault;
pub use hidden::declared;
pub use operation::{Operation, operated};
pub use prelude::Prelude;
pub use site::Site;
pub use step::{Direction, Moment, Step, stepped};
pub use truth::Truth;
pub use truths::{both, chosen, compared, either, inverse};
pub use value::{Evaluated, Number, Outcome, Tested, Value};
