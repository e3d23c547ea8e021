//! Certificates of least bounds, as types.
//!
//! `specs/Certificates.antt` says which certificate of the theory each of these stands for; when one is valid is said in
//! `specs/Certificates.antt` and `specs/Steps.antt` of `theory_validity`.
#![tactic(auto)]

mod cert;
mod step;
mod upper;

pub use cert::{Cert, Rows};
pub use step::{Item, Items, JumpItem, JumpItems, RayItem, RayItems, Step, Steps};
pub use upper::{Upper, Uppers};
