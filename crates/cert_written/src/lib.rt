//! Certificates as texts have them: each list of fractions with all its entries, or without its zeros.
//!
//! `specs/Entries.antt` says what a list is without its zeros, and which list it stands for where its length is asked for;
//! `specs/Bare.antt` what a certificate is without the zeros of its lists.
#![tactic(auto)]

mod cert;
mod entries;
mod pairs;
mod step;
mod trace;
mod upper;

pub use cert::{Cert, Rows};
pub use entries::Entries;
pub use pairs::{Pair, Pairs, pairs_of};
pub use step::{Item, Items, JumpItem, JumpItems, RayItem, RayItems, Step, Steps};
pub use trace::{Trace, copied};
pub use upper::{Upper, Uppers};
