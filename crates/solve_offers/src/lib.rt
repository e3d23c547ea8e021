//! Offers of edges to unknowns, the policies that choose from them, and the improvement of picks.
#![tactic(auto)]

mod chooser;
mod count;
mod found;
mod improvement;
mod incoming;
mod known;
mod offer;
mod offering;
mod outgoing;
mod policy;
mod stop;
mod unlimited;

pub use chooser::{Chooser, Policy};
pub use count::picks;
pub use found::{Found, solve_offer, supremum};
pub use improvement::improve;
pub use known::{Known, forget};
pub use offer::{EdgeNumbers, Offer, Values, exceeds};
pub use offering::Offering;
pub use policy::{best, first};
pub use stop::Stop;
pub use unlimited::is_unlimited;
