//! Tests of the call that writes annotations: whole texts with the least bounds that were worked out by hand, refusals, and what
//! happens where the outside fails.
#![tactic(auto)]

#[cfg(test)]
mod cases;
#[cfg(test)]
mod faults;
#[cfg(test)]
mod refusals;
#[cfg(test)]
mod written;
