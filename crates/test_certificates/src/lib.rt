//! Tests that cross the crates of systems, reports and certificates.
#![tactic(auto)]

#[cfg(test)]
mod certificates;
#[cfg(test)]
mod changes;
#[cfg(test)]
mod checks;
#[cfg(test)]
mod hidden;
#[cfg(test)]
mod reports;
#[cfg(test)]
mod systems;
