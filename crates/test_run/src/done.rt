//! Runs that have an output: reports, certificates that are accepted, verdicts, values.

mod certified;
mod checks;
mod claims;
mod equations;
mod formats;
mod functions;
mod generated;
mod loops;
mod packs;
mod pages;
mod progress;
pub(crate) mod reports;
mod transitions;
mod upgrades;
