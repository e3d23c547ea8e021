//! Tests of outputs as JSON and as SARIF: whole outputs that were worked out by hand.
#![tactic(auto)]

#[cfg(test)]
mod bytes;
#[cfg(test)]
mod outputs;
