//! Tests of fractions, of loads and of puts.
#![tactic(auto)]

#[cfg(test)]
mod files;
#[cfg(test)]
mod fractions;
#[cfg(test)]
mod slow_files;
