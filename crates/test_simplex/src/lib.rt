//! Tests of the simplex method over both tableaux and both fields.
#![tactic(auto)]

#[cfg(test)]
mod cases;
#[cfg(test)]
mod generated;
#[cfg(test)]
mod problems;
#[cfg(test)]
mod watched;
