//! Tests of the solver's calls on small programs, over single edges and over rounds. Most systems come from texts by the whole front end,
//! and what a call gives
//! is written as one line, so that a case is a text and a line.
#![tactic(auto)]

#[cfg(test)]
mod cases;
#[cfg(test)]
mod edges;
#[cfg(test)]
mod rounds;
