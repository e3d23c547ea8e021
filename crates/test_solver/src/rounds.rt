//! Calls over rounds: offers, whole solutions, and the steps of their rounds.

mod guesses;
mod lines;
mod offers;
mod solved;
mod steps;
mod systems;
mod watched;
