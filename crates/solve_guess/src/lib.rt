//! A guess of where the joint problem of a list of unknowns ends, at a point or along a ray, by cuts. Who asks checks what is guessed.
#![tactic(auto)]

mod asked;
mod columns;
mod cut;
mod guess;
mod halt;
mod master;
mod reached;
mod receding;
mod seen;
mod shaped;

pub use asked::Asked;
pub use guess::{Guess, MOST_VECTORS, guess_end};
