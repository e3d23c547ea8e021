//! Words of an edge, the steps of certificates, and what a valid certificate shows.
#![tactic(auto)]

mod law;

pub use law::{
    certificates_are_least, faultless_is_valid, steps_stay_below, traces_have_words,
    words_give_traces,
};
