//! Limits that several layers know: of texts, of improvements, of joint problems and of generated programs.
#![tactic(auto)]

mod limits;

pub use limits::{
    MOST_BENCH_IMPROVEMENTS, MOST_CELLS, MOST_CERTIFICATE_BYTES, MOST_IMPROVEMENTS, MOST_LOOPS,
    MOST_PROGRAM_BYTES, MOST_STATEMENTS, MOST_TEXT_BYTES,
};
