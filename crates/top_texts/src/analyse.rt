//! The analysis of the text of a program: its system, and then its report, its certificate or its least bounds.

pub(crate) mod certify;
pub(crate) mod least;
pub(crate) mod rounds;
pub(crate) mod system;
pub(crate) mod template;
