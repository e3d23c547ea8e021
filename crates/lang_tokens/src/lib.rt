//! The tokens of a program's text.
#![tactic(auto)]

mod before;
mod byte;
mod comment;
mod directive;
mod fault;
mod foreign;
mod found;
mod joint;
mod laws;
mod lexeme;
mod lexer;
mod lexicon;
mod line;
mod number;
mod piece;
mod quoted;
mod reserved;
mod sign;
mod signs;
mod token;
mod word;
mod words;

pub use fault::LexFault;
pub use laws::{faults_of_c, lines_are_bytes, one_reading};
pub use lexer::lex;
pub use lexicon::Lexicon;
pub use line::line_of;
pub use sign::Sign;
pub use token::{Aside, Foreign, Kind, Token};
pub use word::Word;
