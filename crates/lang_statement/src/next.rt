//! What comes of a token.

use lang_meaning::ParseFault;
use lang_reader::Mode;

/// The mode in which the next token is taken, or the fault that the text has.
pub type Next = Result<Mode, ParseFault>;
