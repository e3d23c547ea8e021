//! The second pass: each token is fed to the reader, whose names, kinds and limits are in `lang_reader`.

ghost use Rattle.std.specs.Prelude.{◌≡◌, ◌≤◌, length};
ghost use Rattle.lang_grammar.specs.View.{tokens_of};
ghost use Rattle.lang_tokens.specs.Lines.{line_at};
ghost use Rattle.lang_tree.specs.View.{statements_of};
ghost use Rattle.lang_meaning.specs.Feed.{feed, nodes_under, reading};
ghost use Rattle.lang_meaning.specs.Gives.{Gives};
ghost use Rattle.lang_meaning.specs.Proper.{AllProper};
ghost use Rattle.lang_reader.specs.Frames.{frames_of};
ghost use Rattle.lang_reader.specs.Modes.{machine_of};

use crate::turn::in_mode;
use lang_meaning::ParseFault;
use lang_reader::{Context, Frame, Frames, Mode, Reader, Source, Within, read_token};
use lang_tokens::Token;
use lang_tree::{Block, Names, Stmt};
use std::alloc::Global;

/// Takes all tokens.
pub(crate) fn fed(
    source: &Source,
    tokens: &[Token],
    reader: &mut Reader,
    mode: Mode,
) -> Result<Mode, ParseFault>
    requires { AllProper source.now.text.now tokens.now }
    ensures { Gives (machine_of reader.new) result
        (feed (line_at source.now.text.now) source.now.width (tokens_of source.now.text.now tokens.now) (machine_of reader.old mode)) }
{
    let mut mode = mode;
    for token in tokens {
        let lexeme = read_token(token, source.text);
        mode = in_mode(source, reader, mode, lexeme, token.at)?;
    }
    Ok(mode)
}

// The nodes of a whole text.
fn nodes_under(alloc: Global, frames: Frames) -> Vec<Stmt>
    ensures { statements_of result.items ≡ nodes_under (frames_of frames) }
{
    let mut frames = frames;
    match frames.pop() {
        Some(Frame::Under(Within::Items(_), nodes)) => nodes,
        _ => Vec::new(alloc),
    }
}

/// The variables and the statements of the program that the tokens read as, or the first fault of
/// its walk.
#[tactic(auto, using(lang_meaning::proofs::results::Binds::then_ok, lang_meaning::proofs::results::Binds::then_err, crate::proofs::walk::Declared::program_of_none, crate::proofs::walk::Declared::program_of_some))]
pub(crate) fn walked(source: &Source, tokens: &[Token]) -> Result<(Names, Block), ParseFault>
    requires { AllProper source.now.text.now tokens.now }
    ensures { Gives (λ p. (p.0, p.1)) result (reading (line_at source.now.text.now) source.now.width
        (tokens_of source.now.text.now tokens.now)) }
{
    let mut reader = Reader::new(source.alloc);
    fed(source, tokens, &mut reader, Mode::Heading)?;
    let Reader { context, frames } = reader;
    if context.variable_count() == 0 {
        return Err(ParseFault::NoVariables);
    }
    let nodes = nodes_under(source.alloc, frames);
    Ok((context.into_names(), Block::new(nodes)))
}
