//! Which words make a command.

ghost use Rattle.std.specs.Prelude.{◌≡◌};
ghost use Rattle.acsl_annotate.specs.Messages.{usage_text};

/// The line, with its line feed, that says which words are a program and its options.
pub fn usage_line() -> &'static [u8]
    ensures { result.now ≡ usage_text }
{
    b"usage: tmpl_acsl PROGRAM [--domain D] [--rows FILE] [--improvements N] [--policy P] [--progress] [--function NAME] [--int N]\n"
}
