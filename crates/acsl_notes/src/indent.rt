//! The blanks before a place of a text.

ghost use Rattle.std.specs.Prelude.{◌≡◌, ◌≤◌, [], drop, length, take};
ghost use Rattle.std.specs.List.{list_all};
ghost use Rattle.acsl_notes.specs.Texts.{is_space, last_line};

/// Where the line begins that a text ends with.
fn line_start(text: &[u8]) -> usize
    ensures within { result ≤ length text.now }
    ensures line { drop result text.now ≡ last_line [] text.now }
{
    let mut start = 0;
    for index in 0..text.len() {
        if text[index] == b'\n' {
            start = index + 1;
        }
    }
    start
}

/// The line that a text ends with.
fn last_line(text: &[u8]) -> &[u8]
    ensures { result.now ≡ last_line [] text.now }
{
    &text[line_start(text)..]
}

/// What stands before a place on its line.
pub(crate) fn line_before(text: &[u8], place: u32) -> &[u8]
    ensures { result.now ≡ last_line [] (take place text.now) }
{
    last_line(&text[..(place as usize).min(text.len())])
}

/// Whether these are spaces and tabs alone.
pub(crate) fn is_indentation(line: &[u8]) -> bool
    ensures { result ≡ list_all is_space line.now }
{
    line.iter().all(|byte| *byte == b' ' || *byte == b'\t')
}
