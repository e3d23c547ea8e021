//! Lines, counted from a place whose line is known.

ghost use Rattle.std.specs.Prelude.{◌≡◌, ◌≤◌, ◌==◌, count_by, length};
ghost use Rattle.base_limits.specs.declared.limits.TheConstants.{MOST_PROGRAM_BYTES};
ghost use Rattle.lang_tokens.specs.Lines.{line_at};

// How many line feeds there are.
fn feeds(bytes: &[u8]) -> u32
    requires { length bytes.now ≤ MOST_PROGRAM_BYTES }
    ensures { result ≡ count_by (λ b. b == 10) bytes.now }
{
    bytes.iter().filter(|byte| **byte == b'\n').count() as u32
}

/// The line of the byte at a place of a text, where that of another place is known: only the bytes between them are looked at, so that
/// the lines of all statements of a text take one walk of it. Lines are counted from 1; a place counts the bytes before it.
pub fn line_from(text: &[u8], known: u32, line: u32, at: u32) -> u32
    requires few { length text.now ≤ MOST_PROGRAM_BYTES }
    requires line { line ≡ line_at text.now known }
    ensures { result ≡ line_at text.now at }
{
    let from = text.len().min(known as usize);
    let to = text.len().min(at as usize);
    if from <= to {
        line + feeds(&text[from..to])
    } else {
        line - feeds(&text[to..from])
    }
}
