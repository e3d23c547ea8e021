//! Lines.

ghost use Rattle.std.specs.Prelude.{◌≡◌, ◌≤◌, length};
ghost use Rattle.base_limits.specs.declared.limits.TheConstants.{MOST_PROGRAM_BYTES};
ghost use Rattle.lang_tokens.specs.Lines.{line_at};

/// The line of the byte at a place, counted from 1; `at` counts the bytes before it.
pub fn line_of(text: &[u8], at: u32) -> u32
    requires { length text.now ≤ MOST_PROGRAM_BYTES }
    ensures { result ≡ line_at text.now at }
{
    let before = &text[..text.len().min(at as usize)];
    let feeds = before.iter().filter(|byte| **byte == b'\n').count();
    1 + feeds as u32
}
