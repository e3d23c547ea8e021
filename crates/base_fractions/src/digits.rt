// Numbers in texts. Whether a text is canonical is not decided here.
ghost use Rattle.std.specs.Prelude.{◌≡◌, ◌==◌, ℕ, ℤ, pos, ◌<◌, ◌^◌, unsigned_abs, Some};
ghost use Rattle.std.specs.List.{position};
ghost use Rattle.std.specs.Fmt.{signed_decimal};
ghost use Rattle.base_fractions.specs.Texts.{parts_text};

// The number that a text writes in decimal digits, maybe after a sign.
fn read_number(text: &[u8]) -> Option<i64>
    ensures { (z : ℤ) → unsigned_abs z < 2 ^ 63 → text.now ≡ signed_decimal z → result ≡ Some z }
{
    match std::str::from_utf8(text) {
        Ok(text) => text.parse().ok(),
        Err(_) => None,
    }
}

// The place of the first slash.
fn slash(text: &[u8]) -> Option<usize>
    ensures { result ≡ position (λ byte. byte == 47) text.now }
{
    text.iter().position(|byte| *byte == b'/')
}

// Both numbers, if both are there.
fn pair(num: Option<i64>, den: Option<i64>) -> Option<(i64, i64)>
    ensures { (n d : ℤ) → num ≡ Some n → den ≡ Some d → result ≡ Some (n, d) }
{
    match (num, den) {
        (Some(num), Some(den)) => Some((num, den)),
        _ => None,
    }
}

// The numbers before and after the first slash; the second is 1 where there is no slash.
pub fn read_parts(text: &[u8]) -> Option<(i64, i64)>
    ensures { (n : ℤ) (d : ℕ) → unsigned_abs n < 2 ^ 63 → d < 2 ^ 63 → text.now ≡ parts_text n d → result ≡ Some (n, pos d) }
{
    match slash(text) {
        Some(at) => pair(read_number(&text[..at]), read_number(&text[at + 1..])),
        None => pair(read_number(text), Some(1)),
    }
}
