//! Operations at the limits of machine integers of 8, 16 and 32 bits: where the bounds just fit, and one past it.

use crate::cases::{Case, Ending, ends, first_wrong};
use base_integers::Width;
use std::alloc::{AllocError, Global};

// A pattern by integers up to this one, which `@` stands for; `#` is the number above it, `$` half of that, and `^` the one above that.
fn filled(alloc: Global, pattern: &[u8], greatest: u32) -> Result<Vec<u8>, AllocError> {
    let past = u64::from(greatest) + 1;
    let mut text = Vec::new(alloc);
    for byte in pattern {
        match *byte {
            b'@' => text.extend_from_slice(format!(in alloc; "{greatest}")?.as_bytes())?,
            b'#' => text.extend_from_slice(format!(in alloc; "{past}")?.as_bytes())?,
            b'$' => {
                let half = past / 2;
                text.extend_from_slice(format!(in alloc; "{half}")?.as_bytes())?
            }
            b'^' => {
                let more = past / 2 + 1;
                text.extend_from_slice(format!(in alloc; "{more}")?.as_bytes())?
            }
            other => text.push(other)?,
        }
    }
    Ok(text)
}

// Whether the verdicts on a function by integers of this width are these; both are patterns.
fn is_judged(
    alloc: Global,
    line: &str,
    width: Width,
    function: &[u8],
    ending: Ending,
) -> Result<bool, AllocError> {
    let greatest = width.greatest();
    let text = filled(alloc, function, greatest)?;
    match ending {
        Ending::Report(verdicts) => {
            let verdicts = filled(alloc, verdicts, greatest)?;
            Ok(ends(alloc, line, &text, b"", Ending::Report(&verdicts)))
        }
        Ending::Open(verdicts) => {
            let verdicts = filled(alloc, verdicts, greatest)?;
            Ok(ends(alloc, line, &text, b"", Ending::Open(&verdicts)))
        }
        other => Ok(ends(alloc, line, &text, b"", other)),
    }
}

// A function and the verdicts on it, as patterns: they are so by each width.
impl Case for (&[u8], Ending<'_>) {
    fn is_right(&self, alloc: Global) -> bool {
        is_judged(alloc, "verify p --int 8", Width::Bits8, self.0, self.1) == Ok(true)
            && is_judged(alloc, "verify p --int 16", Width::Bits16, self.0, self.1) == Ok(true)
            && is_judged(alloc, "verify p --int 32", Width::Bits32, self.0, self.1) == Ok(true)
    }
}

// None of these signs stands before a check on its line, so that places are the same by each width.
const LIMITS: &[(&[u8], Ending)] = &[
    // Sums and differences, up and down.
    (
        b"int f(int a) {\nassume(a < @);\nreturn a + 1; }",
        Ending::Report(b"check 0 at 3:10: range: proved\nproved 1 of 1\nimprovements: 1\n"),
    ),
    (
        b"int f(int a) {\nreturn a + 1; }",
        Ending::Open(b"check 0 at 2:10: range: open at a = @\nproved 0 of 1\nimprovements: 1\n"),
    ),
    (
        b"int f(int a) {\nassume(a >= -@);\nreturn a + -1; }",
        Ending::Report(
            b"check 0 at 2:13: range: proved\
                \ncheck 1 at 3:12: range: proved\
                \ncheck 2 at 3:10: range: proved\nproved 3 of 3\nimprovements: 1\n",
        ),
    ),
    (
        b"int f(int a) {\nreturn a + -1; }",
        Ending::Open(
            b"check 0 at 2:12: range: proved\ncheck 1 at 2:10: range: open at a = -#\nproved 1 of 2\nimprovements: 1\n",
        ),
    ),
    (
        b"int f(int a) {\nassume(a >= -@);\nreturn a - 1; }",
        Ending::Report(
            b"check 0 at 2:13: range: proved\ncheck 1 at 3:10: range: proved\nproved 2 of 2\nimprovements: 1\n",
        ),
    ),
    (
        b"int f(int a) {\nreturn a - 1; }",
        Ending::Open(b"check 0 at 2:10: range: open at a = -#\nproved 0 of 1\nimprovements: 1\n"),
    ),
    (
        b"int f(int a) {\nassume(a < @);\nreturn a - -1; }",
        Ending::Report(
            b"check 0 at 3:12: range: proved\ncheck 1 at 3:10: range: proved\nproved 2 of 2\nimprovements: 1\n",
        ),
    ),
    (
        b"int f(int a) {\nreturn a - -1; }",
        Ending::Open(
            b"check 0 at 2:12: range: proved\ncheck 1 at 2:10: range: open at a = @\nproved 1 of 2\nimprovements: 1\n",
        ),
    ),
    // Opposites.
    (
        b"int f(int a) {\nassume(a >= -@);\nreturn -a; }",
        Ending::Report(
            b"check 0 at 2:13: range: proved\ncheck 1 at 3:8: range: proved\nproved 2 of 2\nimprovements: 1\n",
        ),
    ),
    (
        b"int f(int a) {\nreturn -a; }",
        Ending::Open(b"check 0 at 2:8: range: open at a = -#\nproved 0 of 1\nimprovements: 1\n"),
    ),
    // Products by a number, and of two variables.
    (
        b"int f(int a) {\nassume(a >= -$ && a < $);\nreturn 2 * a; }",
        Ending::Report(
            b"check 0 at 2:13: range: proved\ncheck 1 at 3:10: range: proved\nproved 2 of 2\nimprovements: 1\n",
        ),
    ),
    (
        b"int f(int a) {\nassume(a >= 0 && a <= $);\nreturn a * 2; }",
        Ending::Open(b"check 0 at 3:10: range: open at a = $\nproved 0 of 1\nimprovements: 1\n"),
    ),
    (
        b"int f(int a) {\nassume(a == -^);\nreturn 2 * a; }",
        Ending::Open(
            b"check 0 at 2:13: range: proved\ncheck 1 at 3:10: range: open at a = -^\nproved 1 of 2\nimprovements: 1\n",
        ),
    ),
    (
        b"int f(int a, int b) {\nassume(a == 0 && b == 1);\nreturn a * b; }",
        Ending::Open(
            b"check 0 at 3:10: range: open at a = 0, b = 1\nproved 0 of 1\nimprovements: 1\n",
        ),
    ),
    // Quotients and remainders: by a number, by -1 and by a variable.
    (
        b"int f(int a) {\nreturn a / 2; }",
        Ending::Report(b"check 0 at 2:10: range: proved\nproved 1 of 1\nimprovements: 1\n"),
    ),
    (
        b"int f(int a) {\nreturn a / 1; }",
        Ending::Report(b"check 0 at 2:10: range: proved\nproved 1 of 1\nimprovements: 1\n"),
    ),
    (
        b"int f(int a) {\nassume(a >= -@);\nreturn a / -1; }",
        Ending::Report(
            b"check 0 at 2:13: range: proved\
                \ncheck 1 at 3:12: range: proved\
                \ncheck 2 at 3:10: range: proved\nproved 3 of 3\nimprovements: 1\n",
        ),
    ),
    (
        b"int f(int a) {\nreturn a / -1; }",
        Ending::Open(
            b"check 0 at 2:12: range: proved\ncheck 1 at 2:10: range: open at a = -#\nproved 1 of 2\nimprovements: 1\n",
        ),
    ),
    (
        b"int f(int a, int b) {\nassume(a >= -@ && b < 0);\nreturn a / b; }",
        Ending::Report(
            b"check 0 at 2:13: range: proved\
                \ncheck 1 at 3:10: divisor: proved\
                \ncheck 2 at 3:10: range: proved\nproved 3 of 3\nimprovements: 1\n",
        ),
    ),
    (
        b"int f(int a, int b) {\nassume(b < 0);\nreturn a / b; }",
        Ending::Open(
            b"check 0 at 3:10: divisor: proved\
                \ncheck 1 at 3:10: range: open at a = -#, b = -1\nproved 1 of 2\nimprovements: 1\n",
        ),
    ),
    (
        b"int f(int a, int b) {\nassume(b > 0);\nreturn a / b; }",
        Ending::Report(
            b"check 0 at 3:10: divisor: proved\ncheck 1 at 3:10: range: proved\nproved 2 of 2\nimprovements: 1\n",
        ),
    ),
    (
        b"int f(int a) {\nreturn a % 2; }",
        Ending::Report(b"check 0 at 2:10: range: proved\nproved 1 of 1\nimprovements: 1\n"),
    ),
    (
        b"int f(int a) {\nreturn a % 1; }",
        Ending::Report(b"check 0 at 2:10: range: proved\nproved 1 of 1\nimprovements: 1\n"),
    ),
    (
        b"int f(int a) {\nassume(a >= -@);\nreturn a % -1; }",
        Ending::Report(
            b"check 0 at 2:13: range: proved\
                \ncheck 1 at 3:12: range: proved\
                \ncheck 2 at 3:10: range: proved\nproved 3 of 3\nimprovements: 1\n",
        ),
    ),
    (
        b"int f(int a) {\nreturn a % -1; }",
        Ending::Open(
            b"check 0 at 2:12: range: proved\ncheck 1 at 2:10: range: open at a = -#\nproved 1 of 2\nimprovements: 1\n",
        ),
    ),
    (
        b"int f(int a, int b) {\nassume(a >= -@ && b < 0);\nreturn a % b; }",
        Ending::Report(
            b"check 0 at 2:13: range: proved\
                \ncheck 1 at 3:10: divisor: proved\
                \ncheck 2 at 3:10: range: proved\nproved 3 of 3\nimprovements: 1\n",
        ),
    ),
    (
        b"int f(int a, int b) {\nassume(b < 0);\nreturn a % b; }",
        Ending::Open(
            b"check 0 at 3:10: divisor: proved\
                \ncheck 1 at 3:10: range: open at a = -#, b = -1\nproved 1 of 2\nimprovements: 1\n",
        ),
    ),
    (
        b"int f(int a, int b) {\nassume(b > 0);\nreturn a % b; }",
        Ending::Report(
            b"check 0 at 3:10: divisor: proved\ncheck 1 at 3:10: range: proved\nproved 2 of 2\nimprovements: 1\n",
        ),
    ),
    // Changes.
    (
        b"int f(int a) {\nassume(a < @);\na++; }",
        Ending::Report(b"check 0 at 3:2: range: proved\nproved 1 of 1\nimprovements: 1\n"),
    ),
    (
        b"int f(int a) {\na++; }",
        Ending::Open(b"check 0 at 2:2: range: open at a = @\nproved 0 of 1\nimprovements: 1\n"),
    ),
    (
        b"int f(int a) {\nassume(a >= -@);\n--a; }",
        Ending::Report(
            b"check 0 at 2:13: range: proved\ncheck 1 at 3:1: range: proved\nproved 2 of 2\nimprovements: 1\n",
        ),
    ),
    (
        b"int f(int a) {\n--a; }",
        Ending::Open(b"check 0 at 2:1: range: open at a = -#\nproved 0 of 1\nimprovements: 1\n"),
    ),
    (
        b"int f(int a) {\nassume(a < @);\na += 1; }",
        Ending::Report(b"check 0 at 3:3: range: proved\nproved 1 of 1\nimprovements: 1\n"),
    ),
    (
        b"int f(int a) {\na += 1; }",
        Ending::Open(b"check 0 at 2:3: range: open at a = @\nproved 0 of 1\nimprovements: 1\n"),
    ),
    (
        b"int f(int a) {\nassume(a >= -@);\na -= 1; }",
        Ending::Report(
            b"check 0 at 2:13: range: proved\ncheck 1 at 3:3: range: proved\nproved 2 of 2\nimprovements: 1\n",
        ),
    ),
    (
        b"int f(int a) {\na -= 1; }",
        Ending::Open(b"check 0 at 2:3: range: open at a = -#\nproved 0 of 1\nimprovements: 1\n"),
    ),
    (
        b"int f(int a) {\nassume(a >= 0 && a <= $);\na *= 2; }",
        Ending::Open(b"check 0 at 3:3: range: open at a = $\nproved 0 of 1\nimprovements: 1\n"),
    ),
    (
        b"int f(int a) {\na /= -1; }",
        Ending::Open(
            b"check 0 at 2:6: range: proved\ncheck 1 at 2:3: range: open at a = -#\nproved 1 of 2\nimprovements: 1\n",
        ),
    ),
    (
        b"int f(int a) {\na %= -1; }",
        Ending::Open(
            b"check 0 at 2:6: range: proved\ncheck 1 at 2:3: range: open at a = -#\nproved 1 of 2\nimprovements: 1\n",
        ),
    ),
    // Numbers; the least integer is a difference.
    (
        b"int f(int a) {\nassume(a == 0);\nreturn @; }",
        Ending::Report(b"proved 0 of 0\nimprovements: 1\n"),
    ),
    (
        b"int f(int a) {\nassume(a == 0);\nreturn #; }",
        Ending::Open(b"check 0 at 3:8: range: open at a = 0\nproved 0 of 1\nimprovements: 1\n"),
    ),
    (
        b"int f(int a) {\nassume(a == 0);\nreturn -@\n- 1; }",
        Ending::Report(
            b"check 0 at 3:8: range: proved\ncheck 1 at 4:1: range: proved\nproved 2 of 2\nimprovements: 1\n",
        ),
    ),
    (
        b"int f(int a) {\nassume(a == 0);\nreturn -@\n- 2; }",
        Ending::Open(
            b"check 0 at 3:8: range: proved\ncheck 1 at 4:1: range: open at a = 0\nproved 1 of 2\nimprovements: 1\n",
        ),
    ),
    // What values a parameter, a declaration, `nondet()`, a call and an element may have: all, and no others.
    (
        b"int f(int a) {\nassert(a <= @);\nassert(a >= -1 - @); }",
        Ending::Report(
            b"check 0 at 2:1: assert: proved\
                \ncheck 1 at 3:13: range: proved\
                \ncheck 2 at 3:16: range: proved\
                \ncheck 3 at 3:1: assert: proved\nproved 4 of 4\nimprovements: 1\n",
        ),
    ),
    (
        b"int f(int a) {\nassert(a < @); }",
        Ending::Open(b"check 0 at 2:1: assert: open at a = @\nproved 0 of 1\nimprovements: 1\n"),
    ),
    (
        b"int f(int a) {\nassert(a > -1 - @); }",
        Ending::Open(
            b"check 0 at 2:12: range: proved\
                \ncheck 1 at 2:15: range: proved\
                \ncheck 2 at 2:1: assert: open at a = -#\nproved 2 of 3\nimprovements: 1\n",
        ),
    ),
    (
        b"int f(void) {\nint a;\nassert(a <= @);\nassert(a >= -1 - @); }",
        Ending::Report(
            b"check 0 at 3:1: assert: proved\
                \ncheck 1 at 4:13: range: proved\
                \ncheck 2 at 4:16: range: proved\
                \ncheck 3 at 4:1: assert: proved\nproved 4 of 4\nimprovements: 1\n",
        ),
    ),
    (
        b"int f(void) {\nint a;\nassert(a < @); }",
        Ending::Open(b"check 0 at 3:1: assert: open at a = @\nproved 0 of 1\nimprovements: 1\n"),
    ),
    (
        b"int f(void) {\nint a;\nassert(a > -1 - @); }",
        Ending::Open(
            b"check 0 at 3:12: range: proved\
                \ncheck 1 at 3:15: range: proved\
                \ncheck 2 at 3:1: assert: open at a = -#\nproved 2 of 3\nimprovements: 1\n",
        ),
    ),
    (
        b"int f(void) {\nint a = nondet();\nassert(a <= @);\nassert(a >= -1 - @); }",
        Ending::Report(
            b"check 0 at 3:1: assert: proved\
                \ncheck 1 at 4:13: range: proved\
                \ncheck 2 at 4:16: range: proved\
                \ncheck 3 at 4:1: assert: proved\nproved 4 of 4\nimprovements: 1\n",
        ),
    ),
    (
        b"int f(void) {\nint a = nondet();\nassert(a < @); }",
        Ending::Open(b"check 0 at 3:1: assert: open at a = @\nproved 0 of 1\nimprovements: 1\n"),
    ),
    (
        b"int f(void) {\nint a = nondet();\nassert(a > -1 - @); }",
        Ending::Open(
            b"check 0 at 3:12: range: proved\
                \ncheck 1 at 3:15: range: proved\
                \ncheck 2 at 3:1: assert: open at a = -#\nproved 2 of 3\nimprovements: 1\n",
        ),
    ),
    (
        b"int f(void) {\nint a = g();\nassert(a <= @);\nassert(a >= -1 - @); }",
        Ending::Report(
            b"check 0 at 3:1: assert: proved\
                \ncheck 1 at 4:13: range: proved\
                \ncheck 2 at 4:16: range: proved\
                \ncheck 3 at 4:1: assert: proved\nproved 4 of 4\nimprovements: 1\n",
        ),
    ),
    (
        b"int f(void) {\nint a = g();\nassert(a < @); }",
        Ending::Open(b"check 0 at 3:1: assert: open at a = @\nproved 0 of 1\nimprovements: 1\n"),
    ),
    (
        b"int f(void) {\nint a = g();\nassert(a > -1 - @); }",
        Ending::Open(
            b"check 0 at 3:12: range: proved\
                \ncheck 1 at 3:15: range: proved\
                \ncheck 2 at 3:1: assert: open at a = -#\nproved 2 of 3\nimprovements: 1\n",
        ),
    ),
    (
        b"int f(void) {\nint t[3], a = t[1];\nassert(a <= @);\nassert(a >= -1 - @); }",
        Ending::Report(
            b"check 0 at 2:16: index: proved\
                \ncheck 1 at 3:1: assert: proved\
                \ncheck 2 at 4:13: range: proved\
                \ncheck 3 at 4:16: range: proved\
                \ncheck 4 at 4:1: assert: proved\nproved 5 of 5\nimprovements: 1\n",
        ),
    ),
    (
        b"int f(void) {\nint t[3], a = t[1];\nassert(a < @); }",
        Ending::Open(
            b"check 0 at 2:16: index: proved\ncheck 1 at 3:1: assert: open at a = @\nproved 1 of 2\nimprovements: 1\n",
        ),
    ),
    (
        b"int f(void) {\nint t[3], a = t[1];\nassert(a > -1 - @); }",
        Ending::Open(
            b"check 0 at 2:16: index: proved\
                \ncheck 1 at 3:12: range: proved\
                \ncheck 2 at 3:15: range: proved\
                \ncheck 3 at 3:1: assert: open at a = -#\nproved 3 of 4\nimprovements: 1\n",
        ),
    ),
];

#[test]
fn operations_have_limits(rt: HostRuntime) {
    assert_eq!(rt; first_wrong(rt.alloc(), LIMITS), None);
}
