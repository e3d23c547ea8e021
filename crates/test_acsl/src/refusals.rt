//! Refused words, files, rows and programs, a wide operation and spent improvements: the code, the message, and no output.

use crate::cases::{Case, SOUND, ends, first_wrong, run_word};
use std::alloc::{AllocError, Global};
use test_cases::{is_as_wanted, repeated};

// Up to 100, in three improvements.
pub(crate) const COUNT: &[u8] = b"int main() {
    int x = 0;
    while (x < 100)
        x = x + 1;
}
";

const USAGE: &[u8] =
    b"usage: tmpl_acsl PROGRAM [--domain D] [--rows FILE] [--improvements N] [--policy P] [--progress] [--function NAME] [--int N]\n";

// A line of words over the loop to 100 and the rows `2*x`, the code and the message.
impl Case for (&str, u8, &[u8]) {
    fn is_right(&self, alloc: Global) -> bool {
        let files = (COUNT, b"2*x\n".as_slice());
        ends(alloc, self.0, files, SOUND, (self.1, b"", self.2))
    }
}

const NO_COMMANDS: &[(&str, u8, &[u8])] = &[
    ("", 2, USAGE),
    ("p p", 2, USAGE),
    ("solve p", 2, USAGE),
    ("check p f", 2, USAGE),
    ("bench --seed 1 --loops 1", 2, USAGE),
    ("p --widening 3", 2, USAGE),
    ("p --domain boxes", 2, USAGE),
    ("p --domain rows", 2, USAGE),
    ("p --rows f", 2, USAGE),
    ("p --improvements 1000001", 2, USAGE),
    ("p --policy first --policy first", 2, USAGE),
    ("p --format text", 2, USAGE),
    ("p --function f --function f", 2, USAGE),
    ("--help", 2, USAGE),
];

#[test]
fn other_words_are_no_command(rt: HostRuntime) {
    assert_eq!(rt; first_wrong(rt.alloc(), NO_COMMANDS), None);
}

const STOPPED: &[(&str, u8, &[u8])] = &[
    ("q", 3, b"cannot read the program\n"),
    ("solve", 3, b"cannot read the program\n"),
    ("-- --domain", 3, b"cannot read the program\n"),
    ("p --domain rows --rows q", 3, b"cannot read the rows\n"),
    ("p --function f", 4, b"program refused: which function\n"),
    ("p --improvements 2", 6, b"spent: 2 improvements\n"),
];

#[test]
fn files_are_absent_and_improvements_spent(rt: HostRuntime) {
    assert_eq!(rt; first_wrong(rt.alloc(), STOPPED), None);
}

// A program and its rows, the code and the message.
impl Case for (&[u8], &[u8], u8, &[u8]) {
    fn is_right(&self, alloc: Global) -> bool {
        let files = (self.0, self.1);
        ends(
            alloc,
            "p --domain rows --rows f",
            files,
            SOUND,
            (self.2, b"", self.3),
        )
    }
}

const REFUSED: &[(&[u8], &[u8], u8, &[u8])] = &[
    (
        b"int main() {\n  int x;\n  y = 1;\n}\n",
        b"x",
        4,
        b"program refused: unknown name at line 3\n",
    ),
    (
        b"int main() { int x = 1;\n",
        b"x",
        4,
        b"program refused: unexpected token at line 2\n",
    ),
    (
        b"int main() { int x; /* no end }",
        b"x",
        4,
        b"program refused: open comment at line 1\n",
    ),
    (
        b"int main() { }",
        b"x",
        4,
        b"program refused: no variables\n",
    ),
    (
        COUNT,
        b"x\n\nx + y\n",
        4,
        b"rows refused: unknown name at line 3\n",
    ),
    (COUNT, b"# none\n", 4, b"rows refused: 0 rows\n"),
    (
        b"int main() { int x; x = 3037000500*x; x = 3037000500*x; }",
        b"x",
        5,
        b"wide: mul 3037000500 3037000500 at compose edge 0\n",
    ),
];

#[test]
fn programs_and_rows_are_refused(rt: HostRuntime) {
    assert_eq!(rt; first_wrong(rt.alloc(), REFUSED), None);
}

// A name under which no program is told.
impl Case for &str {
    fn is_right(&self, alloc: Global) -> bool {
        match run_word(alloc, *self, COUNT) {
            Ok(written) => is_as_wanted(&written, 3, b"", b"cannot read the program\n"),
            Err(_) => false,
        }
    }
}

const ABSENT: &[&str] = &["", " ", "p ", "./p", "p\0", "-", "help"];

#[test]
fn names_are_taken_as_they_are(rt: HostRuntime) {
    assert_eq!(rt; first_wrong(rt.alloc(), ABSENT), None);
}

// Whether a program with so many blanks behind it ends so; the text that is written, which may be longer than what is read, has them, too.
fn ends_with_blanks(
    alloc: Global,
    files: (&[u8], &[u8]),
    count: usize,
    code: u8,
    message: &[u8],
) -> Result<bool, AllocError> {
    let text = repeated(alloc, files.0, b" ", count, b"")?;
    let wanted = match code {
        0 => repeated(alloc, files.1, b" ", count, b"")?,
        _ => Vec::new(alloc),
    };
    let written = run_word(alloc, "p", &text)?;
    Ok(is_as_wanted(&written, code, &wanted, message))
}

// How many blanks stand behind a program of 28 bytes, the code and the message.
impl Case for (usize, u8, &[u8]) {
    fn is_right(&self, alloc: Global) -> bool {
        let files = (
            b"int main() { int x = 1234; }".as_slice(),
            b"int main() { int x = 1234; /*@ assert x == 1234; */ }".as_slice(),
        );
        ends_with_blanks(alloc, files, self.0, self.1, self.2) == Ok(true)
    }
}

const SIZES: &[(usize, u8, &[u8])] = &[(1048548, 0, b""), (1048549, 3, b"too long: the program\n")];

#[test]
fn texts_have_a_size(rt: HostRuntime) {
    assert_eq!(rt; first_wrong(rt.alloc(), SIZES), None);
}
