//! Hostile texts: single bytes, tokens as long as a text, open constructs, long chains of operators, rows on one endless line.

use crate::cases::{Case, Ending, ends, first_wrong};
use crate::done::reports::ROWS;
use std::alloc::{AllocError, Global};
use test_cases::{joined, repeated};

// The message of a text of one byte: a blank and a semicolon are files without a function; of the other bytes some are a token, behind
// which the end is unexpected, or which is unexpected itself, and each other one is a bad byte.
fn message_of(byte: u8) -> &'static [u8] {
    match byte {
        b'\n' | b' ' | b'\t' | b'\r' | b';' => WHICH,
        b'_'
        | b'a'..=b'z'
        | b'A'..=b'Z'
        | b'0'..=b'9'
        | b'('
        | b')'
        | b'{'
        | b'}'
        | b','
        | b':'
        | b'='
        | b'+'
        | b'-'
        | b'*'
        | b'!'
        | b'<'
        | b'>'
        | b'/'
        | b'%'
        | b'?'
        | b'['
        | b']'
        | b'.'
        | b'&'
        | b'|'
        | b'^'
        | b'~' => { b"program refused: unexpected token at line 1\n" }
        _ => b"program refused: bad byte at line 1\n",
    }
}

// Whether each text of one byte is refused with its message.
fn bytes_are_refused(alloc: Global) -> bool {
    for byte in 0..=255 {
        let message = message_of(byte);
        if !ends(alloc, "solve p", &[byte], b"", Ending::Refused(4, message)) {
            return false;
        }
    }
    true
}

#[test]
fn single_bytes_are_no_programs(rt: HostRuntime) {
    assert!(rt; bytes_are_refused(rt.alloc()));
}

// Whether a text with a piece so many times in its middle ends so.
fn repeats_end(
    alloc: Global,
    before: &[u8],
    piece: &[u8],
    count: usize,
    after: &[u8],
    ending: Ending,
) -> bool {
    match repeated(alloc, before, piece, count, after) {
        Ok(text) => ends(alloc, "solve p", &text, b"", ending),
        Err(_) => false,
    }
}

// What stands before, a piece of one byte, what stands behind, and the message of a text of 65,536 bytes of this form.
impl Case for (&[u8], &[u8], &[u8], &[u8]) {
    fn is_right(&self, alloc: Global) -> bool {
        let count = 65536usize
            .saturating_sub(self.0.len())
            .saturating_sub(self.2.len());
        repeats_end(
            alloc,
            self.0,
            self.1,
            count,
            self.2,
            Ending::Refused(4, self.3),
        )
    }
}

const WHICH: &[u8] = b"program refused: which function\n";

const TOKEN: &[u8] = b"program refused: unexpected token at line 1\n";

const TOKENS: &[(&[u8], &[u8], &[u8], &[u8])] = &[
    (b"", b"a", b"", TOKEN),
    (b"", b"9", b"", TOKEN),
    (
        b"int main() { ",
        b"a",
        b"}",
        b"program refused: long name at line 1\n",
    ),
    (
        b"int main() { ",
        b"_",
        b"}",
        b"program refused: long name at line 1\n",
    ),
    (
        b"int main() { ",
        b"0",
        b"}",
        b"program refused: bad number at line 1\n",
    ),
    (
        b"int main() { ",
        b"9",
        b"}",
        b"program refused: long number at line 1\n",
    ),
    (
        b"int main() { \"",
        b"x",
        b"\"}",
        b"program refused: bad byte at line 1\n",
    ),
    (b"", b"+", b"", TOKEN),
    (b"", b"-", b"", TOKEN),
    (b"", b"=", b"", TOKEN),
    (b"", b"&", b"", TOKEN),
    (b"", b"(", b"", TOKEN),
    (b"", b"\n", b"", WHICH),
    (b"", b"\r", b"", WHICH),
    (b"//", b"x", b"", WHICH),
    (b"//", b"\xff", b"", WHICH),
    (
        b"/*",
        b"x",
        b"",
        b"program refused: open comment at line 1\n",
    ),
    (b"/*", b"*", b"/", WHICH),
    (b"/*", b"\n", b"*/", WHICH),
];

#[test]
fn tokens_in_long_texts(rt: HostRuntime) {
    assert_eq!(rt; first_wrong(rt.alloc(), TOKENS), None);
}

// Words, what stands before, how many blanks behind it, and the ending. The program alone has 32 bytes.
impl Case for (&str, &[u8], usize, Ending<'_>) {
    fn is_right(&self, alloc: Global) -> bool {
        match repeated(alloc, self.1, b" ", self.2, b"") {
            Ok(text) => ends(alloc, self.0, &text, b"", self.3),
            Err(_) => false,
        }
    }
}

const PAIR: &[u8] = b"int main() { int x = 1, y = 2; }";

const TOO_LONG: Ending = Ending::Refused(3, b"too long: the program\n");

const LONGEST: &[(&str, &[u8], usize, Ending)] = &[
    ("points p", PAIR, 1048544, Ending::End(b"point 1: exit\n")),
    ("points p", PAIR, 1048545, TOO_LONG),
    ("functions p", PAIR, 1048544, Ending::End(b"main\n")),
    ("functions p", PAIR, 1048545, TOO_LONG),
    ("solve p", PAIR, 65505, Ending::End(b"improvements: 1\n")),
    ("solve p", b"//", 1048574, Ending::Refused(4, WHICH)),
    ("solve p", b"//", 1048575, TOO_LONG),
];

#[test]
fn a_program_has_so_many_bytes(rt: HostRuntime) {
    assert_eq!(rt; first_wrong(rt.alloc(), LONGEST), None);
}

const START: &[u8] = b"int main() { int x; ";

const SET: &[u8] = b"int main() { int x; x = ";

const ASSUME: &[u8] = b"int main() { int x; assume(";

const ONE: &[u8] = b"  x <= 1\n  -x <= -1\nimprovements: 1\n";

const ALL: &[u8] = b"point 2: exit\n  x <= +inf\n  -x <= +inf\nimprovements: 2\n";

const NESTING: &[u8] = b"program refused: nesting at line 1\n";

// Whether a text with so many constructs open and closed again ends so.
fn opens_end(
    alloc: Global,
    case: &(&[u8], &[u8], &[u8], &[u8], &[u8], &[u8]),
    count: usize,
    ending: Ending,
) -> Result<bool, AllocError> {
    let front = repeated(alloc, case.0, case.1, count, case.2)?;
    let text = repeated(alloc, &front, case.3, count, case.4)?;
    Ok(ends(alloc, "solve p", &text, b"", ending))
}

// What stands before, opens a construct, stands in its middle, closes it and stands behind, and the end of the report where
// 64 are open. With one more it is refused.
impl Case for (&[u8], &[u8], &[u8], &[u8], &[u8], &[u8]) {
    fn is_right(&self, alloc: Global) -> bool {
        opens_end(alloc, self, 64, Ending::End(self.5)) == Ok(true)
            && opens_end(alloc, self, 65, Ending::Refused(4, NESTING)) == Ok(true)
    }
}

const CONSTRUCTS: &[(&[u8], &[u8], &[u8], &[u8], &[u8], &[u8])] = &[
    (START, b"{", b"x = 1;", b"}", b"}", ONE),
    (SET, b"(", b"1", b")", b"; }", ONE),
    (SET, b"- ", b"1", b"", b"; }", ONE),
    (SET, b"+ ", b"1", b"", b"; }", ONE),
    (ASSUME, b"!", b"x", b"", b"); }", ALL),
];

#[test]
fn sixty_four_constructs_are_open(rt: HostRuntime) {
    assert_eq!(rt; first_wrong(rt.alloc(), CONSTRUCTS), None);
}

// What opens a statement, how often it stands, and the ending.
impl Case for (&[u8], usize, Ending<'_>) {
    fn is_right(&self, alloc: Global) -> bool {
        repeats_end(alloc, START, self.0, self.1, b"; }", self.2)
    }
}

// Each join but the last has an edge from the entry, and the exit one from the last: two rounds.
const BRANCHES: Ending = Ending::End(b"improvements: 2\n");

// Each head has its first edge from the one around it: a round each.
const LOOPS: Ending = Ending::End(b"improvements: 64\n");

const STATEMENTS: &[(&[u8], usize, Ending)] = &[
    (b"if (nondet()) ", 64, BRANCHES),
    (b"if (nondet()) ", 65, Ending::Refused(4, NESTING)),
    (b"while (nondet()) ", 64, LOOPS),
    (b"while (nondet()) ", 65, Ending::Refused(4, NESTING)),
    (b"if (nondet()) ; else ", 65, Ending::Refused(4, NESTING)),
];

#[test]
fn sixty_four_statements_are_open(rt: HostRuntime) {
    assert_eq!(rt; first_wrong(rt.alloc(), STATEMENTS), None);
}

// What stands before, a piece that stands 10,000 times, what stands behind, and how the run ends.
impl Case for (&[u8], &[u8], &[u8], Ending<'_>) {
    fn is_right(&self, alloc: Global) -> bool {
        repeats_end(alloc, self.0, self.1, 10_000, self.2, self.3)
    }
}

const SET_ONE: &[u8] = b"int main() { int x; x = 1";

const ASSUME_ONE: &[u8] = b"int main() { int x; assume(1";

const LEAVES: &[u8] = b"program refused: leaves at line 1\n";

const CHAINS: &[(&[u8], &[u8], &[u8], Ending)] = &[
    (
        SET_ONE,
        b"+1",
        b"; }",
        Ending::End(b"  x <= 10001\n  -x <= -10001\nimprovements: 1\n"),
    ),
    (
        SET_ONE,
        b"-1",
        b"; }",
        Ending::End(b"  x <= -9999\n  -x <= 9999\nimprovements: 1\n"),
    ),
    (
        SET_ONE,
        b"*1",
        b"; }",
        Ending::End(b"  x <= 1\n  -x <= -1\nimprovements: 1\n"),
    ),
    (ASSUME_ONE, b"&&1", b"); }", Ending::Refused(4, LEAVES)),
    (ASSUME_ONE, b"||1", b"); }", Ending::Refused(4, LEAVES)),
    // the brackets of a file are read before its functions
    (START, b"{", b"}", Ending::Refused(4, TOKEN)),
    (
        START,
        b"int x;",
        b"}",
        Ending::Refused(4, b"program refused: name twice at line 1\n"),
    ),
];

#[test]
fn chains_of_ten_thousand_operators(rt: HostRuntime) {
    assert_eq!(rt; first_wrong(rt.alloc(), CHAINS), None);
}

// A comparison that stands 100 times, each one's left side being the number that the one before it is.
const NUMBERS: &[(&[u8], usize, Ending)] = &[
    (b"<1", 100, VALUES),
    (b"<=1", 100, VALUES),
    (b">1", 100, VALUES),
    (b">=1", 100, VALUES),
    (b"==1", 100, VALUES),
    (b"!=1", 100, VALUES),
];

const VALUES: Ending = Ending::Refused(4, b"program refused: values at line 1\n");

#[test]
fn chains_of_comparisons_have_too_many_values(rt: HostRuntime) {
    let wrong = NUMBERS.iter().position(|row| !repeats_end(
        rt.alloc(),
        ASSUME_ONE,
        row.0,
        row.1,
        b"); }",
        row.2,
    ));
    assert_eq!(rt; wrong, None);
}

// How many assignments the program has, and how the run ends.
impl Case for (usize, Ending<'_>) {
    fn is_right(&self, alloc: Global) -> bool {
        repeats_end(alloc, START, b"x = x + 1; ", self.0, b"}", self.1)
    }
}

const ACTIONS: &[(usize, Ending)] = &[
    (
        1023,
        Ending::End(b"point 1: exit\n  x <= +inf\n  -x <= +inf\nimprovements: 1\n"),
    ),
    (
        1024,
        Ending::Refused(4, b"program refused: actions of edge 0\n"),
    ),
];

#[test]
fn an_edge_has_so_many_actions(rt: HostRuntime) {
    assert_eq!(rt; first_wrong(rt.alloc(), ACTIONS), None);
}

// A program of two loops with 64 ways into each, whose bodies change `x` so often, and of so many changes behind them.
fn two_loops(
    alloc: Global,
    first: usize,
    second: usize,
    behind: usize,
) -> Result<Vec<u8>, AllocError> {
    let head = repeated(alloc, b"while (x<1", b"||x<1", 63, b") {")?;
    let before = repeated(alloc, &head, b"x++;", first, b"} ")?;
    let after = repeated(alloc, &head, b"x++;", second, b"} ")?;
    let front = joined(alloc, &[b"int main() { int x; ", &before, &after])?;
    repeated(alloc, &front, b"x++;", behind, b"}")
}

// The changes in the first loop, in the second one and behind both, and how the list of the points ends.
impl Case for (usize, usize, usize, Ending<'_>) {
    fn is_right(&self, alloc: Global) -> bool {
        match two_loops(alloc, self.0, self.1, self.2) {
            Ok(text) => ends(alloc, "points p", &text, b"", self.3),
            Err(_) => false,
        }
    }
}

// A way into a loop has a guard and the changes. The entry's edge has the free value of `x`, a way past a loop 64 guards, and the last
// one the changes behind the loops, too: 1 + 64 * 1024 + 64 + 64 * 1020 + 64 + 127 are 131,072. An edge with too many comes first.
const TOTALS: &[(usize, usize, usize, Ending)] = &[
    (1023, 1019, 127, Ending::End(b"point 3: exit\n")),
    (
        1023,
        1019,
        128,
        Ending::Refused(4, b"program refused: actions\n"),
    ),
    (
        1024,
        1023,
        0,
        Ending::Refused(4, b"program refused: actions of edge 1\n"),
    ),
];

#[test]
fn all_edges_have_so_many_actions(rt: HostRuntime) {
    assert_eq!(rt; first_wrong(rt.alloc(), TOTALS), None);
}

// What stands before, a piece that fills a file of rows, and how the run ends.
impl Case for (&[u8], &[u8], Ending<'_>) {
    fn is_right(&self, alloc: Global) -> bool {
        let room = 65536usize.saturating_sub(self.0.len());
        let count = room.checked_div(self.1.len()).unwrap_or(0);
        let program = b"int main() { int x = 1, y = 2; }";
        match repeated(alloc, self.0, self.1, count, b"") {
            Ok(rows) => ends(alloc, ROWS, program, &rows, self.2),
            Err(_) => false,
        }
    }
}

const ZERO: &[u8] = b"rows refused: zero row at line 1\n";

const BAD: &[u8] = b"rows refused: bad row at line 1\n";

const NONE: &[u8] = b"rows refused: 0 rows\n";

const LONG_ROWS: &[(&[u8], &[u8], Ending)] = &[
    // There are 16383 more `x` behind the first.
    (
        b"x",
        b" + x",
        Ending::End(b"  16384*x <= +inf\npoint 1: exit\n  16384*x <= 16384\nimprovements: 1\n"),
    ),
    (b"x - x", b" + x - x", Ending::Refused(4, ZERO)),
    (b"x", b" - ", Ending::Refused(4, BAD)),
    (b"", b"x", Ending::Refused(4, BAD)),
    (b"", b"9", Ending::Refused(4, BAD)),
    (b"", b"-", Ending::Refused(4, BAD)),
    (b"", b" ", Ending::Refused(4, NONE)),
    (b"", b"\n", Ending::Refused(4, NONE)),
    (b"#", b"x", Ending::Refused(4, NONE)),
    (
        b"",
        b"x\n",
        Ending::Refused(4, b"rows refused: 32768 rows\n"),
    ),
];

#[test]
fn rows_on_one_endless_line(rt: HostRuntime) {
    assert_eq!(rt; first_wrong(rt.alloc(), LONG_ROWS), None);
}
