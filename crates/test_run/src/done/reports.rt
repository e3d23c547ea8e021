//! Reports of small programs, whole or by their ends; and the points of programs alone.

use crate::cases::{Case, Ending, ends, first_wrong};
use base_files::{PlainShelf, PlainSink};
use std::alloc::{AllocError, Global};
use std::fmt::Write;
use test_cases::{repeated, strings};
use top_run::{Status, run_in_memory};

pub(crate) const ROWS: &str = "solve p --domain rows --rows f";

pub(crate) const LINE: &[u8] = b"int main() { int x = 2; int y; y = 3*x + 1; }";

pub(crate) const WHOLE: &[u8] = b"variables x y
point 0: entry
  x <= +inf
  -x <= +inf
  y <= +inf
  -y <= +inf
point 1: exit
  x <= 2
  -x <= -2
  y <= 7
  -y <= -7
improvements: 1
";

const ZONES: &[u8] = b"variables x y
point 0: entry
  x <= +inf
  -x <= +inf
  y <= +inf
  -y <= +inf
  x - y <= +inf
  -x + y <= +inf
point 1: exit
  x <= 2
  -x <= -2
  y <= 7
  -y <= -7
  x - y <= -5
  -x + y <= 5
improvements: 1
";

pub(crate) const COUNT: &[u8] = b"int main() { int x = 0; while (x < 100) { x = x + 1; } }";

pub(crate) const COUNT_REPORT: &[u8] = b"variables x
point 0: entry
  x <= +inf
  -x <= +inf
point 1: loop at line 1
  x <= 100
  -x <= 0
point 2: exit
  x <= 100
  -x <= -100
improvements: 3
";

pub(crate) const THIRDS: &[u8] =
    b"int main() { int x = 0; while (nondet()) { assume(3*x <= 10); x = x + 1; } }";

pub(crate) const PAIR: &[u8] = b"int main() { int x = 0, y = 0; while (x < 10) { x++; y++; } }";

const NESTED: &[u8] = b"/* nested counters */
int main(void) {
  int i = 0, j = 0, k = 0;
  while (i < 10) {          // outer
    j = 0;
    while (j < i) {         // inner
      j++;
      k += 1;
    }
    i++;
  }
  return 0;
}
";

pub(crate) const CHOICES: &[u8] =
    b"int main() { int x = nondet(); assume(x <= 1 || x <= 2 || x <= 3); }";

const OPEN: &[u8] = b"int main() { int x; x = ((((((((((((((((((((((((((((((((((((((((((((\
        ((((((((((((((((((((1)))))))))))))))))))))))))))))))))))))))))))))))))))))))))))))))); }";

const STRAIGHT: &[(&str, &[u8], &[u8], Ending)] = &[
    ("solve p", LINE, b"x + 2*y\n", Ending::Report(WHOLE)),
    (
        "solve --domain=zones p",
        LINE,
        b"x + 2*y\n",
        Ending::Report(ZONES),
    ),
    (
        "solve p --domain zones",
        LINE,
        b"x + 2*y\n",
        Ending::Report(ZONES),
    ),
    (
        "solve p --domain octagons --improvements 1",
        b"int main() { int x = 1, y = nondet(); y = x - y; }",
        b"x + 2*y\n",
        Ending::Report(
            b"variables x y\npoint 0: entry\n  x <= +inf\n  -x <= +inf\n  y <= +inf\n  -y <= +inf\n  x + y <= +inf\
                \n  x - y <= +inf\n  -x + y <= +inf\n  -x - y <= +inf\npoint 1: exit\n  x <= 1\n  -x <= -1\
                \n  y <= +inf\n  -y <= +inf\n  x + y <= +inf\n  x - y <= +inf\n  -x + y <= +inf\n  -x - y <= +inf\
                \nimprovements: 1\n",
        ),
    ),
    (
        "solve p",
        b"int main() { int x; }",
        b"x + 2*y\n",
        Ending::Report(
            b"variables x\npoint 0: entry\n  x <= +inf\n  -x <= +inf\npoint 1: exit\n  x <= +inf\n  -x <= +inf\nimprovements: 1\n",
        ),
    ),
    (
        "solve p",
        OPEN,
        b"x + 2*y\n",
        Ending::Report(
            b"variables x\npoint 0: entry\n  x <= +inf\n  -x <= +inf\npoint 1: exit\n  x <= 1\n  -x <= -1\nimprovements: 1\n",
        ),
    ),
    (
        ROWS,
        b"int main() { int x = 1, y = 2; }",
        b"x + 2*y\n",
        Ending::Report(
            b"variables x y\npoint 0: entry\n  x + 2*y <= +inf\npoint 1: exit\n  x + 2*y <= 5\nimprovements: 1\n",
        ),
    ),
];

#[test]
fn straight_lines_have_whole_reports(rt: HostRuntime) {
    assert_eq!(rt; first_wrong(rt.alloc(), STRAIGHT), None);
}

const LOOPS: &[(&str, &[u8], Ending)] = &[
    (
        "solve p --domain zones",
        b"int main() { int a = 0, b = 0, c = 0, d = 0, e = 0, f = 0, g = 0, h = 0, i = 0, j = 0, k = 1, l = 3; }",
        Ending::End(b"  -j + l <= 3\n  -k + l <= 2\nimprovements: 1\n"),
    ),
    ("solve p", COUNT, Ending::End(COUNT_REPORT)),
    ("solve p --improvements 3", COUNT, Ending::End(COUNT_REPORT)),
    (
        "solve p",
        b"int main() { int x; }",
        Ending::End(b"point 1: exit\n  x <= +inf\n  -x <= +inf\nimprovements: 1\n"),
    ),
    (
        "solve p",
        THIRDS,
        Ending::End(
            b"point 1: loop at line 1\n  x <= 13/3\n  -x <= 0\npoint 2: exit\n  x <= 13/3\n  -x <= 0\nimprovements: 2\n",
        ),
    ),
    (
        "solve p",
        b"int main() { int x = 0, y; while (nondet()) { y = nondet(); assume(2*y == x + 2); x = y; } }",
        Ending::End(
            b"point 1: loop at line 1\n  x <= 2\n  -x <= 0\n  y <= +inf\n  -y <= +inf\npoint 2: exit\n  x <= 2\
                \n  -x <= 0\n  y <= +inf\n  -y <= +inf\nimprovements: 2\n",
        ),
    ),
    (
        "solve p",
        b"int main() { int x = 0; while (nondet()) { x = x + 1; } }",
        Ending::End(
            b"point 1: loop at line 1\n  x <= +inf\n  -x <= 0\npoint 2: exit\n  x <= +inf\n  -x <= 0\nimprovements: 2\n",
        ),
    ),
    (
        "solve p --domain zones",
        PAIR,
        Ending::End(
            b"point 1: loop at line 1\n  x <= 10\n  -x <= 0\n  y <= 10\n  -y <= 0\n  x - y <= 0\n  -x + y <= 0\
                \npoint 2: exit\n  x <= 10\n  -x <= -10\n  y <= 10\n  -y <= -10\n  x - y <= 0\n  -x + y <= 0\
                \nimprovements: 3\n",
        ),
    ),
    (
        "solve p --domain octagons",
        PAIR,
        Ending::End(
            b"point 1: loop at line 1\n  x <= 10\n  -x <= 0\n  y <= 10\n  -y <= 0\n  x + y <= 20\n  x - y <= 0\
                \n  -x + y <= 0\n  -x - y <= 0\npoint 2: exit\n  x <= 10\n  -x <= -10\n  y <= 10\n  -y <= -10\
                \n  x + y <= 20\n  x - y <= 0\n  -x + y <= 0\n  -x - y <= -20\nimprovements: 3\n",
        ),
    ),
    (
        "solve p",
        b"int main() { int x = 0; while (x < 100) { if (x < 50) x = x + 1; else x = x + 2; } }",
        Ending::End(
            b"  x <= 101\n  -x <= 0\npoint 2: join at line 1\n  x <= 101\n  -x <= -1\npoint 3: exit\n  x <= 101\
                \n  -x <= -100\nimprovements: 5\n",
        ),
    ),
    (
        "solve p --improvements 0",
        b"int main() { int x; assume(1 > 2); }",
        Ending::End(b"point 1: exit\n  unreachable\nimprovements: 0\n"),
    ),
    (
        "solve p",
        b"int main() { int x; x = 3037000499*x; x = 3037000499*x; }",
        Ending::End(b"point 1: exit\n  x <= +inf\n  -x <= +inf\nimprovements: 1\n"),
    ),
    (
        "solve p",
        b"int main() { int x = 5; while (x != 0) { x = x - 1; } }",
        Ending::End(b"  x <= 5\n  -x <= 0\npoint 2: exit\n  x <= 0\n  -x <= 0\nimprovements: 3\n"),
    ),
    (
        "solve p",
        NESTED,
        Ending::End(
            b"point 1: loop at line 4\n  i <= 10\n  -i <= 0\n  j <= 9\n  -j <= 0\n  k <= +inf\n  -k <= 0\
                \npoint 2: loop at line 6\n  i <= 9\n  -i <= 0\n  j <= 9\n  -j <= 0\n  k <= +inf\n  -k <= 0\
                \npoint 3: exit\n  i <= 10\n  -i <= -10\n  j <= 9\n  -j <= 0\n  k <= +inf\n  -k <= 0\nimprovements: 5\
                \n",
        ),
    ),
    (
        "solve p",
        CHOICES,
        Ending::End(
            b"point 1: assume at line 1\n  x <= 3\n  -x <= +inf\npoint 2: exit\n  x <= 3\n  -x <= +inf\nimprovements: 2\n",
        ),
    ),
    (
        "solve p --policy first",
        CHOICES,
        Ending::End(
            b"point 1: assume at line 1\n  x <= 3\n  -x <= +inf\npoint 2: exit\n  x <= 3\n  -x <= +inf\nimprovements: 3\n",
        ),
    ),
    (
        "solve p",
        b"int main() { int x; assume(x >= 1 && x <= 3); mid: x = 2*x; }",
        Ending::End(
            b"point 1: label mid at line 1\n  x <= 3\n  -x <= -1\npoint 2: exit\n  x <= 6\n  -x <= -2\nimprovements: 2\n",
        ),
    ),
    (
        "solve p",
        b"int main() { int x = 9223372036854775806; }",
        Ending::End(
            b"point 1: exit\n  x <= 9223372036854775806\n  -x <= -9223372036854775806\nimprovements: 1\n",
        ),
    ),
    (
        "solve p",
        b"int main() { int x; assume(x != 1 && x != 2 && x != 3 && x != 4 && x != 5 && x != 6); }",
        Ending::End(
            b"point 1: assume at line 1\n  x <= +inf\n  -x <= +inf\npoint 2: exit\n  x <= +inf\n  -x <= +inf\nimprovements: 2\n",
        ),
    ),
];

#[test]
fn loops_have_least_bounds(rt: HostRuntime) {
    assert_eq!(rt; first_wrong(rt.alloc(), LOOPS), None);
}

// Whether the report over plain files and streams is the whole one.
fn is_whole(alloc: Global) -> Result<bool, AllocError> {
    let mut files = Vec::new(alloc);
    files.push((String::from_str(alloc, "p")?, LINE.to_vec(alloc)?))?;
    let words = strings(alloc, &["solve", "p"])?;
    let mut shelf = PlainShelf::new(alloc, files);
    let mut out = PlainSink::new(alloc, 4096)?;
    let mut err = PlainSink::new(alloc, 1024)?;
    let status = run_in_memory(alloc, &words, &mut shelf, &mut out, &mut err);
    Ok(status == Status::Done && out.bytes() == WHOLE && err.bytes().is_empty())
}

#[test]
fn plain_files_and_streams_do(rt: HostRuntime) {
    assert!(rt; is_whole(rt.alloc()) == Ok(true));
}

// A point of each kind, and an assumption with two cases.
const KINDS: &[u8] = b"int main() {
    int x = 0, y;
    assume(x < y || y < 0);
    while (x < 10) {
        if (y > 0) {
            x++;
        } else
            x = x + 2;
    }
end:
    y = x;
    do {
        y--;
    } while (y > 0);
}
";

const LISTED: &[(&str, &[u8], Ending)] = &[
    (
        "points p",
        KINDS,
        Ending::Report(
            b"point 0: entry\npoint 1: assume at line 3\npoint 2: loop at line 4\npoint 3: join at line 5\
                \npoint 4: label end at line 10\npoint 5: loop at line 12\npoint 6: exit\n",
        ),
    ),
    // The points of both branches come before their join.
    (
        "points p",
        b"int main() { int x;\nif (x < 1) { for (x = 0; x < 5; x++) ; } else { a: x = 1; b: ; }\nc: x = 2; }",
        Ending::Report(
            b"point 0: entry\npoint 1: loop at line 2\npoint 2: label a at line 2\npoint 3: label b at line 2\
                \npoint 4: join at line 2\npoint 5: label c at line 3\npoint 6: exit\n",
        ),
    ),
    // An assumption with one case makes no point.
    (
        "points p",
        b"int main() { int x; assume(x > 0);\nassume(x != 3); }",
        Ending::Report(b"point 0: entry\npoint 1: assume at line 2\npoint 2: exit\n"),
    ),
    // What nothing leads to is listed like any other point.
    (
        "points p",
        b"int main() { int x = 1; while (x < 0) { in: x++; } }",
        Ending::Report(
            b"point 0: entry\npoint 1: loop at line 1\npoint 2: label in at line 1\npoint 3: exit\n",
        ),
    ),
    (
        "points p",
        LINE,
        Ending::Report(b"point 0: entry\npoint 1: exit\n"),
    ),
    // Nothing is computed: what is too wide for `solve` has its points.
    (
        "points p",
        b"int main() { int x; x = 3037000500*x; x = 3037000500*x; }",
        Ending::Report(b"point 0: entry\npoint 1: exit\n"),
    ),
];

#[test]
fn points_are_listed(rt: HostRuntime) {
    assert_eq!(rt; first_wrong(rt.alloc(), LISTED), None);
}

// A line of words, how many branches a program of twelve variables has, and how the run over it ends.
impl Case for (&str, usize, Ending<'_>) {
    fn is_right(&self, alloc: Global) -> bool {
        let text = repeated(
            alloc,
            b"int main() { int a, b, c, d, e, f, g, h, i, j, k, l; ",
            b"if (a < 1) ; ",
            self.1,
            b"}",
        );
        match text {
            Ok(text) => ends(alloc, self.0, &text, b"", self.2),
            Err(_) => false,
        }
    }
}

// There may be 1,024 points; with the 156 rows of zones for each there are too many unknowns for `solve`.
const COUNTED: &[(&str, usize, Ending)] = &[
    (
        "solve p --domain zones",
        1022,
        Ending::Refused(4, b"program refused: 159744 unknowns\n"),
    ),
    (
        "points p",
        1022,
        Ending::End(b"point 1021: join at line 1\npoint 1022: join at line 1\npoint 1023: exit\n"),
    ),
    (
        "points p",
        1023,
        Ending::Refused(4, b"program refused: 1025 points\n"),
    ),
];

#[test]
fn points_are_counted(rt: HostRuntime) {
    assert_eq!(rt; first_wrong(rt.alloc(), COUNTED), None);
}

// A program of 64 variables that are 0, and the last of them 7 behind a label.
fn many_variables(alloc: Global) -> Result<Vec<u8>, AllocError> {
    let mut text = String::from_str(alloc, "int main() { int v0 = 0")?;
    for number in 1..64u32 {
        write!(text, ", v{number} = 0")?;
    }
    text.push_str("; a: v63 = 7; }")?;
    Ok(text.into_bytes())
}

// The head of a point, and the bounds of the first 63 variables, the same on both sides, and of the last one.
fn write_point(
    text: &mut String,
    head: &str,
    first: &str,
    above: &str,
    below: &str,
) -> Result<(), AllocError> {
    text.push_str(head)?;
    for number in 0..63u32 {
        write!(text, "\n  v{number} <= {first}\n  -v{number} <= {first}")?;
    }
    write!(text, "\n  v63 <= {above}\n  -v63 <= {below}\n")?;
    Ok(())
}

// Its report: nothing is known at the entry, all are 0 at the label, and the last one is 7 at the exit. Each of two edges takes a round.
fn many_bounds(alloc: Global) -> Result<Vec<u8>, AllocError> {
    let mut text = String::from_str(alloc, "variables v0")?;
    for number in 1..64u32 {
        write!(text, " v{number}")?;
    }
    write_point(&mut text, "\npoint 0: entry", "+inf", "+inf", "+inf")?;
    write_point(&mut text, "point 1: label a at line 1", "0", "0", "0")?;
    write_point(&mut text, "point 2: exit", "0", "7", "-7")?;
    text.push_str("improvements: 2\n")?;
    Ok(text.into_bytes())
}

#[test]
fn sixty_four_variables_have_bounds(rt: HostRuntime) {
    match (many_variables(rt.alloc()), many_bounds(rt.alloc())) {
        (Ok(text), Ok(report)) => {
            assert!(rt; ends(rt.alloc(), "solve p", &text, b"", Ending::Report(&report)));
        }
        _ => assert!(rt; false),
    }
}

// The loop to 100 has three points: each is a piece.
const PIECES: &[(&[&str], usize, usize, u8)] = &[
    (&["points", "p"], 3, 0, 0),
    (&["points", "q"], 0, 1, 3),
];

#[test]
fn points_are_put_line_by_line(rt: HostRuntime) {
    assert_eq!(rt; first_wrong(rt.alloc(), PIECES), None);
}
