//! Templates, and the rows that files read as.

use crate::texts::{Case, first_wrong};
use flow_templates::{RowFault, Template, from_rows, intervals, octagons, read_rows, zones};
use lang_tree::{Coeffs, Name};
use std::alloc::{AllocError, Global};
use test_cases::repeated;

/// Whether these are the template's rows.
pub(crate) fn has_rows(template: &Template, rows: &[&[i64]]) -> bool {
    let kept = template.as_slice();
    if kept.len() != rows.len() {
        return false;
    }
    kept.iter()
        .zip(rows)
        .all(|(row, wanted)| row.as_slice() == *wanted)
}

// The rows of a domain over three variables or fewer.
fn rows_of(alloc: Global, domain: Domain, vars: u32) -> Option<Template> {
    if vars != 1 && vars != 2 && vars != 3 {
        return None;
    }
    match domain {
        Domain::Intervals => intervals(alloc, vars).ok(),
        Domain::Zones => zones(alloc, vars).ok(),
        Domain::Octagons => octagons(alloc, vars).ok(),
    }
}

// A domain, the number of variables, and the rows.
impl Case for (Domain, u32, &[&[i64]]) {
    fn is_right(&self, alloc: Global) -> bool {
        match rows_of(alloc, self.0, self.1) {
            Some(template) => has_rows(&template, self.2),
            None => false,
        }
    }
}

#[derive(Clone, Copy)]
enum Domain {
    Intervals,
    Zones,
    Octagons,
}

const ONE: &[&[i64]] = &[&[1], &[-1]];

const TEMPLATES: &[(Domain, u32, &[&[i64]])] = &[
    (Domain::Intervals, 1, ONE),
    (Domain::Zones, 1, ONE),
    (Domain::Octagons, 1, ONE),
    (
        Domain::Intervals,
        2,
        &[&[1, 0], &[-1, 0], &[0, 1], &[0, -1]],
    ),
    (
        Domain::Zones,
        2,
        &[&[1, 0], &[-1, 0], &[0, 1], &[0, -1], &[1, -1], &[-1, 1]],
    ),
    (
        Domain::Octagons,
        2,
        &[
            &[1, 0],
            &[-1, 0],
            &[0, 1],
            &[0, -1],
            &[1, 1],
            &[1, -1],
            &[-1, 1],
            &[-1, -1],
        ],
    ),
    (
        Domain::Intervals,
        3,
        &[
            &[1, 0, 0],
            &[-1, 0, 0],
            &[0, 1, 0],
            &[0, -1, 0],
            &[0, 0, 1],
            &[0, 0, -1],
        ],
    ),
    (
        Domain::Zones,
        3,
        &[
            &[1, 0, 0],
            &[-1, 0, 0],
            &[0, 1, 0],
            &[0, -1, 0],
            &[0, 0, 1],
            &[0, 0, -1],
            &[1, -1, 0],
            &[1, 0, -1],
            &[-1, 1, 0],
            &[0, 1, -1],
            &[-1, 0, 1],
            &[0, -1, 1],
        ],
    ),
    (
        Domain::Octagons,
        3,
        &[
            &[1, 0, 0],
            &[-1, 0, 0],
            &[0, 1, 0],
            &[0, -1, 0],
            &[0, 0, 1],
            &[0, 0, -1],
            &[1, 1, 0],
            &[1, -1, 0],
            &[-1, 1, 0],
            &[-1, -1, 0],
            &[1, 0, 1],
            &[1, 0, -1],
            &[-1, 0, 1],
            &[-1, 0, -1],
            &[0, 1, 1],
            &[0, 1, -1],
            &[0, -1, 1],
            &[0, -1, -1],
        ],
    ),
];

#[test]
fn domains_have_their_rows(rt: HostRuntime) {
    assert_eq!(rt; first_wrong(rt.alloc(), TEMPLATES), None);
}

// The template of a domain over so many variables, or why there is none; nothing where a program can't have so many.
fn large(alloc: Global, domain: Domain, vars: u32) -> Option<Result<Template, RowFault>> {
    if vars == 0 || vars > 64 {
        return None;
    }
    match domain {
        Domain::Intervals => Some(intervals(alloc, vars).map_err(|_| RowFault::NoMemory)),
        Domain::Zones => Some(zones(alloc, vars)),
        Domain::Octagons => Some(octagons(alloc, vars)),
    }
}

// A domain, the number of variables, whether there is a template, and how many rows it has or would have.
impl Case for (Domain, u32, bool, u32) {
    fn is_right(&self, alloc: Global) -> bool {
        match large(alloc, self.0, self.1) {
            Some(Ok(template)) => self.2 && template.as_slice().len() == self.3 as usize,
            Some(Err(fault)) => !self.2 && fault == RowFault::Large { count: self.3 },
            None => false,
        }
    }
}

const SIZES: &[(Domain, u32, bool, u32)] = &[
    (Domain::Intervals, 64, true, 128),
    (Domain::Zones, 44, true, 1980),
    (Domain::Zones, 45, false, 2070),
    (Domain::Octagons, 32, true, 2048),
    (Domain::Octagons, 33, false, 2178),
    (Domain::Octagons, 64, false, 8192),
];

#[test]
fn templates_have_so_many_rows(rt: HostRuntime) {
    assert_eq!(rt; first_wrong(rt.alloc(), SIZES), None);
}

// The row with these coefficients.
fn row_of(alloc: Global, coefficients: &[i8]) -> Result<Coeffs, AllocError> {
    let mut list = Vec::new(alloc);
    for c in coefficients {
        list.push(i64::from(*c))?;
    }
    Ok(Coeffs::new(list))
}

// What these rows are over two variables; nothing where they are too many.
fn given(alloc: Global, rows: &[&[i8]]) -> Option<Result<Template, RowFault>> {
    let mut list = Vec::new(alloc);
    for row in rows {
        list.push(row_of(alloc, row).ok()?).ok()?;
    }
    if list.len() > 200 {
        return None;
    }
    Some(from_rows(alloc, &list, 2))
}

// Rows, and what is wrong with them.
impl Case for (&[&[i8]], Option<RowFault>) {
    fn is_right(&self, alloc: Global) -> bool {
        match given(alloc, self.0) {
            Some(answer) => answer.err() == self.1,
            None => false,
        }
    }
}

const GIVEN: &[(&[&[i8]], Option<RowFault>)] = &[
    (&[&[1, 2], &[-1, 0]], None),
    (&[], Some(RowFault::Count { count: 0 })),
    (
        &[&[1, 2], &[0], &[0, 0]],
        Some(RowFault::Length { line: 2 }),
    ),
    (&[&[0, 0], &[1]], Some(RowFault::ZeroRow { line: 1 })),
    (&[&[0, 0, 0]], Some(RowFault::Length { line: 1 })),
];

#[test]
fn refuses_rows(rt: HostRuntime) {
    assert_eq!(rt; first_wrong(rt.alloc(), GIVEN), None);
}

// What a text reads as over two variables of these names; nothing where it is too long or a name is none.
fn read(alloc: Global, text: &[u8], names: [&[u8]; 2]) -> Option<Result<Template, RowFault>> {
    if text.len() > 65_536 {
        return None;
    }
    let names = [Name::new(names[0])?, Name::new(names[1])?];
    Some(read_rows(alloc, text, &names))
}

// Whether the text reads as these rows.
fn reads_as(alloc: Global, text: &[u8], names: [&[u8]; 2], rows: &[&[i64]]) -> bool {
    match read(alloc, text, names) {
        Some(Ok(template)) => has_rows(&template, rows),
        _ => false,
    }
}

// Whether the text over `x` and `y` has this fault, or reads as rows where there is none.
fn has_fault(alloc: Global, text: &[u8], fault: Option<RowFault>) -> bool {
    match read(alloc, text, [b"x", b"y"]) {
        Some(answer) => answer.err() == fault,
        None => false,
    }
}

// A text over `x` and `y`, and its rows.
impl Case for (&str, &[&[i64]]) {
    fn is_right(&self, alloc: Global) -> bool {
        reads_as(alloc, self.0.as_bytes(), [b"x", b"y"], self.1)
    }
}

const FILES: &[(&str, &[&[i64]])] = &[
    ("x + 2*y\n", &[&[1, 2]]),
    (
        "# rows / x\r\n\r\n \t-x\r\n\n  # more\ny",
        &[&[-1, 0], &[0, 1]],
    ),
    ("\t+ 2 *x - y+3* x", &[&[5, -1]]),
    ("x - y + y", &[&[1, 0]]),
    (
        "9223372036854775807*x - x + x",
        &[&[9223372036854775807, 0]],
    ),
    ("-9223372036854775807*y", &[&[0, -9223372036854775807]]),
    ("x\nx\n0*y + x", &[&[1, 0], &[1, 0], &[1, 0]]),
];

#[test]
fn reads_rows(rt: HostRuntime) {
    assert_eq!(rt; first_wrong(rt.alloc(), FILES), None);
}

// A text over `x` and `y`, and its fault.
impl Case for (&str, RowFault) {
    fn is_right(&self, alloc: Global) -> bool {
        has_fault(alloc, self.0.as_bytes(), Some(self.1))
    }
}

const FAULTS: &[(&str, RowFault)] = &[
    ("", RowFault::Count { count: 0 }),
    ("\n# none\n", RowFault::Count { count: 0 }),
    ("x\n0*x", RowFault::ZeroRow { line: 2 }),
    ("x - 2*y - x + 2*y", RowFault::ZeroRow { line: 1 }),
    ("x + z", RowFault::UnknownName { line: 1 }),
    ("0*z", RowFault::UnknownName { line: 1 }),
    ("z\nx y", RowFault::UnknownName { line: 1 }),
    ("x\n\n#\nx y\nz", RowFault::BadRow { line: 4 }),
    (
        "a2345678901234567890123456789012",
        RowFault::UnknownName { line: 1 },
    ),
];

// Texts whose first line is no row.
const BAD_ROWS: &[&str] = &[
    "9223372036854775807*x + x - x",
    "9223372036854775807*z + z - z",
    "9223372036854775808*x",
    "02*x",
    "2x",
    "x*2",
    "x++y",
    "x + -y",
    "x -",
    "int",
    "x // y",
    "x /* y */",
    "x # y",
    "a23456789012345678901234567890123",
];

#[test]
fn refuses_row_files(rt: HostRuntime) {
    let bad = Some(RowFault::BadRow { line: 1 });
    let wrong = BAD_ROWS
        .iter()
        .position(|text| !has_fault(rt.alloc(), text.as_bytes(), bad));
    assert_eq!(rt; first_wrong(rt.alloc(), FAULTS), None);
    assert_eq!(rt; wrong, None);
}

// How many rows `x` stand before, what stands behind them, and the fault of the text.
impl Case for (usize, &[u8], Option<RowFault>) {
    fn is_right(&self, alloc: Global) -> bool {
        match repeated(alloc, b"", b"x\n", self.0, self.1) {
            Ok(text) => has_fault(alloc, text.as_slice(), self.2),
            Err(_) => false,
        }
    }
}

const COUNTS: &[(usize, &[u8], Option<RowFault>)] = &[
    (2048, b"", None),
    (2049, b"", Some(RowFault::Count { count: 2049 })),
    (200, b"y - y", Some(RowFault::ZeroRow { line: 201 })),
];

#[test]
fn counts_rows(rt: HostRuntime) {
    assert_eq!(rt; first_wrong(rt.alloc(), COUNTS), None);
}

#[test]
fn the_first_of_two_names_counts(rt: HostRuntime) {
    assert!(rt;
        reads_as(
            rt.alloc(),
            b"3*x",
            [b"x", b"x"],
            [[3, 0].as_slice()].as_slice()
        )
    );
}
