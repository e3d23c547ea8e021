//! Certificates that are upgraded: each that reads is written, valid or not, and its check ends as before.

use crate::cases::{Case, Ending, ends, first_wrong, run_line, run_over};
use crate::refused::certificates::{
    BARE_RAY, JUMP_FROM_ITS_BOUND, JUMP_PROGRAM, LISTED_RAY, LOOP, LOOP_PROGRAM, LOOP_REPORT, RAY,
    RAY_PROGRAM, RAY_REPORT, changed,
};
use std::alloc::{AllocError, Global};
use test_cases::{is_as_wanted, shelf, strings};

// Whether a certificate is upgraded in one piece, its upgrade is upgraded to itself, and the checks of both end so.
fn is_upgraded(
    alloc: Global,
    program: &str,
    certificate: &str,
    ending: Ending,
) -> Result<bool, AllocError> {
    let text = program.as_bytes();
    let given = certificate.as_bytes();
    let first = run_line(alloc, "upgrade f", b"", given)?;
    let bytes = first.out.bytes();
    let second = run_line(alloc, "upgrade f", b"", bytes)?;
    Ok(
        is_as_wanted(&first, 0, bytes, b"")
            && first.out.pieces().len() == 1
            && is_as_wanted(&second, 0, bytes, b"")
            && ends(alloc, "check p f", text, given, ending)
            && ends(alloc, "check p f", text, bytes, ending),
    )
}

// A program, a certificate, and how its check ends.
impl Case for (&str, &str, Ending<'_>) {
    fn is_right(&self, alloc: Global) -> bool {
        is_upgraded(alloc, self.0, self.1, self.2) == Ok(true)
    }
}

const UPGRADED: &[(&str, &str, Ending)] = &[
    (RAY_PROGRAM, RAY, Ending::Report(RAY_REPORT)),
    (RAY_PROGRAM, LISTED_RAY, Ending::Report(RAY_REPORT)),
    (RAY_PROGRAM, BARE_RAY, Ending::Report(RAY_REPORT)),
    (LOOP_PROGRAM, LOOP, Ending::Report(LOOP_REPORT)),
    (
        JUMP_PROGRAM,
        JUMP_FROM_ITS_BOUND,
        Ending::Refused(1, b"certificate refused: low, step 1, item 0\n"),
    ),
    (
        "int main() { }",
        RAY,
        Ending::Refused(4, b"program refused: no variables\n"),
    ),
];

#[test]
fn upgraded_certificates_are_checked_alike(rt: HostRuntime) {
    assert_eq!(rt; first_wrong(rt.alloc(), UPGRADED), None);
}

// What is put in whose place in the certificate with a ray, where the upgrade is that certificate in format 3.
impl Case for (&str, &str) {
    fn is_right(&self, alloc: Global) -> bool {
        match changed(alloc, RAY, self.0, self.1) {
            Ok(bytes) => {
                let written = Ending::Report(BARE_RAY.as_bytes());
                ends(alloc, "upgrade f", b"", &bytes, written)
            }
            Err(_) => false,
        }
    }
}

const WRITTEN: &[(&str, &str)] = &[
    ("~", "~"),
    (
        r#""free":["7"],"start":["0"]"#,
        r#""free":["7","0"],"start":[]"#,
    ),
    ("\"format\":1,", "\n \"format\" : 1 ,\t"),
    ("{\"bounds\"", "{\"format\":1,\"bounds\""),
];

#[test]
fn certificates_are_written_without_blanks(rt: HostRuntime) {
    assert_eq!(rt; first_wrong(rt.alloc(), WRITTEN), None);
}

// What is put in whose place in the certificate with a ray, the code and the message.
impl Case for (&str, &str, u8, &[u8]) {
    fn is_right(&self, alloc: Global) -> bool {
        match changed(alloc, RAY, self.0, self.1) {
            Ok(bytes) => {
                let refused = Ending::Refused(self.2, self.3);
                ends(alloc, "upgrade f", b"", &bytes, refused)
            }
            Err(_) => false,
        }
    }
}

const REFUSED: &[(&str, &str, u8, &[u8])] = &[
    (
        "\"format\":1",
        "\"format\":4",
        1,
        b"certificate refused: format\n",
    ),
    ("\"format\":1,", "", 1, b"certificate refused: field top\n"),
    (
        "\"edge\":0",
        "\"edge\":4294967296",
        1,
        b"certificate refused: field steps\n",
    ),
    (
        "\"rate\":\"1\"",
        "\"rate\":\"01\"",
        1,
        b"certificate refused: number in steps\n",
    ),
    (",\"uppers\":", "", 1, b"certificate refused: not json\n"),
];

#[test]
fn other_bytes_are_not_upgraded(rt: HostRuntime) {
    assert_eq!(rt; first_wrong(rt.alloc(), REFUSED), None);
}

const SIZES: &[(&str, usize, u8, &[u8])] = &[
    ("upgrade f", 16_777_217, 3, b"too long: the certificate\n"),
    (
        "upgrade f",
        16_777_216,
        1,
        b"certificate refused: not json\n",
    ),
];

#[test]
fn upgraded_certificates_have_a_size(rt: HostRuntime) {
    assert_eq!(rt; first_wrong(rt.alloc(), SIZES), None);
}

// Whether an upgrade, where these loads and these puts fail, ends with this code, this output and this message.
fn stops(
    alloc: Global,
    name: &str,
    loads: &[u32],
    puts: &[(u32, usize)],
    code: u8,
    out: &[u8],
    err: &[u8],
) -> Result<bool, AllocError> {
    let words = strings(alloc, &["upgrade", name])?;
    let mut shelf = shelf(alloc, b"", RAY.as_bytes(), loads)?;
    let written = run_over(alloc, &words, &mut shelf, puts, &[])?;
    Ok(is_as_wanted(&written, code, out, err))
}

// The name of the file, the loads and the puts that fail, the code, the output and the message.
impl Case for (&str, &[u32], &[(u32, usize)], u8, &[u8], &[u8]) {
    fn is_right(&self, alloc: Global) -> bool {
        stops(alloc, self.0, self.1, self.2, self.3, self.4, self.5) == Ok(true)
    }
}

const STOPPED: &[(&str, &[u32], &[(u32, usize)], u8, &[u8], &[u8])] = &[
    ("q", &[], &[], 3, b"", b"cannot read the certificate\n"),
    ("f", &[0], &[], 3, b"", b"cannot read the certificate\n"),
    ("f", &[], &[(0, 5)], 8, b"{\"bou", b"cannot write\n"),
    ("p", &[], &[], 1, b"", b"certificate refused: not json\n"),
];

#[test]
fn an_upgrade_stops(rt: HostRuntime) {
    assert_eq!(rt; first_wrong(rt.alloc(), STOPPED), None);
}
