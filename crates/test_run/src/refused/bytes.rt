//! Hostile bytes in a certificate. What JSON is, `serde_json` decides: values nest at most 127 deep, an object keeps the last
//! value of a key that stands twice, and a number with a point, an exponent or past 64 bits is no whole number.

use crate::cases::{Case, Ending, ends, first_wrong};
use crate::refused::certificates::{RAY, RAY_PROGRAM, changed, is_refused};
use std::alloc::Global;
use test_cases::{joined, repeated};

const ACCEPTED: Ending = Ending::End(
    b"point 1: exit\n  x <= 7\n  -x <= +inf\ncertificate: accepted\n",
);

// Whether the bytes as a certificate of the program with a ray are refused for this cause, or accepted where it is empty.
fn is_answered(alloc: Global, bytes: &[u8], cause: &str) -> bool {
    if cause.is_empty() {
        ends(alloc, "check p f", RAY_PROGRAM.as_bytes(), bytes, ACCEPTED)
    } else {
        is_refused(alloc, RAY_PROGRAM, bytes, cause) == Ok(true)
    }
}

// What stands in the certificate with a ray, what is put in its place, and the cause; an empty one where it is accepted.
impl Case for (&str, &str, &str) {
    fn is_right(&self, alloc: Global) -> bool {
        match changed(alloc, RAY, self.0, self.1) {
            Ok(bytes) => is_answered(alloc, &bytes, self.2),
            Err(_) => false,
        }
    }
}

const FORMAT: &str = "\"format\":1";

const CHANGES: &[(&str, &str, &str)] = &[
    (FORMAT, " \"format\" :\r\n\t1", ""),
    (FORMAT, "\"f\\u006frmat\":1", ""),
    ("\"plain\"", "\"pl\\u0061in\"", ""),
    ("\"plain\"", "\"pl\\ud800in\"", "not json"),
    ("\"plain\"", "\"pl\\udc00in\"", "not json"),
    ("\"plain\"", "\"pl\\ud83d\\ude00in\"", "field steps"),
    ("\"plain\"", "'plain'", "not json"),
    ("\"unknown\":[1,0]", "\"unknown\":[1.0,0]", "field steps"),
    (
        "\"unknown\":[1,0]",
        "\"unknown\":[4294967296,0]",
        "field steps",
    ),
    (
        "\"to\":\"7\"",
        "\"to\":\"9223372036854775808\"",
        "number in steps",
    ),
    (FORMAT, "\"format\":3,\"format\":1", ""),
    (FORMAT, "\"format\":1,\"format\":4", "format"),
    (FORMAT, "\"format\":1,\"format\":3", "field format"),
    (FORMAT, "\"format\":1,\"Format\":1", "field top"),
    (FORMAT, "\"format\":1.0", "field format"),
    (FORMAT, "\"format\":1e0", "field format"),
    (FORMAT, "\"format\":-0", "field format"),
    (FORMAT, "\"format\":true", "field format"),
    (FORMAT, "\"format\":-1", "format"),
    (FORMAT, "\"format\":18446744073709551615", "format"),
    (FORMAT, "\"format\":18446744073709551616", "field format"),
    (FORMAT, "\"format\":-9223372036854775809", "field format"),
    (FORMAT, "\"format\":01", "not json"),
    (FORMAT, "\"format\":+1", "not json"),
    (FORMAT, "\"format\":1e400", "not json"),
    (FORMAT, "\"format\":NaN", "not json"),
    (FORMAT, "\"format\":1,", "not json"),
];

#[test]
fn values_are_read_as_json(rt: HostRuntime) {
    assert_eq!(rt; first_wrong(rt.alloc(), CHANGES), None);
}

// What stands before and behind the certificate with a ray, and the cause; an empty one where it is accepted.
impl Case for (&[u8], &[u8], &str) {
    fn is_right(&self, alloc: Global) -> bool {
        match joined(alloc, &[self.0, RAY.as_bytes(), self.1]) {
            Ok(bytes) => is_answered(alloc, &bytes, self.2),
            Err(_) => false,
        }
    }
}

const AROUND: &[(&[u8], &[u8], &str)] = &[
    (b"\xef\xbb\xbf", b"", "not json"),
    (b"\xff\xfe", b"", "not json"),
    (b"", b"\x00", "not json"),
    (b"", b",", "not json"),
    (b"// \n", b"", "not json"),
    (b"[", b"]", "field top"),
    (b" \t\r\n", b"\n\n", ""),
];

// Bytes in place of the certificate, and the cause.
impl Case for (&[u8], &str) {
    fn is_right(&self, alloc: Global) -> bool {
        is_answered(alloc, self.0, self.1)
    }
}

const ALONE: &[(&[u8], &str)] = &[
    (b"{\"format\":1,\"\xff\":1}", "not json"),
    (b"{\"format\":1,\"\xc0\xaf\":1}", "not json"),
    (b"{\"format\":1,\"a\nb\":1}", "not json"),
    (b"null", "field top"),
    (b"1", "field top"),
    (b"{}", "field top"),
];

#[test]
fn bytes_around_and_in_it(rt: HostRuntime) {
    assert_eq!(rt; first_wrong(rt.alloc(), AROUND), None);
    assert_eq!(rt; first_wrong(rt.alloc(), ALONE), None);
}

// How often a text stands, one after another, and the cause.
impl Case for (&str, usize, &str) {
    fn is_right(&self, alloc: Global) -> bool {
        match repeated(alloc, b"", self.0.as_bytes(), self.1, b"") {
            Ok(bytes) => is_answered(alloc, &bytes, self.2),
            Err(_) => false,
        }
    }
}

const TWICE: &[(&str, usize, &str)] = &[(RAY, 1, ""), (RAY, 2, "not json")];

#[test]
fn one_certificate_is_read(rt: HostRuntime) {
    assert_eq!(rt; first_wrong(rt.alloc(), TWICE), None);
}

// How many brackets are opened and closed again, and the cause.
impl Case for (usize, &str) {
    fn is_right(&self, alloc: Global) -> bool {
        match repeated(alloc, b"", b"[", self.0, b"") {
            Ok(open) => match repeated(alloc, &open, b"]", self.0, b"") {
                Ok(bytes) => is_answered(alloc, &bytes, self.1),
                Err(_) => false,
            },
            Err(_) => false,
        }
    }
}

const LEVELS: &[(usize, &str)] = &[
    (126, "field top"),
    (127, "field top"),
    (128, "not json"),
    (200, "not json"),
    (100_000, "not json"),
];

#[test]
fn values_nest_so_deep(rt: HostRuntime) {
    assert_eq!(rt; first_wrong(rt.alloc(), LEVELS), None);
}
