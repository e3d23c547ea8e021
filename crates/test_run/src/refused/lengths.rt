//! Certificates whose lists of fractions have another length than the program and the rows ask for.

use crate::cases::first_wrong;
use crate::refused::certificates::{BARE_RAY, LISTED_RAY, RAY, RAY_PROGRAM};

// The program, the certificate, what stands in it, what is put in its place, and the cause. In formats 1 and 2 a list is too short; in
// format 3 a place is past the length, or is none. The first one is upgraded to a certificate that is accepted.
const LENGTHS: &[(&str, &str, &str, &str, &str)] = &[
    (
        RAY_PROGRAM,
        RAY,
        r#"{"free":["7"],"start":["0"]}"#,
        r#"{"free":["7","0"],"start":[]}"#,
        "trace, step 0, item 0",
    ),
    (
        RAY_PROGRAM,
        LISTED_RAY,
        r#"{"free":["7"],"start":["0"]}"#,
        r#"{"free":["7"],"start":[]}"#,
        "trace, step 0, item 0",
    ),
    (
        RAY_PROGRAM,
        LISTED_RAY,
        r#""rows":["0","0"]"#,
        r#""rows":[]"#,
        "upper, point 1, row 0, edge 0",
    ),
    (
        RAY_PROGRAM,
        BARE_RAY,
        "[[[0,\"1\"]],",
        "[[[1,\"1\"]],",
        "rows",
    ),
    (RAY_PROGRAM, BARE_RAY, "[[[0,\"1\"]],", "[[],", "rows"),
    (
        RAY_PROGRAM,
        BARE_RAY,
        "\"start\":[]",
        "\"start\":[[1,\"1\"]]",
        "trace, step 0, item 0",
    ),
    (
        RAY_PROGRAM,
        BARE_RAY,
        "\"free\":[[0,\"7\"]]",
        "\"free\":[[0,\"7\"],[4294967295,\"1\"]]",
        "trace, step 0, item 0",
    ),
    (
        RAY_PROGRAM,
        BARE_RAY,
        "\"free\":[[0,\"7\"]]",
        "\"free\":[[0,\"0\"]]",
        "field traces",
    ),
    (
        RAY_PROGRAM,
        BARE_RAY,
        "\"guards\":[[0,\"1\"]]",
        "\"guards\":[[0,\"1\"],[1,\"1\"]]",
        "upper, point 1, row 0, edge 0",
    ),
    (
        RAY_PROGRAM,
        BARE_RAY,
        "\"rows\":[]",
        "\"rows\":[[2,\"1\"]]",
        "upper, point 1, row 0, edge 0",
    ),
];

#[test]
fn lists_have_the_length_that_is_asked_for(rt: HostRuntime) {
    assert_eq!(rt; first_wrong(rt.alloc(), LENGTHS), None);
}
