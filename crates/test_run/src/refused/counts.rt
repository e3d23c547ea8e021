//! Certificates of many rows, for programs of many points.

use crate::cases::{Case, Ending, ends, first_wrong};
use std::alloc::{AllocError, Global};

// A program of one variable and so many labels.
fn labelled(alloc: Global, count: u32) -> Result<Vec<u8>, AllocError> {
    let mut text = Vec::new(alloc);
    text.extend_from_slice(b"int main() { int x; ")?;
    for number in 0..count {
        text.extend_from_slice(format!(in alloc; "l{number}: ")?.as_bytes())?;
    }
    text.extend_from_slice(b"; }")?;
    Ok(text)
}

// A certificate of so many rows `x`, and nothing else.
fn rows_only(alloc: Global, count: u32) -> Result<Vec<u8>, AllocError> {
    let mut text = Vec::new(alloc);
    text.extend_from_slice(b"{\"bounds\":[],\"format\":1,\"rows\":[[\"1\"]")?;
    for _ in 1..count {
        text.extend_from_slice(b",[\"1\"]")?;
    }
    text.extend_from_slice(b"],\"steps\":[],\"uppers\":[]}")?;
    Ok(text)
}

// How many labels the program and rows the certificate has, the code and the message.
impl Case for (u32, u32, u8, &[u8]) {
    fn is_right(&self, alloc: Global) -> bool {
        match (labelled(alloc, self.0), rows_only(alloc, self.1)) {
            (Ok(text), Ok(bytes)) => {
                ends(
                    alloc,
                    "check p f",
                    &text,
                    &bytes,
                    Ending::Refused(self.2, self.3),
                )
            }
            _ => false,
        }
    }
}

const COUNTS: &[(u32, u32, u8, &[u8])] = &[
    (1022, 65, 1, b"certificate refused: 66560 unknowns\n"),
    (1022, 64, 1, b"certificate refused: size\n"),
    (30, 2048, 1, b"certificate refused: size\n"),
    (30, 2049, 1, b"certificate refused: rows\n"),
    (1023, 1, 4, b"program refused: 1025 points\n"),
];

#[test]
fn unknowns_and_points_are_counted(rt: HostRuntime) {
    assert_eq!(rt; first_wrong(rt.alloc(), COUNTS), None);
}
