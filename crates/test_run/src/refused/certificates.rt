//! Certificates: those that are accepted, and why others are refused.

use crate::cases::{Case, Ending, ends, first_wrong, run_over};
use std::alloc::{AllocError, Global};
use std::test::Fail;
use test_cases::{is_as_wanted, repeated, shelf, strings};

pub(crate) const JUMP_PROGRAM: &str = "int main() { int x = 0; while (nondet()) { x = x; } }";

pub(crate) const JUMP_FROM_ITS_BOUND: &str =
    r#"{"bounds":[["+inf","+inf"],["5","0"],["5","0"]],"format":1,"rows":[["1"],["-1"]],"steps":[{"items":[{"edge":0,"to":"0","low":{"free":[],"start":["0"]},"unknown":[1,0]},{"edge":0,"to":"0","low":{"free":[],"start":["0"]},"unknown":[1,1]}],"kind":"plain"},{"items":[{"edge":1,"high":{"free":[],"start":["5"]},"low":{"free":[],"start":["0"]},"to":"5","unknown":[1,0]}],"kind":"jump"}],"uppers":[]}"#;

pub(crate) const RAY_PROGRAM: &str = "int main() { int x; assume(x <= 7); }";

pub(crate) const RAY: &str =
    r#"{"bounds":[["+inf","+inf"],["7","+inf"]],"format":1,"rows":[["1"],["-1"]],"steps":[{"items":[{"edge":0,"low":{"free":["7"],"start":["0"]},"to":"7","unknown":[1,0]}],"kind":"plain"},{"items":[{"direction":{"free":["-1"],"start":["0"]},"edge":0,"low":{"free":["0"],"start":["0"]},"rate":"1","unknown":[1,1]}],"kind":"ray"}],"uppers":[{"guards":["1"],"kind":"bound","rows":["0","0"]}]}"#;

// The same in format 2.
pub(crate) const LISTED_RAY: &str =
    r#"{"bounds":[["+inf","+inf"],["7","+inf"]],"format":2,"rows":[["1"],["-1"]],"steps":[{"items":[{"edge":0,"low":0,"to":"7","unknown":[1,0]}],"kind":"plain"},{"items":[{"direction":2,"edge":0,"low":1,"rate":"1","unknown":[1,1]}],"kind":"ray"}],"traces":[{"free":["7"],"start":["0"]},{"free":["0"],"start":["0"]},{"free":["-1"],"start":["0"]}],"uppers":[{"guards":["1"],"kind":"bound","rows":["0","0"]}]}"#;

// The same in format 3.
pub(crate) const BARE_RAY: &str =
    r#"{"bounds":[["+inf","+inf"],["7","+inf"]],"format":3,"rows":[[[0,"1"]],[[0,"-1"]]],"steps":[{"items":[{"edge":0,"low":0,"to":"7","unknown":[1,0]}],"kind":"plain"},{"items":[{"direction":2,"edge":0,"low":1,"rate":"1","unknown":[1,1]}],"kind":"ray"}],"traces":[{"free":[[0,"7"]],"start":[]},{"free":[],"start":[]},{"free":[[0,"-1"]],"start":[]}],"uppers":[{"guards":[[0,"1"]],"kind":"bound","rows":[]}]}"#;

pub(crate) const RAY_REPORT: &[u8] = b"variables x
point 0: entry
  x <= +inf
  -x <= +inf
point 1: exit
  x <= 7
  -x <= +inf
certificate: accepted
";

const LINE_PROGRAM: &str = "int main() { int x = 1; }";

const LINE: &str =
    r#"{"bounds":[["+inf","+inf"],["1","-1"]],"format":1,"rows":[["1"],["-1"]],"steps":[{"items":[{"edge":0,"low":{"free":[],"start":["0"]},"to":"1","unknown":[1,0]},{"edge":0,"low":{"free":[],"start":["0"]},"to":"-1","unknown":[1,1]}],"kind":"plain"}],"uppers":[{"guards":[],"kind":"bound","rows":["0","0"]},{"guards":[],"kind":"bound","rows":["0","0"]}]}"#;

const LINE_REPORT: &[u8] = b"variables x
point 0: entry
  x <= +inf
  -x <= +inf
point 1: exit
  x <= 1
  -x <= -1
certificate: accepted
";

pub(crate) const LOOP_PROGRAM: &str = "int main() { int x = 0; while (x < 3) x = x + 1; }";

pub(crate) const LOOP: &str =
    r#"{"bounds":[["+inf"],["3"],["3"]],"format":1,"rows":[["1"]],"steps":[{"items":[{"edge":0,"low":{"free":[],"start":["0"]},"to":"0","unknown":[1,0]}],"kind":"plain"},{"items":[{"edge":1,"high":{"free":[],"start":["2"]},"low":{"free":[],"start":["0"]},"to":"3","unknown":[1,0]}],"kind":"jump"},{"items":[{"edge":2,"low":{"free":[],"start":["3"]},"to":"3","unknown":[2,0]}],"kind":"plain"}],"uppers":[{"guards":[],"kind":"bound","rows":["0"]},{"guards":["1"],"kind":"bound","rows":["0"]},{"guards":["0"],"kind":"bound","rows":["1"]}]}"#;

pub(crate) const LOOP_REPORT: &[u8] = b"variables x
point 0: entry
  x <= +inf
point 1: loop at line 1
  x <= 3
point 2: exit
  x <= 3
certificate: accepted
";

const WIDE: &str =
    r#"{"bounds":[["+inf"],["+inf"]],"format":1,"rows":[["3037000500"]],"steps":[{"items":[{"edge":0,"low":{"free":["3037000500"],"start":["0"]},"to":"1","unknown":[1,0]}],"kind":"plain"}],"uppers":[]}"#;

const UPPER_PROGRAM: &str = "int main() { int x; assume(3037000500*x <= 7); }";

const WIDE_UPPER: &str =
    r#"{"bounds":[["+inf"],["0"]],"format":1,"rows":[["1"]],"steps":[{"items":[{"edge":0,"low":{"free":["0"],"start":["0"]},"to":"0","unknown":[1,0]}],"kind":"plain"}],"uppers":[{"guards":["3037000500"],"kind":"bound","rows":["0"]}]}"#;

// A text, and the same with one piece in another's place where that stands first.
pub(crate) fn changed(
    alloc: Global,
    text: &str,
    old: &str,
    new: &str,
) -> Result<Vec<u8>, AllocError> {
    let mut bytes = Vec::new(alloc);
    match text.split_once(old) {
        Some((before, after)) => {
            bytes.extend_from_slice(before.as_bytes())?;
            bytes.extend_from_slice(new.as_bytes())?;
            bytes.extend_from_slice(after.as_bytes())?;
        }
        None => bytes.extend_from_slice(text.as_bytes())?,
    }
    Ok(bytes)
}

// Whether the check of a certificate is refused for this cause.
pub(crate) fn is_refused(
    alloc: Global,
    program: &str,
    certificate: &[u8],
    cause: &str,
) -> Result<bool, AllocError> {
    let message = format!(in alloc; "certificate refused: {cause}\n")?;
    let refused = Ending::Refused(1, message.as_bytes());
    Ok(ends(alloc, "check p f", program.as_bytes(), certificate, refused))
}

// A program, its certificate, and the report of its check.
impl Case for (&str, &str, &[u8]) {
    fn is_right(&self, alloc: Global) -> bool {
        let (program, certificate) = (self.0.as_bytes(), self.1.as_bytes());
        ends(
            alloc,
            "check p f",
            program,
            certificate,
            Ending::Report(self.2),
        )
    }
}

const VALID: &[(&str, &str, &[u8])] = &[
    (RAY_PROGRAM, RAY, RAY_REPORT),
    (RAY_PROGRAM, LISTED_RAY, RAY_REPORT),
    (RAY_PROGRAM, BARE_RAY, RAY_REPORT),
    (LINE_PROGRAM, LINE, LINE_REPORT),
    (LOOP_PROGRAM, LOOP, LOOP_REPORT),
];

#[test]
fn valid_certificates_are_accepted(rt: HostRuntime) {
    assert_eq!(rt; first_wrong(rt.alloc(), VALID), None);
}

// A program, a certificate, what stands in it, what is put in its place, and the cause.
impl Case for (&str, &str, &str, &str, &str) {
    fn is_right(&self, alloc: Global) -> bool {
        match changed(alloc, self.1, self.2, self.3) {
            Ok(bytes) => is_refused(alloc, self.0, &bytes, self.4) == Ok(true),
            Err(_) => false,
        }
    }
}

const CHANGED: &[(&str, &str, &str, &str, &str)] = &[
    (
        JUMP_PROGRAM,
        JUMP_FROM_ITS_BOUND,
        "~",
        "~",
        "low, step 1, item 0",
    ),
    (
        RAY_PROGRAM,
        RAY,
        "\"guards\":[\"1\"]",
        "\"guards\":[\"-1\"]",
        "upper, point 1, row 0, edge 0",
    ),
    (
        RAY_PROGRAM,
        LISTED_RAY,
        "\"low\":1",
        "\"low\":3",
        "field steps",
    ),
    (
        RAY_PROGRAM,
        LISTED_RAY,
        "\"traces\":[",
        "\"traces\":[7,",
        "field traces",
    ),
    (
        RAY_PROGRAM,
        LISTED_RAY,
        "\"format\":2",
        "\"format\":1",
        "field format",
    ),
    (RAY_PROGRAM, RAY, "\"format\":1", "\"format\":4", "format"),
    (
        RAY_PROGRAM,
        RAY,
        "\"format\":1",
        "\"format\":3",
        "field format",
    ),
    (
        RAY_PROGRAM,
        RAY,
        "\"format\":1",
        "\"format\":\"1\"",
        "field format",
    ),
    (
        RAY_PROGRAM,
        RAY,
        "\"rate\":\"1\"",
        "\"rate\":\"01\"",
        "number in steps",
    ),
    (
        RAY_PROGRAM,
        RAY,
        "\"rate\":\"1\"",
        "\"rate\":\"2\"",
        "ray, step 1, item 0",
    ),
    (
        RAY_PROGRAM,
        RAY,
        r#"[{"guards":["1"],"kind":"bound","rows":["0","0"]}]"#,
        "[]",
        "upper, point 1, row 0, edge 0",
    ),
    (
        RAY_PROGRAM,
        RAY,
        "\"edge\":0",
        "\"edge\":4294967296",
        "field steps",
    ),
    (
        RAY_PROGRAM,
        RAY,
        "\"edge\":0",
        "\"edge\":4294967295",
        "trace, step 0, item 0",
    ),
    (
        RAY_PROGRAM,
        RAY,
        "\"to\":\"7\"",
        "\"to\":\"7/0\"",
        "number in steps",
    ),
    (
        RAY_PROGRAM,
        RAY,
        "\"to\":\"7\"",
        "\"to\":\"8\"",
        "low, step 0, item 0",
    ),
    (RAY_PROGRAM, RAY, "\"format\":1,", "", "field top"),
    (
        RAY_PROGRAM,
        RAY,
        "[[\"1\"],[\"-1\"]]",
        "[[\"1\"],[\"1/2\"]]",
        "number in rows",
    ),
    (
        RAY_PROGRAM,
        RAY,
        "[[\"1\"],[\"-1\"]]",
        "[[\"1\"],[\"0\"]]",
        "rows",
    ),
    (
        RAY_PROGRAM,
        RAY,
        "[[\"1\"],[\"-1\"]]",
        "[[\"1\",\"2\"],[\"-1\"]]",
        "rows",
    ),
    (
        RAY_PROGRAM,
        RAY,
        "[\"7\",\"+inf\"]",
        "[\"7\"]",
        "field bounds",
    ),
    (
        LINE_PROGRAM,
        LINE,
        "\"to\":\"1\"",
        "\"to\":\"2\"",
        "low, step 0, item 0",
    ),
    (
        LINE_PROGRAM,
        LINE,
        "[\"1\",\"-1\"]",
        "[\"2\",\"-1\"]",
        "final, point 1, row 0",
    ),
    (
        LINE_PROGRAM,
        LINE,
        "\"rows\":[\"0\",\"0\"]},{\"guards\":[],\"kind\":\"bound\",\"rows\":[\"0\",\"0\"]}",
        "\"rows\":[\"0\",\"0\"]}",
        "upper, point 1, row 1, edge 0",
    ),
    (
        LINE_PROGRAM,
        LINE,
        "\"uppers\":[",
        "\"uppers\":[{\"guards\":[],\"kind\":\"bound\",\"rows\":[\"0\",\"0\"]},",
        "size",
    ),
    (
        LINE_PROGRAM,
        LINE,
        "\"kind\":\"plain\"",
        "\"kind\":\"leap\"",
        "field steps",
    ),
    (
        LOOP_PROGRAM,
        LOOP,
        "\"start\":[\"0\"]},\"to\":\"3\"",
        "\"start\":[\"0\"]},\"to\":\"4\"",
        "high, step 1, item 0",
    ),
    (
        LOOP_PROGRAM,
        LOOP,
        "\"low\":{\"free\":[],\"start\":[\"0\"]},\"to\":\"3\"",
        "\"low\":{\"free\":[],\"start\":[\"2\"]},\"to\":\"3\"",
        "trace, step 1, item 0",
    ),
    ("int main() { int x; }", WIDE, "3037000500", "0", "rows"),
];

#[test]
fn changed_certificates_are_refused(rt: HostRuntime) {
    assert_eq!(rt; first_wrong(rt.alloc(), CHANGED), None);
}

// A certificate in format 2 with a trace of 2,048 values, and an item and so many more that name it.
fn expanding(alloc: Global, more: usize) -> Result<Vec<u8>, AllocError> {
    let first = r#"{"bounds":[],"format":2,"rows":[["1"]],"steps":[{"items":["#;
    let item = r#"{"edge":0,"low":0,"to":"0","unknown":[0,0]},"#;
    let last =
        r#"{"edge":0,"low":0,"to":"0","unknown":[0,0]}],"kind":"plain"}],"traces":[{"free":["#;
    let steps = repeated(
        alloc,
        first.as_bytes(),
        item.as_bytes(),
        more,
        last.as_bytes(),
    )?;
    let end = r#""0"],"start":[]}],"uppers":[]}"#;
    repeated(alloc, &steps, b"\"0\",", 2047, end.as_bytes())
}

#[test]
fn traces_expand_to_a_limit(rt: HostRuntime) -> Result<(), Fail> {
    let alloc = rt.alloc();
    assert!(rt; is_refused(alloc, RAY_PROGRAM, &expanding(alloc, 2047)?, "size")?);
    assert!(rt; is_refused(alloc, RAY_PROGRAM, &expanding(alloc, 2048)?, "expanded")?);
    Ok(())
}

// Whether the certificate with a ray is refused wherever it is cut.
fn cuts_are_refused(alloc: Global) -> Result<bool, AllocError> {
    let whole = RAY.as_bytes();
    for (len, _) in whole.iter().enumerate() {
        if !is_refused(alloc, RAY_PROGRAM, &whole[..len], "not json")? {
            return Ok(false);
        }
    }
    Ok(true)
}

#[test]
fn cut_certificates_are_refused(rt: HostRuntime) {
    assert!(rt; cuts_are_refused(rt.alloc()) == Ok(true));
}

// Whether the check, where the loads with these numbers fail, ends with this code and this message.
fn stops(
    alloc: Global,
    text: &str,
    certificate: &str,
    fails: &[u32],
    code: u8,
    message: &str,
) -> Result<bool, AllocError> {
    let words = strings(alloc, &["check", "p", "f"])?;
    let mut shelf = shelf(alloc, text.as_bytes(), certificate.as_bytes(), fails)?;
    let written = run_over(alloc, &words, &mut shelf, &[], &[])?;
    Ok(is_as_wanted(&written, code, b"", message.as_bytes()))
}

// A program, a certificate, the loads that fail, the code and the message.
impl Case for (&str, &str, &[u32], u8, &str) {
    fn is_right(&self, alloc: Global) -> bool {
        stops(alloc, self.0, self.1, self.2, self.3, self.4) == Ok(true)
    }
}

const STOPPED: &[(&str, &str, &[u32], u8, &str)] = &[
    (
        "int main() { int x; }",
        WIDE,
        &[],
        5,
        "wide: mul 3037000500 3037000500 at step 0 item 0\n",
    ),
    (
        UPPER_PROGRAM,
        WIDE_UPPER,
        &[],
        5,
        "wide: mul 3037000500 3037000500 at upper point 1 row 0 edge 0\n",
    ),
    (
        "int main() { int x; x = 3037000500*x; x = 3037000500*x; }",
        RAY,
        &[],
        5,
        "wide: mul 3037000500 3037000500 at compose edge 0\n",
    ),
    (RAY_PROGRAM, RAY, &[0], 3, "cannot read the program\n"),
    (RAY_PROGRAM, RAY, &[1], 3, "cannot read the certificate\n"),
    (
        "int main() { x = 1; }",
        "",
        &[],
        4,
        "program refused: unknown name at line 1\n",
    ),
    (
        "int main() { }",
        "{",
        &[],
        4,
        "program refused: no variables\n",
    ),
    ("", "", &[1], 3, "cannot read the certificate\n"),
];

#[test]
fn a_check_stops(rt: HostRuntime) {
    assert_eq!(rt; first_wrong(rt.alloc(), STOPPED), None);
}

// A line of words, how many blanks the certificate is, the code and the message.
impl Case for (&str, usize, u8, &[u8]) {
    fn is_right(&self, alloc: Global) -> bool {
        match repeated(alloc, b"", b" ", self.1, b"") {
            Ok(blanks) => {
                let refused = Ending::Refused(self.2, self.3);
                ends(alloc, self.0, RAY_PROGRAM.as_bytes(), &blanks, refused)
            }
            Err(_) => false,
        }
    }
}

const SIZES: &[(&str, usize, u8, &[u8])] = &[
    ("check p f", 16_777_217, 3, b"too long: the certificate\n"),
    (
        "check p f",
        16_777_216,
        1,
        b"certificate refused: not json\n",
    ),
];

#[test]
fn certificates_have_a_size(rt: HostRuntime) {
    assert_eq!(rt; first_wrong(rt.alloc(), SIZES), None);
}
