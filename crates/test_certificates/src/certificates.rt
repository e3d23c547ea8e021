//! Texts of certificates in each format: what is read is written again in format 3, byte for byte.

use cert_text::{read, write};
use std::alloc::Global;
use std::test::Fail;

// A plain step, a jump and another plain step.
const JUMP: [&str; 3] = [
    r#"{"bounds":[["+inf"],["3"],["3"]],"format":1,"rows":[["1"]],"steps":[{"items":[{"edge":0,"low":{"free":[],"start":["0"]},"to":"0","unknown":[1,0]}],"kind":"plain"},{"items":[{"edge":1,"high":{"free":[],"start":["2"]},"low":{"free":[],"start":["0"]},"to":"3","unknown":[1,0]}],"kind":"jump"},{"items":[{"edge":2,"low":{"free":[],"start":["3"]},"to":"3","unknown":[2,0]}],"kind":"plain"}],"uppers":[{"guards":[],"kind":"bound","rows":["0"]},{"guards":["1"],"kind":"bound","rows":["0"]},{"guards":["0"],"kind":"bound","rows":["1"]}]}"#,
    r#"{"bounds":[["+inf"],["3"],["3"]],"format":2,"rows":[["1"]],"steps":[{"items":[{"edge":0,"low":0,"to":"0","unknown":[1,0]}],"kind":"plain"},{"items":[{"edge":1,"high":1,"low":0,"to":"3","unknown":[1,0]}],"kind":"jump"},{"items":[{"edge":2,"low":2,"to":"3","unknown":[2,0]}],"kind":"plain"}],"traces":[{"free":[],"start":["0"]},{"free":[],"start":["2"]},{"free":[],"start":["3"]}],"uppers":[{"guards":[],"kind":"bound","rows":["0"]},{"guards":["1"],"kind":"bound","rows":["0"]},{"guards":["0"],"kind":"bound","rows":["1"]}]}"#,
    r#"{"bounds":[["+inf"],["3"],["3"]],"format":3,"rows":[[[0,"1"]]],"steps":[{"items":[{"edge":0,"low":0,"to":"0","unknown":[1,0]}],"kind":"plain"},{"items":[{"edge":1,"high":1,"low":0,"to":"3","unknown":[1,0]}],"kind":"jump"},{"items":[{"edge":2,"low":2,"to":"3","unknown":[2,0]}],"kind":"plain"}],"traces":[{"free":[],"start":[]},{"free":[],"start":[[0,"2"]]},{"free":[],"start":[[0,"3"]]}],"uppers":[{"guards":[],"kind":"bound","rows":[]},{"guards":[[0,"1"]],"kind":"bound","rows":[]},{"guards":[],"kind":"bound","rows":[[0,"1"]]}]}"#,
];

// A plain step and a ray.
pub const RAY: [&str; 3] = [
    r#"{"bounds":[["+inf","+inf"],["7","+inf"]],"format":1,"rows":[["1"],["-1"]],"steps":[{"items":[{"edge":0,"low":{"free":["7"],"start":["0"]},"to":"7","unknown":[1,0]}],"kind":"plain"},{"items":[{"direction":{"free":["-1"],"start":["0"]},"edge":0,"low":{"free":["0"],"start":["0"]},"rate":"1","unknown":[1,1]}],"kind":"ray"}],"uppers":[{"guards":["1"],"kind":"bound","rows":["0","0"]}]}"#,
    r#"{"bounds":[["+inf","+inf"],["7","+inf"]],"format":2,"rows":[["1"],["-1"]],"steps":[{"items":[{"edge":0,"low":0,"to":"7","unknown":[1,0]}],"kind":"plain"},{"items":[{"direction":2,"edge":0,"low":1,"rate":"1","unknown":[1,1]}],"kind":"ray"}],"traces":[{"free":["7"],"start":["0"]},{"free":["0"],"start":["0"]},{"free":["-1"],"start":["0"]}],"uppers":[{"guards":["1"],"kind":"bound","rows":["0","0"]}]}"#,
    r#"{"bounds":[["+inf","+inf"],["7","+inf"]],"format":3,"rows":[[[0,"1"]],[[0,"-1"]]],"steps":[{"items":[{"edge":0,"low":0,"to":"7","unknown":[1,0]}],"kind":"plain"},{"items":[{"direction":2,"edge":0,"low":1,"rate":"1","unknown":[1,1]}],"kind":"ray"}],"traces":[{"free":[[0,"7"]],"start":[]},{"free":[],"start":[]},{"free":[[0,"-1"]],"start":[]}],"uppers":[{"guards":[[0,"1"]],"kind":"bound","rows":[]}]}"#,
];

// Evidence of each kind and nothing else.
const EVIDENCE: [&str; 3] = [
    r#"{"bounds":[],"format":1,"rows":[],"steps":[],"uppers":[{"guards":["-1/2"],"kind":"empty","rows":[]},{"kind":"unreached","row":4294967295}]}"#,
    r#"{"bounds":[],"format":2,"rows":[],"steps":[],"traces":[],"uppers":[{"guards":["-1/2"],"kind":"empty","rows":[]},{"kind":"unreached","row":4294967295}]}"#,
    r#"{"bounds":[],"format":3,"rows":[],"steps":[],"traces":[],"uppers":[{"guards":[[0,"-1/2"]],"kind":"empty","rows":[]},{"kind":"unreached","row":4294967295}]}"#,
];

// Two items in one step, with one trace.
const TWO_ITEMS: [&str; 3] = [
    r#"{"bounds":[["+inf","+inf"],["1","-1"]],"format":1,"rows":[["1"],["-1"]],"steps":[{"items":[{"edge":0,"low":{"free":[],"start":["0"]},"to":"1","unknown":[1,0]},{"edge":0,"low":{"free":[],"start":["0"]},"to":"-1","unknown":[1,1]}],"kind":"plain"}],"uppers":[{"guards":[],"kind":"bound","rows":["0","0"]},{"guards":[],"kind":"bound","rows":["0","0"]}]}"#,
    r#"{"bounds":[["+inf","+inf"],["1","-1"]],"format":2,"rows":[["1"],["-1"]],"steps":[{"items":[{"edge":0,"low":0,"to":"1","unknown":[1,0]},{"edge":0,"low":0,"to":"-1","unknown":[1,1]}],"kind":"plain"}],"traces":[{"free":[],"start":["0"]}],"uppers":[{"guards":[],"kind":"bound","rows":["0","0"]},{"guards":[],"kind":"bound","rows":["0","0"]}]}"#,
    r#"{"bounds":[["+inf","+inf"],["1","-1"]],"format":3,"rows":[[[0,"1"]],[[0,"-1"]]],"steps":[{"items":[{"edge":0,"low":0,"to":"1","unknown":[1,0]},{"edge":0,"low":0,"to":"-1","unknown":[1,1]}],"kind":"plain"}],"traces":[{"free":[],"start":[]}],"uppers":[{"guards":[],"kind":"bound","rows":[]},{"guards":[],"kind":"bound","rows":[]}]}"#,
];

// A row with a large coefficient.
const LARGE_ROW: [&str; 3] = [
    r#"{"bounds":[["+inf"],["+inf"]],"format":1,"rows":[["3037000500"]],"steps":[{"items":[{"edge":0,"low":{"free":["3037000500"],"start":["0"]},"to":"1","unknown":[1,0]}],"kind":"plain"}],"uppers":[]}"#,
    r#"{"bounds":[["+inf"],["+inf"]],"format":2,"rows":[["3037000500"]],"steps":[{"items":[{"edge":0,"low":0,"to":"1","unknown":[1,0]}],"kind":"plain"}],"traces":[{"free":["3037000500"],"start":["0"]}],"uppers":[]}"#,
    r#"{"bounds":[["+inf"],["+inf"]],"format":3,"rows":[[[0,"3037000500"]]],"steps":[{"items":[{"edge":0,"low":0,"to":"1","unknown":[1,0]}],"kind":"plain"}],"traces":[{"free":[[0,"3037000500"]],"start":[]}],"uppers":[]}"#,
];

// Items whose keys stand in another order than they are written.
const UNSORTED: [&str; 3] = [
    r#"{"bounds":[["+inf","+inf"],["5","0"],["5","0"]],"format":1,"rows":[["1"],["-1"]],"steps":[{"items":[{"edge":0,"to":"0","low":{"free":[],"start":["0"]},"unknown":[1,0]},{"edge":0,"to":"0","low":{"free":[],"start":["0"]},"unknown":[1,1]}],"kind":"plain"},{"items":[{"edge":1,"high":{"free":[],"start":["5"]},"low":{"free":[],"start":["0"]},"to":"5","unknown":[1,0]}],"kind":"jump"}],"uppers":[]}"#,
    r#"{"bounds":[["+inf","+inf"],["5","0"],["5","0"]],"format":2,"rows":[["1"],["-1"]],"steps":[{"items":[{"edge":0,"low":0,"to":"0","unknown":[1,0]},{"edge":0,"low":0,"to":"0","unknown":[1,1]}],"kind":"plain"},{"items":[{"edge":1,"high":1,"low":0,"to":"5","unknown":[1,0]}],"kind":"jump"}],"traces":[{"free":[],"start":["0"]},{"free":[],"start":["5"]}],"uppers":[]}"#,
    r#"{"bounds":[["+inf","+inf"],["5","0"],["5","0"]],"format":3,"rows":[[[0,"1"]],[[0,"-1"]]],"steps":[{"items":[{"edge":0,"low":0,"to":"0","unknown":[1,0]},{"edge":0,"low":0,"to":"0","unknown":[1,1]}],"kind":"plain"},{"items":[{"edge":1,"high":1,"low":0,"to":"5","unknown":[1,0]}],"kind":"jump"}],"traces":[{"free":[],"start":[]},{"free":[],"start":[[0,"5"]]}],"uppers":[]}"#,
];

// The text that is written of the certificate that a text spells, and nothing where it spells none.
fn rewritten(alloc: Global, text: &str) -> Result<Vec<u8>, Fail> {
    match read(alloc, text.as_bytes()) {
        Ok(cert) => Ok(write(alloc, &cert)?),
        Err(_) => Ok(Vec::new(alloc)),
    }
}

#[test]
fn writes_what_it_reads(rt: HostRuntime) -> Result<(), Fail> {
    let alloc = rt.alloc();
    for texts in [JUMP, RAY, TWO_ITEMS, LARGE_ROW, EVIDENCE, UNSORTED] {
        let bare = texts[2];
        for text in texts {
            assert!(rt;
                rewritten(alloc, text)?.as_slice() == bare.as_bytes(),
                "{text}"
            );
        }
    }
    Ok(())
}
