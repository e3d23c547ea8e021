//! Changes of the text of a certificate in each format, and what they read as.

use crate::certificates::RAY;
use cert_text::read;
use std::alloc::{AllocError, Global};
use std::test::Fail;

// What stands in the certificate with a ray in formats 1 and 2, what is put in its place, and what that reads as: a certificate,
// or the fault. Read are the greatest index, an escape, and a bound that is `-inf`.
const CHANGES: &str = r#""edge":0 -> "edge":4294967295 => read
"kind":"ray" -> "kind":"r\u0061y" => read
["7","+inf"] -> ["-inf","7/2"] => read
{"bounds" -> ["bounds" => NotJson
"0"]}]} -> "0"]}] => NotJson
"rate":"1" -> "rate":"\ud800" => NotJson
"uppers" -> "upper" => Shape(Top)
[["1"],["-1"]] -> {} => Shape(Rows)
[["1"],["-1"]] -> [["1/2"],"-1"] => Shape(Rows)
[["1"],["-1"]] -> [["x"],[1]] => Shape(Rows)
[["1"],["-1"]] -> [["1/2"],["-1"]] => Number(Rows)
[["1"],["-1"]] -> [["+1"],["-1"]] => Number(Rows)
[["1"],["-1"]] -> [["1"],["-9223372036854775808"]] => Number(Rows)
[["1"],["-1"]] -> [["1"]] => Shape(Bounds)
["7","+inf"] -> "7" => Shape(Bounds)
["7","+inf"] -> [7,"+inf"] => Shape(Bounds)
["7","+inf"] -> ["7"] => Shape(Bounds)
["7","+inf"] -> ["7","inf"] => Number(Bounds)
["7","+inf"] -> ["14/2","+inf"] => Number(Bounds)
"kind":"ray" -> "kind":"leap" => Shape(Steps)
"kind":"ray" -> "kind":"jump" => Shape(Steps)
"kind":"ray" -> "kind":"ray","to":1 => Shape(Steps)
"steps":[ -> "steps":[{"items":[],"kind":"plain"}, => Shape(Steps)
"edge":0 -> "edge":4294967296 => Shape(Steps)
"edge":0 -> "edge":-1 => Shape(Steps)
"edge":0 -> "edge":0.0 => Shape(Steps)
"edge":0 -> "edge":0,"rate":"1" => Shape(Steps)
"to":"7" -> "to":7 => Shape(Steps)
[1,0] -> [1,2] => Shape(Steps)
[1,0] -> [2147483648,0] => Shape(Steps)
[1,0] -> [1,0,0] => Shape(Steps)
[1,0] -> [1] => Shape(Steps)
"rate":"1" -> "rate":"01" => Number(Steps)
"to":"7" -> "to":"7/0" => Number(Steps)
"to":"7" -> "to":"+inf" => Number(Steps)
"kind":"bound" -> "kind":"upper" => Shape(Uppers)
"kind":"bound" -> "kind":"unreached" => Shape(Uppers)
"guards":["1"] -> "guards":[1] => Shape(Uppers)
"guards":["1"] -> "guards":["-0"] => Number(Uppers)
"rows":["0","0"] -> "rows":["0",""] => Number(Uppers)"#;

// The same in format 1 alone. Read are keys in another order, and a key that stands twice.
const FIRST_CHANGES: &str =
    r#"{"edge":0,"low":{"free":["7"],"start":["0"]}, -> {"low":{"start":["0"],"free":["7"]},"edge":0, => read
"format":1 -> "format":3,"format":1 => read
"format":1, ->  => Shape(Top)
"format":1, -> "format":1,"kind":1, => Shape(Top)
"format":1 -> "format":"1" => Shape(Format)
"format":1 -> "format":1.0 => Shape(Format)
"format":1 -> "format":1e0 => Shape(Format)
"format":1 -> "format":-0 => Shape(Format)
"format":1 -> "format":18446744073709551616 => Shape(Format)
"format":1 -> "format":-9223372036854775809 => Shape(Format)
"format":1 -> "format":2 => Shape(Format)
"format":1 -> "format":3 => Shape(Format)
"format":1 -> "format":4 => Version
"format":1 -> "format":0 => Version
"format":1 -> "format":-1 => Version
"format":1 -> "format":18446744073709551615 => Version
"format":1 -> "format":-9223372036854775808 => Version
"free":["-1"] -> "free":"-1" => Shape(Steps)
"free":["-1"] -> "free":["2/4"] => Number(Steps)"#;

// The same in format 2 alone. Read are a key that stands twice, a trace that is listed twice, and one that is named twice.
const SECOND_CHANGES: &str = r#""format":2 -> "format":2.0 => Shape(Format)
"format":2 -> "format":1 => Shape(Format)
"format":2 -> "format":3 => Shape(Rows)
"format":2 -> "format":4 => Version
"format":2 -> "format":-2 => Version
"format":2 -> "format":3,"format":2 => read
"format":2, ->  => Shape(Top)
"format":2, -> "format":2,"kind":1, => Shape(Top)
"traces":[ -> "trace":[ => Shape(Top)
"traces":[ -> "traces":[7, => Shape(Traces)
"traces":[ -> "traces":[{"free":["7"]}, => Shape(Traces)
"traces":[ -> "traces":{},"uppers":[ => Shape(Traces)
{"free":["-1"],"start":["0"]} -> {"free":"-1","start":["0"]} => Shape(Traces)
{"free":["-1"],"start":["0"]} -> {"free":["2/4"],"start":["0"]} => Number(Traces)
{"free":["-1"],"start":["0"]} -> {"free":["-1"],"start":["0"]},{"free":["x"],"start":[]} => Number(Traces)
"traces":[ -> "traces":[{"free":["7"],"start":["0"]}, => read
"traces":[ -> "low":[ => Shape(Top)
"direction":2 -> "direction":3 => Shape(Steps)
"low":0 -> "low":2 => read
"low":1 -> "low":3 => Shape(Steps)
"low":1 -> "low":1.0 => Shape(Steps)
"low":1 -> "low":-1 => Shape(Steps)
"low":1 -> "low":"1" => Shape(Steps)
"low":1 -> "low":18446744073709551615 => Shape(Steps)
"low":1 -> "low":{"free":["0"],"start":["0"]} => Shape(Steps)
"low":1, ->  => Shape(Steps)"#;

// The same in format 3 alone. Read are rows without coefficients, the greatest place, and fractions at other places.
const THIRD_CHANGES: &str = r#""format":3 -> "format":3.0 => Shape(Format)
"format":3 -> "format":1 => Shape(Format)
"format":3 -> "format":2 => Shape(Rows)
"format":3 -> "format":4 => Version
"traces":[ -> "trace":[ => Shape(Top)
[[[0,"1"]],[[0,"-1"]]] -> [[],[]] => read
[[[0,"1"]], -> [[[4294967295,"1"]], => read
[[[0,"1"]], -> [[[4294967296,"1"]], => Shape(Rows)
[[[0,"1"]], -> [[[-1,"1"]], => Shape(Rows)
[[[0,"1"]], -> [[[0.0,"1"]], => Shape(Rows)
[[[0,"1"]], -> [[["0","1"]], => Shape(Rows)
[[[0,"1"]], -> [[[0,1]], => Shape(Rows)
[[[0,"1"]], -> [[[0]], => Shape(Rows)
[[[0,"1"]], -> [[[0,"1",1]], => Shape(Rows)
[[[0,"1"]], -> [[{}], => Shape(Rows)
[[[0,"1"]], -> [["1"], => Shape(Rows)
[[[0,"1"]], -> [[[0,"0"]], => Shape(Rows)
[[[0,"1"]], -> [[[0,"1"],[0,"2"]], => Shape(Rows)
[[[0,"1"]], -> [[[1,"1"],[0,"2"]], => Shape(Rows)
[[[0,"1"]], -> [[[0,"-0"]], => Number(Rows)
[[[0,"1"]], -> [[[0,"1/2"]], => Number(Rows)
["7","+inf"] -> [[0,"7"]] => Shape(Bounds)
"free":[[0,"7"]] -> "free":[[3,"7"],[5,"-1/2"]] => read
"free":[[0,"7"]] -> "free":["7"] => Shape(Traces)
"free":[[0,"7"]] -> "free":[[0,"0"]] => Shape(Traces)
"free":[[0,"7"]] -> "free":[[5,"7"],[3,"8"]] => Shape(Traces)
"free":[[0,"7"]] -> "free":[[0,"14/2"]] => Number(Traces)
"low":1 -> "low":3 => Shape(Steps)
"guards":[[0,"1"]] -> "guards":["1"] => Shape(Uppers)
"guards":[[0,"1"]] -> "guards":[[0,"0"]] => Shape(Uppers)
"guards":[[0,"1"]] -> "guards":[[1,"1"],[1,"1"]] => Shape(Uppers)
"guards":[[0,"1"]] -> "guards":[[0,"1/1"]] => Number(Uppers)"#;

// What a text reads as, in words.
fn answer(alloc: Global, text: &[u8]) -> Result<String, Fail> {
    match read(alloc, text) {
        Ok(_) => Ok(format!(in alloc; "read")?),
        Err(fault) => Ok(format!(in alloc; "{fault:?}")?),
    }
}

// Whether a change of a text reads as is wanted; the line has all three.
fn is_right(alloc: Global, text: &str, line: &str) -> Result<bool, Fail> {
    let (change, wanted) = line.split_once(" => ").ok_or("an arrow")?;
    let (from, to) = change.split_once(" -> ").ok_or("two texts")?;
    let changed = text.replacen(alloc, from, to, 1)?;
    let found = answer(alloc, changed.as_bytes())?;
    Ok(changed.as_str() != text && found.as_str() == wanted)
}

#[test]
fn changes_are_read_or_refused(rt: HostRuntime) -> Result<(), Fail> {
    let alloc = rt.alloc();
    let first = RAY[0];
    let second = RAY[1];
    for line in CHANGES.lines() {
        assert!(rt; is_right(alloc, first, line)?, "format 1: {line}");
        assert!(rt; is_right(alloc, second, line)?, "format 2: {line}");
    }
    for line in FIRST_CHANGES.lines() {
        assert!(rt; is_right(alloc, first, line)?, "{line}");
    }
    for line in SECOND_CHANGES.lines() {
        assert!(rt; is_right(alloc, second, line)?, "{line}");
    }
    for line in THIRD_CHANGES.lines() {
        assert!(rt; is_right(alloc, RAY[2], line)?, "{line}");
    }
    assert!(rt; is_right(alloc, first, ",\"format\" ->  ,\n\"format\" => read")?);
    Ok(())
}

// Whether so many open brackets, closed again, read as is wanted.
fn nests(alloc: Global, depth: usize, wanted: &str) -> Result<bool, Fail> {
    let mut text = vec![in alloc; b'['; depth]?;
    text.resize(2 * depth, b']')?;
    Ok(answer(alloc, text.as_slice())?.as_str() == wanted)
}

#[test]
fn nests_to_the_limit(rt: HostRuntime) -> Result<(), Fail> {
    let alloc = rt.alloc();
    assert!(rt; nests(alloc, 127, "Shape(Top)")?);
    assert!(rt; nests(alloc, 128, "NotJson")?);
    assert!(rt; nests(alloc, 200, "NotJson")?);
    Ok(())
}

// Adds the same text so many times.
fn push_often(text: &mut String, piece: &str, often: usize) -> Result<(), AllocError> {
    for _ in 0..often {
        text.push_str(piece)?;
    }
    Ok(())
}

// A certificate in format 2 whose items name a trace of 2,048 values so many times and once more, and one of a single value so
// many times.
fn expanding(alloc: Global, long: usize, short: usize) -> Result<String, Fail> {
    let mut text = String::from_str(
        alloc,
        r#"{"bounds":[],"format":2,"rows":[["1"]],"steps":[{"items":["#,
    )?;
    push_often(
        &mut text,
        r#"{"edge":0,"low":0,"to":"0","unknown":[0,0]},"#,
        long,
    )?;
    push_often(
        &mut text,
        r#"{"edge":0,"low":1,"to":"0","unknown":[0,0]},"#,
        short,
    )?;
    text.push_str(r#"{"edge":0,"low":0,"to":"0","unknown":[0,0]}],"kind":"plain"}],"#)?;
    text.push_str(r#""traces":[{"free":["1"],"start":["0""#)?;
    push_often(&mut text, r#","0""#, 2046)?;
    text.push_str(r#"]},{"free":["0"],"start":[]}],"uppers":[]}"#)?;
    Ok(text)
}

#[test]
fn traces_expand_to_the_limit(rt: HostRuntime) -> Result<(), Fail> {
    let alloc = rt.alloc();
    for (long, short, wanted) in [
        (2047, 0, "read"),
        (2047, 1, "Expanded"),
        (2048, 0, "Expanded"),
    ] {
        let text = expanding(alloc, long, short)?;
        assert_eq!(rt; answer(alloc, text.as_bytes())?.as_str(), wanted);
    }
    Ok(())
}

// A certificate in format 3 whose items name a trace of 2,048 pairs so many times and once more.
fn expanding_pairs(alloc: Global, long: usize) -> Result<String, Fail> {
    let mut text = String::from_str(
        alloc,
        r#"{"bounds":[],"format":3,"rows":[[[0,"1"]]],"steps":[{"items":["#,
    )?;
    push_often(
        &mut text,
        r#"{"edge":0,"low":0,"to":"0","unknown":[0,0]},"#,
        long,
    )?;
    text.push_str(r#"{"edge":0,"low":0,"to":"0","unknown":[0,0]}],"kind":"plain"}],"#)?;
    text.push_str(r#""traces":[{"free":[[0,"1"]],"start":["#)?;
    for place in 0..2046 {
        text.push_str(format!(in alloc; "[{place},\"1\"],")?.as_str())?;
    }
    text.push_str(r#"[4294967295,"1"]]}],"uppers":[]}"#)?;
    Ok(text)
}

#[test]
fn pairs_expand_to_the_limit(rt: HostRuntime) -> Result<(), Fail> {
    let alloc = rt.alloc();
    for (long, wanted) in [(2047, "read"), (2048, "Expanded")] {
        let text = expanding_pairs(alloc, long)?;
        assert_eq!(rt; answer(alloc, text.as_bytes())?.as_str(), wanted);
    }
    Ok(())
}

// What is refused before the traces expand, in a certificate that expands too far.
const BEFORE: &str = r#""uppers":[] -> "uppers":{} => Shape(Uppers)
"uppers":[] -> "uppers":[{"guards":["x"],"kind":"bound","rows":[]}] => Number(Uppers)
"to":"0" -> "to":"00" => Number(Steps)"#;

#[test]
fn expanding_is_refused_last(rt: HostRuntime) -> Result<(), Fail> {
    let alloc = rt.alloc();
    let text = expanding(alloc, 2047, 1)?;
    for line in BEFORE.lines() {
        assert!(rt; is_right(alloc, text.as_str(), line)?, "{line}");
    }
    Ok(())
}
