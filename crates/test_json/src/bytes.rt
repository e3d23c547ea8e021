//! Texts as JSON, and words in URIs.

use base_json::push_text;
use out_json::uri_of;
use std::alloc::{AllocError, Global};

// The bytes from one up to another.
fn bytes_from(alloc: Global, first: u8, last: u8) -> Result<Vec<u8>, AllocError> {
    let mut bytes = Vec::new(alloc);
    for byte in first..=last {
        bytes.push(byte)?;
    }
    Ok(bytes)
}

// As Python's `json.dumps` has them.
const ESCAPED: &[u8] =
    b"\"\\u0000\\u0001\\u0002\\u0003\\u0004\\u0005\\u0006\\u0007\\b\\t\\n\\u000b\\f\\r\\u000e\\u000f\\u0010\\u0011\\u0012\\u\
    0013\\u0014\\u0015\\u0016\\u0017\\u0018\\u0019\\u001a\\u001b\\u001c\\u001d\\u001e\\u001f !\\\"#$%&'()*+,-./0123456789:\
    ;<=>?@ABCDEFGHIJKLMNOPQRSTUVWXYZ[\\\\]^_`abcdefghijklmnopqrstuvwxyz{|}~\x7f\"";

// Whether a text is written as these bytes.
fn is_written_as(alloc: Global, text: &[u8], wanted: &[u8]) -> Result<bool, AllocError> {
    let mut out = Vec::new(alloc);
    push_text(&mut out, text)?;
    Ok(out.as_slice() == wanted)
}

// Whether the bytes below 128 are escaped as they are to be. Without memory they aren't.
fn are_escaped(alloc: Global) -> bool {
    match bytes_from(alloc, 0, 127) {
        Ok(bytes) => matches!(is_written_as(alloc, &bytes, ESCAPED), Ok(true)),
        Err(_) => false,
    }
}

// Whether the bytes of a text beyond 127 stay as they are. Without memory they don't.
fn others_stay(alloc: Global) -> bool {
    matches!(
        is_written_as(
            alloc,
            b"\xc3\xbc\xf0\x9f\x99\x82",
            b"\"\xc3\xbc\xf0\x9f\x99\x82\""
        ),
        Ok(true)
    )
}

#[test]
fn each_byte_is_escaped_as_it_is_to_be(rt: HostRuntime) {
    let alloc = rt.alloc();
    assert!(rt; are_escaped(alloc));
    assert!(rt; others_stay(alloc));
}

// As Python's `urllib.parse.quote` has them.
const QUOTED: &[u8] =
    b"%00%01%02%03%04%05%06%07%08%09%0A%0B%0C%0D%0E%0F%10%11%12%13%14%15%16%17%18%19%1A%1B%1C%1D%1E%1F%20%21%22%23%24%25%26%\
    27%28%29%2A%2B%2C-./0123456789%3A%3B%3C%3D%3E%3F%40ABCDEFGHIJKLMNOPQRSTUVWXYZ%5B%5C%5D%5E_%60abcdefghijklmnopqrstuvwxy\
    z%7B%7C%7D~%7F%80%81%82%83%84%85%86%87%88%89%8A%8B%8C%8D%8E%8F%90%91%92%93%94%95%96%97%98%99%9A%9B%9C%9D%9E%9F%A0%A1%A\
    2%A3%A4%A5%A6%A7%A8%A9%AA%AB%AC%AD%AE%AF%B0%B1%B2%B3%B4%B5%B6%B7%B8%B9%BA%BB%BC%BD%BE%BF%C0%C1%C2%C3%C4%C5%C6%C7%C8%C9\
    %CA%CB%CC%CD%CE%CF%D0%D1%D2%D3%D4%D5%D6%D7%D8%D9%DA%DB%DC%DD%DE%DF%E0%E1%E2%E3%E4%E5%E6%E7%E8%E9%EA%EB%EC%ED%EE%EF%F0%\
    F1%F2%F3%F4%F5%F6%F7%F8%F9%FA%FB%FC%FD%FE%FF";

// Whether each byte of a URI is quoted as it is to be. Without memory it isn't.
fn are_quoted(alloc: Global) -> bool {
    match bytes_from(alloc, 0, 255) {
        Ok(bytes) => match uri_of(alloc, &bytes) {
            Ok(uri) => uri.as_slice() == QUOTED,
            Err(_) => false,
        },
        Err(_) => false,
    }
}

#[test]
fn each_byte_of_a_uri_is_quoted_as_it_is_to_be(rt: HostRuntime) {
    assert!(rt; are_quoted(rt.alloc()));
}
