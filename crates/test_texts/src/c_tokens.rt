//! The tokens of C files, in code and in directives, and their faults.

use crate::texts::{Case, first_wrong};
use lang_tokens::{Aside, Foreign, Kind, LexFault, Lexicon, Token, lex};
use std::alloc::{AllocError, Global};

// A letter for each sort of token, a capital for one of a directive.
fn letter(kind: Kind) -> u8 {
    match kind {
        Kind::Word(_) => b'w',
        Kind::Name => b'n',
        Kind::Number(_) => b'i',
        Kind::Sign(_) => b's',
        Kind::Foreign(Foreign::Byte) => b'b',
        Kind::Foreign(Foreign::Number) => b'o',
        Kind::Foreign(Foreign::LongNumber) => b'g',
        Kind::Foreign(Foreign::LongName) => b'l',
        Kind::Aside(Aside::Hash) => b'H',
        Kind::Aside(Aside::Word(_)) => b'W',
        Kind::Aside(Aside::Name) => b'N',
        Kind::Aside(Aside::Number(_)) => b'I',
        Kind::Aside(Aside::Sign(_)) => b'S',
        Kind::Aside(Aside::Foreign) => b'F',
        Kind::End => b'.',
    }
}

// Each token as its letter and its bytes, and a space between two of them.
fn written(alloc: Global, text: &[u8], tokens: &[Token]) -> Result<Vec<u8>, AllocError> {
    let mut line = Vec::new(alloc);
    for token in tokens {
        if !line.is_empty() {
            line.push(b' ')?;
        }
        line.push(letter(token.kind))?;
        let from = token.at as usize;
        let end = from + token.len as usize;
        if end <= text.len() {
            line.extend_from_slice(&text[from..end])?;
        }
    }
    Ok(line)
}

// A C file, and its tokens so written.
struct Told(&'static [u8], &'static [u8]);

impl Case for Told {
    fn is_right(&self, alloc: Global) -> bool {
        if self.0.len() > 65_536 {
            return false;
        }
        match lex(alloc, self.0, Lexicon::C) {
            Ok(tokens) => match written(alloc, self.0, tokens.as_slice()) {
                Ok(line) => line.as_slice() == self.1,
                Err(_) => false,
            },
            Err(_) => false,
        }
    }
}

const CODE: &[Told] = &[
    Told(b"", b"."),
    // Words.
    Told(b"int x", b"wint nx ."),
    Told(
        b"abcdefghijklmnopqrstuvwxyz012345",
        b"nabcdefghijklmnopqrstuvwxyz012345 .",
    ),
    Told(
        b"abcdefghijklmnopqrstuvwxyz0123456;",
        b"labcdefghijklmnopqrstuvwxyz0123456 s; .",
    ),
    // Numbers.
    Told(b"0 7", b"i0 i7 ."),
    Told(b"9223372036854775807", b"i9223372036854775807 ."),
    Told(b"9223372036854775808", b"g9223372036854775808 ."),
    Told(b"99999999999999999999", b"g99999999999999999999 ."),
    Told(b"007 00", b"o007 o00 ."),
    Told(b"0x1F+1", b"o0x1F s+ i1 ."),
    Told(b"0x1E+1", b"o0x1E+1 ."),
    Told(b"10u 1_000", b"o10u o1_000 ."),
    Told(b"1.5 1.", b"o1.5 o1. ."),
    Told(b".5e+3 1e+5 0x1p-3", b"o.5e+3 o1e+5 o0x1p-3 ."),
    Told(b"1E-P+2", b"o1E-P+2 ."),
    Told(b"1e 1..2", b"o1e o1..2 ."),
    Told(b"9223372036854775808u", b"o9223372036854775808u ."),
    Told(b"1-2", b"i1 s- i2 ."),
    Told(b"1f+2", b"o1f s+ i2 ."),
    Told(b"1e +2", b"o1e s+ i2 ."),
    // Literals.
    Told(b"\"\"", b"b\"\" ."),
    Told(b"\"/*\" x", b"b\"/*\" nx ."),
    Told(b"'\"'", b"b'\"' ."),
    Told(b"\"'\" '\\''", b"b\"'\" b'\\'' ."),
    Told(b"\"\\\\\"x", b"b\"\\\\\" nx ."),
    Told(b"\"a\\\"b\"c", b"b\"a\\\"b\" nc ."),
    Told(b"L\"\xff@\"", b"nL b\"\xff@\" ."),
    Told(b"\"a\"\"b\"", b"b\"a\" b\"b\" ."),
    // Signs.
    Told(b"... .. ....", b"b... b. b. b... b. ."),
    Told(b"..5", b"b. o.5 ."),
    Told(b"a.b", b"na b. nb ."),
    Told(b"a->b-->c", b"na b-> nb s-- s> nc ."),
    Told(b"x>>=1", b"nx b>>= i1 ."),
    Told(b"x>> =1", b"nx b>> s= i1 ."),
    Told(b"x<<=<<1", b"nx b<<= b<< i1 ."),
    Told(b"x<=>", b"nx s<= s> ."),
    Told(b">>>==", b"b>> s>= s= ."),
    Told(b"x&&y", b"nx s&& ny ."),
    Told(b"&&&", b"s&& b& ."),
    Told(b"&x|y", b"b& nx b| ny ."),
    Told(b"|||=", b"s|| b|= ."),
    Told(b"^~^=~=&=", b"b^ b~ b^= b~ s= b&= ."),
    Told(b"*/ /", b"s* s/ s/ ."),
    Told(b"? : > < :", b"s? s: s> s< s: ."),
    // No token begins in a comment, and no comment in a literal.
    Told(b"/* \" ' */x//'\ny", b"nx ny ."),
    Told(b"'/*'*/**/2", b"b'/*' s* i2 ."),
];

#[test]
fn code_is_read(rt: HostRuntime) {
    assert_eq!(rt; first_wrong(rt.alloc(), CODE), None);
}

const DIRECTIVES: &[Told] = &[
    Told(b"#include <a.h>\nx", b"H# Ninclude S< Na F. Nh S> nx ."),
    Told(b" \t#\t\rdefine X 10 // c\nX", b"H# Ndefine NX I10 nX ."),
    Told(b"#define \t int -(+7)", b"H# Ndefine Wint S- S( S+ I7 S) ."),
    Told(
        b"#define _(x) #x ## 1",
        b"H# Ndefine N_ S( Nx S) F# Nx F# F# I1 .",
    ),
    // What is foreign in code, or nothing there, is foreign here.
    Told(
        b"#line 007 9223372036854775808 1.5 -> ...",
        b"H# Nline F007 F9223372036854775808 F1.5 F-> F... .",
    ),
    Told(
        b"#7 abcdefghijklmnopqrstuvwxyz0123456",
        b"H# I7 Fabcdefghijklmnopqrstuvwxyz0123456 .",
    ),
    Told(
        b"#pragma <: <::> %:%: @$`\\ \x0c\xff",
        b"H# Npragma F<: F<: F:> F%: F%: F@ F$ F` F\\ F\x0c F\xff .",
    ),
    // Literals, in which no comment begins, and comments, behind which it goes on.
    Told(
        b"#pragma message(\"/*\")\nx",
        b"H# Npragma Nmessage S( F\"/*\" S) nx .",
    ),
    Told(b"#7 'a' '\"'", b"H# I7 F'a' F'\"' ."),
    Told(b"#7 /* '\n# */ x / /\ny", b"H# I7 Nx S/ S/ ny ."),
    Told(b"#pragma\n#pragma", b"H# Npragma H# Npragma ."),
];

#[test]
fn directives_are_told(rt: HostRuntime) {
    assert_eq!(rt; first_wrong(rt.alloc(), DIRECTIVES), None);
}

// A C file, and the place of its bad byte.
impl Case for (&[u8], u32) {
    fn is_right(&self, alloc: Global) -> bool {
        self.0.len() <= 65_536
            && lex(alloc, self.0, Lexicon::C).err() == Some(LexFault::BadByte { at: self.1 })
    }
}

const BAD_BYTES: &[(&[u8], u32)] = &[
    // A quote whose literal doesn't end on its line.
    (b"x \"", 2),
    (b"x 'a\n'", 2),
    (b"\"a\\\"", 0),
    (b"\"a\\\n\"", 0),
    (b"\"\\", 0),
    (b"#pragma don't\n'", 11),
    // Second spellings of signs.
    (b"a<:", 1),
    (b":>", 0),
    (b"<%", 0),
    (b"x%>", 1),
    (b"%:define X", 0),
    // Bytes that start nothing.
    (b"@", 0),
    (b"x $", 2),
    (b"\\", 0),
    (b"x\\\ny", 1),
    (b"\x0c", 0),
    (b"\x80", 0),
    // A `#` that begins no directive.
    (b"#", 0),
    (b"x #pragma", 2),
    (b"/**/#pragma", 4),
    (b"#define", 0),
    (b"#define 1", 0),
    (b"#define\nX 1", 0),
    (b"#define/**/X 1", 0),
    (b"#defined X", 0),
    (b"#undef X", 0),
    (b"#if 0", 0),
    (b"#endif", 0),
    // Where C joins lines.
    (b"#define X \\\n 1", 10),
    (b"#line 1 \\ \x0c\n", 8),
    (b"#line // a\\\n", 10),
    (b"x /* *\\\n/", 6),
];

#[test]
fn bad_bytes_of_c_are_told(rt: HostRuntime) {
    assert_eq!(rt; first_wrong(rt.alloc(), BAD_BYTES), None);
}

// A C file, and the place of its open comment.
struct Open(&'static [u8], u32);

impl Case for Open {
    fn is_right(&self, alloc: Global) -> bool {
        self.0.len() <= 65_536
            && lex(alloc, self.0, Lexicon::C).err() == Some(LexFault::OpenComment { at: self.1 })
    }
}

const OPEN_COMMENTS: &[Open] = &[
    Open(b"x /*/", 2),
    Open(b"#line /* '\n", 6),
    Open(b"// \"\n1.5 /*", 9),
];

#[test]
fn open_comments_of_c_are_told(rt: HostRuntime) {
    assert_eq!(rt; first_wrong(rt.alloc(), OPEN_COMMENTS), None);
}
