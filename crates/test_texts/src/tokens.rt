//! Tokens: what texts are cut into, and their faults.

use crate::texts::{Case, first_wrong};
use lang_tokens::{Kind, LexFault, Lexicon, Sign, Token, Word, lex, line_of};
use std::alloc::Global;

// Whether the text reads as these tokens and the end.
fn reads_as(alloc: Global, text: &[u8], wanted: &[Token]) -> bool {
    if text.len() > 65_536 {
        return false;
    }
    let end = Token {
        kind: Kind::End,
        at: text.len() as u32,
        len: 0,
    };
    match lex(alloc, text, Lexicon::Own) {
        Ok(mut tokens) => tokens.pop() == Some(end) && tokens.as_slice() == wanted,
        Err(_) => false,
    }
}

// A text that is one token, and its kind.
impl Case for (&str, Kind) {
    fn is_right(&self, alloc: Global) -> bool {
        let text = self.0.as_bytes();
        match u32::try_from(text.len()) {
            Ok(len) => {
                let token = Token {
                    kind: self.1,
                    at: 0,
                    len,
                };
                reads_as(alloc, text, [token].as_slice())
            }
            Err(_) => false,
        }
    }
}

const ALONE: &[(&str, Kind)] = &[
    ("auto", Kind::Word(Word::Auto)),
    ("break", Kind::Word(Word::Break)),
    ("case", Kind::Word(Word::Case)),
    ("char", Kind::Word(Word::Char)),
    ("const", Kind::Word(Word::Const)),
    ("continue", Kind::Word(Word::Continue)),
    ("default", Kind::Word(Word::Default)),
    ("do", Kind::Word(Word::Do)),
    ("double", Kind::Word(Word::Double)),
    ("else", Kind::Word(Word::Else)),
    ("enum", Kind::Word(Word::Enum)),
    ("extern", Kind::Word(Word::Extern)),
    ("float", Kind::Word(Word::Float)),
    ("for", Kind::Word(Word::For)),
    ("goto", Kind::Word(Word::Goto)),
    ("if", Kind::Word(Word::If)),
    ("inline", Kind::Word(Word::Inline)),
    ("int", Kind::Word(Word::Int)),
    ("long", Kind::Word(Word::Long)),
    ("register", Kind::Word(Word::Register)),
    ("return", Kind::Word(Word::Return)),
    ("short", Kind::Word(Word::Short)),
    ("signed", Kind::Word(Word::Signed)),
    ("sizeof", Kind::Word(Word::SizeOf)),
    ("static", Kind::Word(Word::Static)),
    ("struct", Kind::Word(Word::Struct)),
    ("switch", Kind::Word(Word::Switch)),
    ("typedef", Kind::Word(Word::TypeDef)),
    ("union", Kind::Word(Word::Union)),
    ("unsigned", Kind::Word(Word::Unsigned)),
    ("void", Kind::Word(Word::Void)),
    ("volatile", Kind::Word(Word::Volatile)),
    ("while", Kind::Word(Word::While)),
    ("assume", Kind::Word(Word::Assume)),
    ("assert", Kind::Word(Word::Assert)),
    ("main", Kind::Word(Word::Main)),
    ("nondet", Kind::Word(Word::Nondet)),
    ("__VERIFIER_assume", Kind::Word(Word::VerifierAssume)),
    ("__VERIFIER_assert", Kind::Word(Word::VerifierAssert)),
    ("__VERIFIER_nondet_int", Kind::Word(Word::VerifierNondetInt)),
    ("(", Kind::Sign(Sign::LeftParen)),
    (")", Kind::Sign(Sign::RightParen)),
    ("{", Kind::Sign(Sign::LeftBrace)),
    ("}", Kind::Sign(Sign::RightBrace)),
    (",", Kind::Sign(Sign::Comma)),
    (";", Kind::Sign(Sign::Semicolon)),
    (":", Kind::Sign(Sign::Colon)),
    ("=", Kind::Sign(Sign::Assign)),
    ("+=", Kind::Sign(Sign::PlusAssign)),
    ("-=", Kind::Sign(Sign::MinusAssign)),
    ("++", Kind::Sign(Sign::Increment)),
    ("--", Kind::Sign(Sign::Decrement)),
    ("+", Kind::Sign(Sign::Plus)),
    ("-", Kind::Sign(Sign::Minus)),
    ("*", Kind::Sign(Sign::Star)),
    ("!", Kind::Sign(Sign::Bang)),
    ("<", Kind::Sign(Sign::Less)),
    ("<=", Kind::Sign(Sign::LessEqual)),
    (">", Kind::Sign(Sign::Greater)),
    (">=", Kind::Sign(Sign::GreaterEqual)),
    ("==", Kind::Sign(Sign::EqualEqual)),
    ("!=", Kind::Sign(Sign::BangEqual)),
    ("&&", Kind::Sign(Sign::AndAnd)),
    ("||", Kind::Sign(Sign::OrOr)),
    ("/", Kind::Sign(Sign::Slash)),
    ("%", Kind::Sign(Sign::Percent)),
    ("?", Kind::Sign(Sign::Question)),
    ("[", Kind::Sign(Sign::LeftBracket)),
    ("]", Kind::Sign(Sign::RightBracket)),
    ("*=", Kind::Sign(Sign::StarAssign)),
    ("/=", Kind::Sign(Sign::SlashAssign)),
    ("%=", Kind::Sign(Sign::PercentAssign)),
];

#[test]
fn words_and_signs_are_read(rt: HostRuntime) {
    assert_eq!(rt; first_wrong(rt.alloc(), ALONE), None);
}

// A text, and its tokens before the end.
impl Case for (&[u8], &[Token]) {
    fn is_right(&self, alloc: Global) -> bool {
        reads_as(alloc, self.0, self.1)
    }
}

const NAME: Token = Token {
    kind: Kind::Name,
    at: 0,
    len: 1,
};

const TEXTS: &[(&[u8], &[Token])] = &[
    (b"", &[]),
    (b" \t\r\n", &[]),
    (
        b"+++",
        &[
            Token {
                kind: Kind::Sign(Sign::Increment),
                at: 0,
                len: 2,
            },
            Token {
                kind: Kind::Sign(Sign::Plus),
                at: 2,
                len: 1,
            },
        ],
    ),
    (
        b"<==",
        &[
            Token {
                kind: Kind::Sign(Sign::LessEqual),
                at: 0,
                len: 2,
            },
            Token {
                kind: Kind::Sign(Sign::Assign),
                at: 2,
                len: 1,
            },
        ],
    ),
    (
        b"-7",
        &[
            Token {
                kind: Kind::Sign(Sign::Minus),
                at: 0,
                len: 1,
            },
            Token {
                kind: Kind::Number(7),
                at: 1,
                len: 1,
            },
        ],
    ),
    (
        b"a/**/b//c",
        &[
            NAME,
            Token {
                kind: Kind::Name,
                at: 5,
                len: 1,
            },
        ],
    ),
    (
        b"a// *\xff\nb",
        &[
            NAME,
            Token {
                kind: Kind::Name,
                at: 7,
                len: 1,
            },
        ],
    ),
    // A backslash in the middle of a line, at the end of the text, and in the other kind of comment.
    (
        b"// \\ x\na",
        &[Token {
            kind: Kind::Name,
            at: 7,
            len: 1,
        }],
    ),
    (b"a//\\", &[NAME]),
    (b"a// \\ \t", &[NAME]),
    (
        b"/* \\\n*/a",
        &[Token {
            kind: Kind::Name,
            at: 7,
            len: 1,
        }],
    ),
    (
        b"/*/ \n\xff ***/a",
        &[Token {
            kind: Kind::Name,
            at: 11,
            len: 1,
        }],
    ),
    (
        b"ifx if",
        &[
            Token {
                kind: Kind::Name,
                at: 0,
                len: 3,
            },
            Token {
                kind: Kind::Word(Word::If),
                at: 4,
                len: 2,
            },
        ],
    ),
    (
        b"_0A9z",
        &[Token {
            kind: Kind::Name,
            at: 0,
            len: 5,
        }],
    ),
    (
        b"abcdefghijklmnopqrstuvwxyz_01234",
        &[Token {
            kind: Kind::Name,
            at: 0,
            len: 32,
        }],
    ),
    (
        b"0 9223372036854775807",
        &[
            Token {
                kind: Kind::Number(0),
                at: 0,
                len: 1,
            },
            Token {
                kind: Kind::Number(9223372036854775807),
                at: 2,
                len: 19,
            },
        ],
    ),
];

#[test]
fn texts_are_read(rt: HostRuntime) {
    assert_eq!(rt; first_wrong(rt.alloc(), TEXTS), None);
}

// A text, and its first fault.
impl Case for (&[u8], LexFault) {
    fn is_right(&self, alloc: Global) -> bool {
        self.0.len() <= 65_536 && lex(alloc, self.0, Lexicon::Own).err() == Some(self.1)
    }
}

const FAULTS: &[(&[u8], LexFault)] = &[
    (b"&", LexFault::BadByte { at: 0 }),
    (b"a&&&b", LexFault::BadByte { at: 3 }),
    (b"a|b", LexFault::BadByte { at: 1 }),
    (b"x\x80", LexFault::BadByte { at: 1 }),
    (b"\0", LexFault::BadByte { at: 0 }),
    (b"a\\\nb", LexFault::BadByte { at: 1 }),
    // Lines that C joins with the next one: the backslash alone, with a carriage return, with each blank behind it, the last of two,
    // and in a later line.
    (b"x // \\\ny", LexFault::BadByte { at: 5 }),
    (b"//\\\r\n", LexFault::BadByte { at: 2 }),
    (b"a//b\\ \t\r\x0b\x0c\n#", LexFault::BadByte { at: 4 }),
    (b"//\\\\\n", LexFault::BadByte { at: 3 }),
    (b"\n// a\n//\\ \n07", LexFault::BadByte { at: 8 }),
    (b"x /* *", LexFault::OpenComment { at: 2 }),
    (b"/*/", LexFault::OpenComment { at: 0 }),
    (b"9223372036854775808", LexFault::LongNumber { at: 0 }),
    (b"-99999999999999999999", LexFault::LongNumber { at: 1 }),
    (
        b"abcdefghijklmnopqrstuvwxyz_012345",
        LexFault::LongName { at: 0 },
    ),
    (b"07", LexFault::BadNumber { at: 0 }),
    (b"x=00", LexFault::BadNumber { at: 2 }),
    (b"1_", LexFault::BadNumber { at: 0 }),
    (b"(1z", LexFault::BadNumber { at: 1 }),
    (b"99999999999999999999a", LexFault::BadNumber { at: 0 }),
    // A `#` that no directive starts with: another word, none, what stands between it and the word, and what stands before it.
    (b"#define x", LexFault::BadByte { at: 0 }),
    (b"#includes", LexFault::BadByte { at: 0 }),
    (b"#include_ <a.h>", LexFault::BadByte { at: 0 }),
    (b"#line9", LexFault::BadByte { at: 0 }),
    (b"\n #lin", LexFault::BadByte { at: 2 }),
    (b"#", LexFault::BadByte { at: 0 }),
    (b"#\nline", LexFault::BadByte { at: 0 }),
    (b"# \x0bline", LexFault::BadByte { at: 0 }),
    (b"#/**/line", LexFault::BadByte { at: 0 }),
    (b"#\\\nline", LexFault::BadByte { at: 0 }),
    (b"x #line", LexFault::BadByte { at: 2 }),
    (b"(#line", LexFault::BadByte { at: 1 }),
    (b"/**/#line", LexFault::BadByte { at: 4 }),
    (b"/*\n*/ #line", LexFault::BadByte { at: 6 }),
    (b"\x0c#line", LexFault::BadByte { at: 0 }),
    // Lines that C joins with the next one, in code, in a directive and in its comments.
    (b"a \\ \t\x0b\x0c\r\nb", LexFault::BadByte { at: 2 }),
    (b"\\", LexFault::BadByte { at: 0 }),
    (b"#line \\\nx", LexFault::BadByte { at: 6 }),
    (b"#line 1\\ \t\r\x0b\x0c\nx", LexFault::BadByte { at: 7 }),
    (b"#line \\\\\n", LexFault::BadByte { at: 7 }),
    (b"#line /*\n*/ \\\nx", LexFault::BadByte { at: 12 }),
    (b"#line // \\\nx", LexFault::BadByte { at: 9 }),
    (b"#line /* *\\\n*/", LexFault::BadByte { at: 10 }),
    // And behind a `*` of a comment, whether it is open or not, also behind that of its `/*`.
    (b"/* *\\\n/ */", LexFault::BadByte { at: 4 }),
    (b"/***\\ \t\r\x0b\x0c\n/*/", LexFault::BadByte { at: 4 }),
    (b"/*\\\n*/a", LexFault::BadByte { at: 2 }),
    (b"x/* *\\\n *\\\n", LexFault::BadByte { at: 5 }),
    (b"/* *\\", LexFault::OpenComment { at: 0 }),
    (b"#line /* x\n", LexFault::OpenComment { at: 6 }),
    (b"07 #", LexFault::BadNumber { at: 0 }),
];

#[test]
fn faults_are_found(rt: HostRuntime) {
    assert_eq!(rt; first_wrong(rt.alloc(), FAULTS), None);
}

#[test]
fn lines_are_counted(rt: HostRuntime) {
    let text = b"a\nb\n\nc".as_slice();
    for (at, line) in [(0, 1), (1, 1), (2, 2), (5, 4), (9, 4)] {
        assert!(rt; line_of(text, at) == line, "{at}");
    }
}
