//! Directives, and signs that stand near comments.

use crate::texts::{Case, first_wrong};
use lang_tokens::{Kind, Lexicon, Sign, Token, lex};
use std::alloc::Global;

// A text, and its tokens before the end: the kind, the place and the length of each.
impl Case for (&[u8], &[(Kind, u32, u32)]) {
    fn is_right(&self, alloc: Global) -> bool {
        if self.0.len() > 65_536 {
            return false;
        }
        let end = Token {
            kind: Kind::End,
            at: self.0.len() as u32,
            len: 0,
        };
        match lex(alloc, self.0, Lexicon::Own) {
            Ok(mut tokens) => {
                tokens.pop() == Some(end)
                    && tokens.len() == self.1.len()
                    && tokens.iter().zip(self.1).all(|(token, row)| {
                        token.kind == row.0 && token.at == row.1 && token.len == row.2
                    })
            }
            Err(_) => false,
        }
    }
}

const SIGNS: &[(&[u8], &[(Kind, u32, u32)])] = &[
    (
        b"x /",
        &[(Kind::Name, 0, 1), (Kind::Sign(Sign::Slash), 2, 1)],
    ),
    (
        b"1 / 2",
        &[
            (Kind::Number(1), 0, 1),
            (Kind::Sign(Sign::Slash), 2, 1),
            (Kind::Number(2), 4, 1),
        ],
    ),
    (
        b"a*=b",
        &[
            (Kind::Name, 0, 1),
            (Kind::Sign(Sign::StarAssign), 1, 2),
            (Kind::Name, 3, 1),
        ],
    ),
    (
        b"*==",
        &[
            (Kind::Sign(Sign::StarAssign), 0, 2),
            (Kind::Sign(Sign::Assign), 2, 1),
        ],
    ),
    (
        b"* =",
        &[
            (Kind::Sign(Sign::Star), 0, 1),
            (Kind::Sign(Sign::Assign), 2, 1),
        ],
    ),
    (
        b"a/=b",
        &[
            (Kind::Name, 0, 1),
            (Kind::Sign(Sign::SlashAssign), 1, 2),
            (Kind::Name, 3, 1),
        ],
    ),
    (
        b"a/ =b",
        &[
            (Kind::Name, 0, 1),
            (Kind::Sign(Sign::Slash), 1, 1),
            (Kind::Sign(Sign::Assign), 3, 1),
            (Kind::Name, 4, 1),
        ],
    ),
    (
        b"%=%",
        &[
            (Kind::Sign(Sign::PercentAssign), 0, 2),
            (Kind::Sign(Sign::Percent), 2, 1),
        ],
    ),
    (
        b"a[0]?b:c",
        &[
            (Kind::Name, 0, 1),
            (Kind::Sign(Sign::LeftBracket), 1, 1),
            (Kind::Number(0), 2, 1),
            (Kind::Sign(Sign::RightBracket), 3, 1),
            (Kind::Sign(Sign::Question), 4, 1),
            (Kind::Name, 5, 1),
            (Kind::Sign(Sign::Colon), 6, 1),
            (Kind::Name, 7, 1),
        ],
    ),
    // A `/` before and behind what could make it a comment.
    (
        b"*/ /\n*",
        &[
            (Kind::Sign(Sign::Star), 0, 1),
            (Kind::Sign(Sign::Slash), 1, 1),
            (Kind::Sign(Sign::Slash), 3, 1),
            (Kind::Sign(Sign::Star), 5, 1),
        ],
    ),
    (
        b"//*\n/**// /",
        &[
            (Kind::Sign(Sign::Slash), 8, 1),
            (Kind::Sign(Sign::Slash), 10, 1),
        ],
    ),
];

#[test]
fn longest_signs_are_read(rt: HostRuntime) {
    assert_eq!(rt; first_wrong(rt.alloc(), SIGNS), None);
}

const DIRECTIVES: &[(&[u8], &[(Kind, u32, u32)])] = &[
    // The word or the digit, and what stands before it and behind it.
    (b"#include <a.h>\nx", &[(Kind::Name, 15, 1)]),
    (b"#pragma\nx", &[(Kind::Name, 8, 1)]),
    (b"#line 7\nx", &[(Kind::Name, 8, 1)]),
    (b"#7\nx", &[(Kind::Name, 3, 1)]),
    (b" \t\r# \t\r0\nx", &[(Kind::Name, 9, 1)]),
    (b"#1x\ny", &[(Kind::Name, 4, 1)]),
    (b"#include;\nx", &[(Kind::Name, 10, 1)]),
    (b"#line\n#line\nx", &[(Kind::Name, 12, 1)]),
    (b"/* a */\n#line\nx", &[(Kind::Name, 14, 1)]),
    // At the end of the text.
    (b"# 07", &[]),
    (b"#include", &[]),
    (b"x\n#line", &[(Kind::Name, 0, 1)]),
    (b"#line\\", &[]),
    // Bytes that start nothing elsewhere, and what is a fault elsewhere.
    (b"#pragma @ 08 1z \\ x \xff\nx", &[(Kind::Name, 22, 1)]),
    (b"#line \x0b\x0c \nx", &[(Kind::Name, 10, 1)]),
    (b"#line / x\ny", &[(Kind::Name, 10, 1)]),
    // Its comments.
    (b"#line /* a\n# b */ c\nx", &[(Kind::Name, 20, 1)]),
    (b"#line 1 /*\n*/ #\nx", &[(Kind::Name, 16, 1)]),
    (b"#line // a /* b\nx", &[(Kind::Name, 16, 1)]),
    (b"#line // a", &[]),
    (b"#line /* a\n*/", &[]),
    // A backslash in a comment that joins no lines behind a `*`.
    (b"/**\\ x*/a", &[(Kind::Name, 8, 1)]),
];

#[test]
fn directives_are_blanks(rt: HostRuntime) {
    assert_eq!(rt; first_wrong(rt.alloc(), DIRECTIVES), None);
}
