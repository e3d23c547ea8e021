//! Calls with ample memory: what comes of them, and where it lies in room of 64 bytes.

use crate::{Told, tmpl_page_answer};
use std::alloc::{AllocError, Global};

#[derive(Drop)]
struct Case {
    texts: &'static [u8],
    lengths: &'static [usize],
    words: usize,
    code: u8,
    output: usize,
    message: usize,
    // What is put at the beginning of the room.
    put: &'static [u8],
}

// Where there is nothing to say, the message is an empty line.
const PROVED: Case = Case {
    texts: b"verifypint main() { int x = 7; assert(x == 7); }",
    lengths: &[6, 1, 41],
    words: 2,
    code: 0,
    output: 62,
    message: 1,
    put: b"check 0 at 1:25: assert: proved\nproved 1 of 1\nimprovements: 1\n\n",
};

// The output is longer than the room.
const OPEN: Case = Case {
    texts: b"verifypint main() { int x = 7; assert(x == 8); }",
    lengths: &[6, 1, 41],
    words: 2,
    code: 10,
    output: 69,
    message: 1,
    put: b"",
};

// There is a length more, for which nothing is left.
const REFUSED: Case = Case {
    texts: b"solvepint main() { x = 1; }",
    lengths: &[5, 1, 21, 5],
    words: 2,
    code: 4,
    output: 0,
    message: 40,
    put: b"program refused: unknown name at line 1\n",
};

const NO_TEXT: Case = Case {
    texts: b"solve\xFF",
    lengths: &[5, 1],
    words: 2,
    code: 9,
    output: 0,
    message: 0,
    put: b"",
};

// Whether a call ends as wanted.
fn is_right(alloc: Global, case: &Case) -> Result<bool, AllocError> {
    let mut room = vec![in alloc; b'.'; 64]?;
    let mut told = Told {
        round: 0,
        raised: 0,
        turn: 0,
        pivots: 0,
        output: 0,
        message: 0,
    };
    let code = tmpl_page_answer(
        alloc,
        case.texts,
        case.lengths,
        case.words,
        &mut room,
        &mut told,
    );
    let is_told = told.output == case.output && told.message == case.message;
    let (put, rest) = room.split_at(case.put.len().min(64));
    Ok(code == case.code && is_told && put == case.put && rest.iter().all(|byte| *byte == b'.'))
}

#[test]
fn answers_lie_in_the_room(rt: HostRuntime) -> Result<(), AllocError> {
    let cases = [PROVED, OPEN, REFUSED, NO_TEXT];
    for case in &cases {
        assert!(rt; is_right(rt.alloc(), case)?);
    }
    Ok(())
}
