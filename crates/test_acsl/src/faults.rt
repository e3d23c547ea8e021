//! Loads and puts that fail: no answer changes in place of the right one, and what was put is the front of the right text.

use crate::cases::{Case, Outside, SOUND, ends, first_wrong, run_line};
use crate::refusals::COUNT;
use std::alloc::{AllocError, Global};
use test_cases::{front, is_as_wanted, joined};

const LINES: [&[u8]; 8] = [
    b"int main() {\n",
    b"    int x = 0;\n",
    b"    /*@ loop invariant x <= 100;\n",
    b"        loop invariant -x <= 0; */\n",
    b"    while (x < 100)\n",
    b"        x = x + 1;\n",
    b"/*@ assert x == 100; */\n",
    b"}\n",
];

// Whether the text stops with so many lines and bytes of the next one, where the put with that number fails after them.
fn stops(alloc: Global, lines: u32, bytes: usize) -> Result<bool, AllocError> {
    let puts = [(lines, bytes)];
    let outside = Outside {
        loads: &[],
        puts: &puts,
        messages: &[],
    };
    let written = run_line(alloc, "p", COUNT, b"", outside)?;
    let front = front(alloc, &LINES, lines, bytes)?;
    Ok(is_as_wanted(&written, 8, &front, b"cannot write\n"))
}

// Whether the text stops wherever its output fails, and is whole where nothing does, one line at a time.
fn text_stops(alloc: Global) -> Result<bool, AllocError> {
    for lines in 0..8 {
        if !stops(alloc, lines, 0)? || !stops(alloc, lines, 2)? {
            return Ok(false);
        }
    }
    let written = run_line(alloc, "p", COUNT, b"", SOUND)?;
    let whole = joined(alloc, &LINES)?;
    Ok(is_as_wanted(&written, 0, &whole, b"") && written.out.pieces().len() == 8)
}

#[test]
fn a_text_stops_where_its_output_fails(rt: HostRuntime) {
    assert!(rt; text_stops(rt.alloc()) == Ok(true));
}

// A line of words over the loop to 100, what fails, the code and the message.
impl Case for (&str, Outside<'_>, u8, &[u8]) {
    fn is_right(&self, alloc: Global) -> bool {
        let files = (COUNT, b"x\n".as_slice());
        ends(alloc, self.0, files, self.1, (self.2, b"", self.3))
    }
}

// The output fails at its first byte.
const NO_OUTPUT: Outside = Outside {
    loads: &[],
    puts: &[(0, 0)],
    messages: &[],
};

// Neither the output nor the messages take a byte.
const NO_STREAMS: Outside = Outside {
    loads: &[],
    puts: &[(0, 0)],
    messages: &[(0, 0)],
};

// The first file fails.
const NO_PROGRAM: Outside = Outside {
    loads: &[0],
    puts: &[],
    messages: &[],
};

// The second file fails.
const NO_ROWS: Outside = Outside {
    loads: &[1],
    puts: &[],
    messages: &[],
};

// The messages fail after six bytes.
const CUT_MESSAGES: Outside = Outside {
    loads: &[],
    puts: &[],
    messages: &[(0, 6)],
};

const ROWS: &str = "p --domain rows --rows f";

// What the stream of messages answers changes nothing.
const FAULTS: &[(&str, Outside, u8, &[u8])] = &[
    ("p", NO_OUTPUT, 8, b"cannot write\n"),
    ("p", NO_STREAMS, 8, b""),
    ("p", NO_PROGRAM, 3, b"cannot read the program\n"),
    (ROWS, NO_PROGRAM, 3, b"cannot read the program\n"),
    (ROWS, NO_ROWS, 3, b"cannot read the rows\n"),
    ("p --improvements 2", CUT_MESSAGES, 6, b"spent:"),
    ("p q", CUT_MESSAGES, 2, b"usage:"),
];

#[test]
fn loads_and_puts_fail(rt: HostRuntime) {
    assert_eq!(rt; first_wrong(rt.alloc(), FAULTS), None);
}
