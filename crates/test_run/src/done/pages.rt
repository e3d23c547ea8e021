//! The pages of `help`, by their first and last lines: what stands between is in the contract, each part of it once.

use crate::cases::{Case, Ending, first_wrong};

// A line of words, and how the page that is written begins.
const BEGINNINGS: &[(&str, &[u8])] = &[
    (
        "help",
        b"Finds the least bounds of linear forms over the variables of a program, without\n",
    ),
    (
        "help help",
        b"Finds the least bounds of linear forms over the variables of a program, without\n",
    ),
    (
        "help -- equations",
        b"Prints the least solution of rational equations with maxima and minima.\n",
    ),
    (
        "help verify",
        b"Says of each assertion of a program whether its least bounds prove it, with a\n",
    ),
    (
        "help solve",
        b"Prints the least bounds of a program: for each point, as loop heads, labels\n",
    ),
    (
        "help certify",
        b"Writes a certificate of the least bounds of a program: how they are reached,\n",
    ),
    (
        "help check",
        b"Checks a certificate, whoever made it, and prints the bounds of one that is\n",
    ),
    (
        "help bench",
        b"Solves a generated program, and prints a summary of what was found.\n",
    ),
    (
        "help upgrade",
        b"Writes a certificate of an older format as certify writes certificates now.\n",
    ),
    (
        "help prove",
        b"Says of each claim about the states at a label whether the least bounds of the\n",
    ),
    (
        "help transitions",
        b"Prints the least bounds of a transition system: points, with guarded edges\n",
    ),
    (
        "help points",
        b"Lists the points of a program, with their lines and labels, without bounds.\n",
    ),
];

// A line of words, the file `p`, and how the page that is written ends; nothing is read.
const ENDS: &[(&str, &[u8], Ending)] = &[
    (
        "help",
        b"",
        Ending::End(b"  7 out of memory, 8 cannot write, 10 some assertion is open\n"),
    ),
    (
        "help points",
        b"",
        Ending::End(b"3 file not read, 4 program refused,\n  7 out of memory, 8 cannot write\n"),
    ),
    (
        "help verify",
        b"",
        Ending::End(
            b"\nexit codes: 0 all are proved, 10 some assertion is open, 2 wrong words,\n  3 file not read, 4 text refused or too large, 5 fraction too wide,\n  6 improvements spent, 7 out of memory, 8 cannot write\n",
        ),
    ),
];

#[test]
fn pages_are_written(rt: HostRuntime) {
    assert_eq!(rt; first_wrong(rt.alloc(), ENDS), None);
    let wrong = BEGINNINGS.iter().position(|row| !(
        row.0,
        b"".as_slice(),
        Ending::Start(row.1),
    ).is_right(rt.alloc()));
    assert_eq!(rt; wrong, None);
}
