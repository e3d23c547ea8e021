//! Functions of C by machine integers, with the verdicts on their checks, worked out by hand.

use crate::cases::{Case, Ending, first_wrong};
use crate::functions::texts::{
    ADDED, AREA, BACK, BETWEEN, CALLED, COUNT, DIGIT, DOUBLED, DOUBLED64, DOWN, ELEMENT, EVERY,
    GCD, KEPT, LEAST, MIDDLE, MILLIS, MIXED, MORE, NEGATIVE, NESTED, NEXT, NO_REST, NOWHERE,
    OPPOSITE, PAIRED, POSITIVE, PRODUCT, SIDE, SIZE, SOME_REST, SUBSCRIPT, UP, WIDE,
};

const FUNCTIONS: &[(&str, &[u8], Ending)] = &[
    (
        "verify p --int 16",
        COUNT,
        Ending::Report(b"check 0 at 1:48: range: proved\nproved 1 of 1\nimprovements: 3\n"),
    ),
    (
        "verify p --int 32",
        COUNT,
        Ending::Report(b"check 0 at 1:48: range: proved\nproved 1 of 1\nimprovements: 3\n"),
    ),
    (
        "verify p --int 8",
        COUNT,
        Ending::Open(
            b"check 0 at 1:36: range: open at x = 0\
                \ncheck 1 at 1:48: range: open at x = 127\nproved 0 of 2\nimprovements: 3\n",
        ),
    ),
    (
        "verify p --int 32",
        NEXT,
        Ending::Open(
            b"check 0 at 1:28: range: open at a = 2147483647\nproved 0 of 1\nimprovements: 1\n",
        ),
    ),
    (
        "verify p --int 32 --domain octagons",
        MIDDLE,
        Ending::Open(
            b"check 0 at 3:14: range: open at lo = 1073741824, hi = 1073741824\
                \ncheck 1 at 3:20: range: proved\nproved 1 of 2\nimprovements: 1\n",
        ),
    ),
    (
        "verify p --int 32 --domain octagons",
        BETWEEN,
        Ending::Report(
            b"check 0 at 3:19: range: proved\
                \ncheck 1 at 3:25: range: proved\
                \ncheck 2 at 3:13: range: proved\nproved 3 of 3\nimprovements: 1\n",
        ),
    ),
    (
        "verify p --int 8",
        SIDE,
        Ending::Open(
            b"check 0 at 3:22: range: proved\
                \ncheck 1 at 3:26: range: proved\
                \ncheck 2 at 4:3: assert: open at x = 100, y = 0\nproved 2 of 3\nimprovements: 0\n",
        ),
    ),
    (
        "verify p --int 8",
        DOWN,
        Ending::Open(b"check 0 at 3:6: range: open at n = -128\nproved 0 of 1\nimprovements: 2\n"),
    ),
    (
        "verify p --int 8",
        UP,
        Ending::Report(b"check 0 at 4:6: range: proved\nproved 1 of 1\nimprovements: 2\n"),
    ),
    (
        "verify p --int 8",
        EVERY,
        Ending::Open(b"check 0 at 2:30: range: open at i = 127\nproved 0 of 1\nimprovements: 3\n"),
    ),
    (
        "verify p --int 16",
        EVERY,
        Ending::Report(b"check 0 at 2:30: range: proved\nproved 1 of 1\nimprovements: 3\n"),
    ),
    (
        "verify p --int 8",
        DOUBLED,
        Ending::Report(b"check 0 at 4:7: range: proved\nproved 1 of 1\nimprovements: 3\n"),
    ),
    (
        "verify p --int 8",
        DOUBLED64,
        Ending::Open(b"check 0 at 4:7: range: open at x = 64\nproved 0 of 1\nimprovements: 3\n"),
    ),
    (
        "verify p --int 8 --domain octagons",
        PAIRED,
        Ending::Report(
            b"check 0 at 3:28: range: proved\
                \ncheck 1 at 4:7: range: proved\
                \ncheck 2 at 5:3: assert: proved\nproved 3 of 3\nimprovements: 3\n",
        ),
    ),
    (
        "verify p --int 8",
        OPPOSITE,
        Ending::Open(
            b"check 0 at 2:11: range: proved\
                \ncheck 1 at 2:16: range: proved\
                \ncheck 2 at 3:14: range: proved\
                \ncheck 3 at 3:12: range: open at m = -128\nproved 3 of 4\nimprovements: 1\n",
        ),
    ),
    (
        "verify p --int 8",
        NO_REST,
        Ending::Open(
            b"check 0 at 2:15: range: proved\
                \ncheck 1 at 2:13: range: open at a = -128, r = 0\nproved 1 of 2\nimprovements: 1\n",
        ),
    ),
    (
        "verify p --int 8",
        SOME_REST,
        Ending::Report(
            b"check 0 at 2:14: range: proved\
                \ncheck 1 at 2:19: range: proved\
                \ncheck 2 at 3:14: range: proved\
                \ncheck 3 at 3:12: range: proved\nproved 4 of 4\nimprovements: 1\n",
        ),
    ),
    (
        "verify p --int 16",
        PRODUCT,
        Ending::Open(
            b"check 0 at 3:12: range: open at a = 3, b = 4\
                \ncheck 1 at 3:16: range: open at a = 3, b = 4\nproved 0 of 2\nimprovements: 1\n",
        ),
    ),
    (
        "verify p --int 8",
        NOWHERE,
        Ending::Report(
            b"check 0 at 3:14: range: proved\
                \ncheck 1 at 3:20: range: proved\
                \ncheck 2 at 3:18: range: proved\nproved 3 of 3\nimprovements: 2\n",
        ),
    ),
    (
        "verify p --int 8",
        ELEMENT,
        Ending::Open(
            b"check 0 at 4:15: index: proved\
                \ncheck 1 at 4:19: range: proved\
                \ncheck 2 at 4:23: range: proved\
                \ncheck 3 at 5:11: index: proved\
                \ncheck 4 at 5:15: range: open at i = 3, half = 1\nproved 4 of 5\nimprovements: 1\n",
        ),
    ),
    (
        "verify p --int 8",
        SUBSCRIPT,
        Ending::Open(
            b"check 0 at 4:7: range: open at i = 127\
                \ncheck 1 at 4:4: index: open at i = 127\
                \ncheck 2 at 4:14: range: proved\nproved 1 of 3\nimprovements: 1\n",
        ),
    ),
    (
        "verify p --int 8",
        CALLED,
        Ending::Open(
            b"check 0 at 3:11: range: proved\
                \ncheck 1 at 3:20: range: open at x = 5\
                \ncheck 2 at 4:12: range: open at x = -128\nproved 1 of 3\nimprovements: 1\n",
        ),
    ),
    (
        "verify p --int 8",
        NESTED,
        Ending::Open(
            b"check 0 at 2:33: range: proved\
                \ncheck 1 at 2:41: range: proved\
                \ncheck 2 at 2:48: range: open at x = -128, y = 0\
                \ncheck 3 at 2:51: range: proved\nproved 3 of 4\nimprovements: 1\n",
        ),
    ),
    (
        "verify p --int 8",
        POSITIVE,
        Ending::Open(
            b"check 0 at 2:24: divisor: proved\
                \ncheck 1 at 2:24: range: open at a = -128, b = -1, is = 0\nproved 1 of 2\nimprovements: 1\n",
        ),
    ),
    (
        "verify p --int 8",
        NEGATIVE,
        Ending::Report(
            b"check 0 at 2:17: range: proved\
                \ncheck 1 at 2:25: divisor: proved\
                \ncheck 2 at 2:25: range: proved\nproved 3 of 3\nimprovements: 1\n",
        ),
    ),
    (
        "verify p --int 8",
        GCD,
        Ending::Open(
            b"check 0 at 3:15: divisor: proved\
                \ncheck 1 at 3:15: range: open at a = -128, b = -1, r = 0\nproved 1 of 2\nimprovements: 2\n",
        ),
    ),
    (
        "verify p --int 16",
        SIZE,
        Ending::Open(
            b"check 0 at 3:9: range: open at x = -32768\ncheck 1 at 4:3: assert: proved\nproved 1 of 2\nimprovements: 2\n",
        ),
    ),
    (
        "verify p --int 8 --domain octagons",
        ADDED,
        Ending::Report(
            b"check 0 at 2:24: range: proved\
                \ncheck 1 at 3:20: range: proved\
                \ncheck 2 at 3:25: range: proved\
                \ncheck 3 at 3:29: range: proved\
                \ncheck 4 at 3:41: range: proved\
                \ncheck 5 at 3:46: range: proved\
                \ncheck 6 at 4:12: range: proved\nproved 7 of 7\nimprovements: 3\n",
        ),
    ),
    (
        "verify p --int 8",
        WIDE,
        Ending::Open(
            b"check 0 at 3:25: range: proved\
                \ncheck 1 at 4:15: range: proved\
                \ncheck 2 at 5:15: range: open at x = 1, y = 0\nproved 2 of 3\nimprovements: 1\n",
        ),
    ),
    (
        "verify p --int 8",
        LEAST,
        Ending::Open(
            b"check 0 at 3:11: range: open at x = 0\ncheck 1 at 3:10: range: proved\nproved 1 of 2\nimprovements: 1\n",
        ),
    ),
    (
        "verify p --int 8",
        BACK,
        Ending::Open(
            b"check 0 at 3:9: range: proved\
                \ncheck 1 at 3:15: range: proved\
                \ncheck 2 at 4:12: range: open at a = 100\
                \ncheck 3 at 4:18: range: proved\nproved 3 of 4\nimprovements: 1\n",
        ),
    ),
    (
        "verify p --int 8",
        DIGIT,
        Ending::Open(
            b"check 0 at 2:5: range: proved\
                \ncheck 1 at 3:5: range: proved\
                \ncheck 2 at 4:5: range: proved\
                \ncheck 3 at 5:12: range: open at x = 127\nproved 3 of 4\nimprovements: 1\n",
        ),
    ),
    (
        "verify p --int 16",
        AREA,
        Ending::Report(b"check 0 at 3:14: range: proved\nproved 1 of 1\nimprovements: 1\n"),
    ),
    (
        "verify p --int 32",
        MILLIS,
        Ending::Report(
            b"check 0 at 3:34: range: proved\ncheck 1 at 4:11: range: proved\nproved 2 of 2\nimprovements: 3\n",
        ),
    ),
    (
        "verify p --int 8",
        MORE,
        Ending::Report(
            b"check 0 at 3:18: range: proved\ncheck 1 at 3:24: range: proved\nproved 2 of 2\nimprovements: 1\n",
        ),
    ),
    (
        "verify p --int 8",
        KEPT,
        Ending::Open(
            b"check 0 at 4:4: index: proved\
                \ncheck 1 at 4:7: range: open at i = 1, j = 0\
                \ncheck 2 at 5:7: range: proved\
                \ncheck 3 at 5:4: index: proved\
                \ncheck 4 at 5:12: range: open at i = 1, j = 0\
                \ncheck 5 at 6:4: index: proved\
                \ncheck 6 at 6:12: index: proved\
                \ncheck 7 at 6:8: range: open at i = 1, j = 0\
                \ncheck 8 at 7:4: index: proved\
                \ncheck 9 at 7:11: range: proved\
                \ncheck 10 at 7:8: range: open at i = 1, j = 0\
                \ncheck 11 at 8:7: range: proved\
                \ncheck 12 at 8:4: index: proved\
                \ncheck 13 at 8:12: divisor: proved\
                \ncheck 14 at 8:12: range: proved\
                \ncheck 15 at 9:27: index: proved\
                \ncheck 16 at 9:30: range: open at i = 1, j = 0\
                \ncheck 17 at 9:36: range: proved\nproved 13 of 18\nimprovements: 3\n",
        ),
    ),
    (
        "verify p --int 8",
        MIXED,
        Ending::Open(
            b"check 0 at 3:12: range: open at x = 127\
                \ncheck 1 at 3:25: range: proved\
                \ncheck 2 at 3:31: range: open at x = 127\
                \ncheck 3 at 4:9: range: proved\
                \ncheck 4 at 9:10: range: proved\
                \ncheck 5 at 9:17: range: open at x = 5\
                \ncheck 6 at 9:13: range: open at x = 5\
                \ncheck 7 at 9:24: range: open at x = 5\
                \ncheck 8 at 10:11: range: open at x = 5\
                \ncheck 9 at 12:14: range: open at x = 5\
                \ncheck 10 at 13:11: range: proved\
                \ncheck 11 at 14:12: range: proved\
                \ncheck 12 at 14:3: assert: proved\
                \ncheck 13 at 15:12: range: open at x = 127\
                \ncheck 14 at 16:12: range: proved\
                \ncheck 15 at 16:20: range: proved\
                \ncheck 16 at 16:16: range: proved\nproved 9 of 17\nimprovements: 5\n",
        ),
    ),
];

#[test]
fn functions_have_verdicts_by_machine_integers(rt: HostRuntime) {
    assert_eq!(rt; first_wrong(rt.alloc(), FUNCTIONS), None);
}
