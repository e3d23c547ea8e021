//! What programs read as.

use crate::texts::{Case, first_wrong, read};
use lang_tree::{CheckKind, Cond, Deed, Name, Program, Rel, Stmt, leaves, statements};
use std::alloc::Global;

// Whether it is `x - 3 * y + 1 < 0`.
fn is_condition(cond: &Cond) -> bool {
    match cond {
        Cond::Cmp(rel, form) => *rel == Rel::Lt
            && form.coeffs.as_slice() == [1, -3].as_slice()
            && form.constant == 1,
        _ => false,
    }
}

// Whether it is `y = -x` alone, at line 4.
fn is_branch(body: &[Stmt]) -> bool {
    match body {
        [Stmt::Set { var, form, line }] => *var == 1
            && form.coeffs.as_slice() == [-1, 0].as_slice()
            && form.constant == 0
            && *line == 4,
        _ => false,
    }
}

// Whether it is `x = 2` at line 2, any value for `y`, and a branch as above.
fn is_as_written(body: &[Stmt]) -> bool {
    match body {
        [
            Stmt::Set { var, form, line },
            Stmt::Havoc { var: other, .. },
            Stmt::If { cond, first, .. },
        ] => *var == 0
            && form.constant == 2
            && *line == 2
            && *other == 1
            && is_condition(cond)
            && is_branch(first.as_slice()),
        _ => false,
    }
}

// Whether it is the program below.
fn is_program(program: &Program) -> bool {
    program.names.as_slice().len() == 2 && is_as_written(program.body.as_slice())
}

// Whether the text reads as the program below.
fn is_read(alloc: Global, text: &[u8]) -> bool {
    match read(alloc, text) {
        Some(Ok(program)) => is_program(&program),
        _ => false,
    }
}

#[test]
fn programs_are_read(rt: HostRuntime) {
    let text = b"int main(void) {\n  int x = 2, y;\n  if (x < 3*y - 1)\n    y = -x;\n}";
    assert!(rt; is_read(rt.alloc(), text));
}

// Whether it is `do { if (x) break; continue; } while (x < 9);` at line 4.
fn is_do(body: &[Stmt]) -> bool {
    match body {
        [Stmt::Do { body, line: 4, .. }] => match body.as_slice() {
            [Stmt::If { first, .. }, Stmt::Continue { line: 4 }] => {
                matches!(first.as_slice(), [Stmt::Break { line: 4 }])
            }
            _ => false,
        },
        _ => false,
    }
}

// Whether it is `0 <= 0`.
fn is_always(cond: &Cond) -> bool {
    match cond {
        Cond::Cmp(rel, form) => *rel == Rel::Le
            && form.coeffs.as_slice() == [0, 0].as_slice()
            && form.constant == 0,
        _ => false,
    }
}

// Whether it is `i = i + 1` alone.
fn is_next(change: &[Deed]) -> bool {
    match change {
        [Deed::Set { var: 1, form, .. }] => form.coeffs.as_slice() == [0, 1].as_slice()
            && form.constant == 1,
        _ => false,
    }
}

// Whether it is what the text below has behind its first declaration.
fn are_loops(body: &[Stmt]) -> bool {
    match body {
        [
            Stmt::Set {
                var: 1,
                line: 3,
                ..
            },
            Stmt::For {
                change,
                body,
                line: 3,
                ..
            },
            Stmt::For {
                cond,
                change: none,
                body: last,
                line: 5,
                ..
            },
        ] => is_next(change.as_slice())
            && is_do(body.as_slice())
            && none.as_slice().is_empty()
            && is_always(cond)
            && last.as_slice().is_empty(),
        _ => false,
    }
}

// Whether the text reads as loops behind a declaration.
fn has_loops(alloc: Global, text: &[u8]) -> bool {
    match read(alloc, text) {
        Some(Ok(program)) => match program.body.as_slice() {
            [_, body @ ..] => are_loops(body),
            _ => false,
        },
        _ => false,
    }
}

#[test]
fn loops_are_read(rt: HostRuntime) {
    let text =
        b"int main() {\n  int x = 0;\n  for (int i = 3; i < 4; i++)\n    do { if (x) break; continue; } while (x < 9);\n  for (;;) ;\n}";
    assert!(rt; has_loops(rt.alloc(), text));
}

// Whether it is `nondet()`, or `x <= 3`.
fn is_asked(cond: &Cond, free: bool) -> bool {
    match cond {
        Cond::Free => free,
        Cond::Cmp(rel, form) => !free
            && *rel == Rel::Le
            && form.coeffs.as_slice() == [1].as_slice()
            && form.constant == -3,
        _ => false,
    }
}

// Where an `assert` stands, and whether of `nondet()` or of `x <= 3`.
#[derive(Clone, Copy)]
struct Place {
    at: u32,
    line: u32,
    free: bool,
}

// Whether the nodes are those of an `assert` there: its check, and behind it that it holds.
fn is_assert(nodes: &[Stmt], place: Place) -> bool {
    match nodes {
        [
            Stmt::Check {
                check,
                cond: asked,
                line,
            },
            Stmt::Where {
                cond: held,
                line: behind,
            },
        ] => check.kind == CheckKind::Assert
            && check.at == place.at
            && *line == place.line
            && *behind == place.line
            && is_asked(asked, place.free)
            && is_asked(held, place.free),
        _ => false,
    }
}

const FIRST_PLACE: Place = Place {
    at: 24,
    line: 3,
    free: false,
};

const SECOND_PLACE: Place = Place {
    at: 49,
    line: 4,
    free: true,
};

// Whether the text reads as a declaration, an `assert` and another one under an `if`.
fn has_asserts(alloc: Global, text: &[u8]) -> bool {
    match read(alloc, text) {
        Some(Ok(program)) => match program.body.as_slice() {
            [_, nodes @ .., Stmt::If { first, .. }] => {
                is_assert(nodes, FIRST_PLACE) && is_assert(first.as_slice(), SECOND_PLACE)
            }
            _ => false,
        },
        _ => false,
    }
}

#[test]
fn asserts_are_read(rt: HostRuntime) {
    let text =
        b"int main() {\n  int x;\n  assert(x <= 3);\n  if (x) __VERIFIER_assert(nondet());\n}";
    assert!(rt; has_asserts(rt.alloc(), text));
}

// The leaves of the condition of the first statement that asks one.
fn first_leaves(program: &Program) -> Option<u32> {
    match program.body.as_slice() {
        [_, Stmt::While { cond, .. }] => Some(leaves(cond)),
        _ => None,
    }
}

// Whether the program of a text has so many statements, and so many leaves in that condition.
fn has_counts(alloc: Global, text: &[u8], nodes: u32, asked: u32) -> bool {
    match read(alloc, text) {
        Some(Ok(program)) => {
            statements(&program) == nodes && first_leaves(&program) == Some(asked)
        }
        _ => false,
    }
}

#[test]
fn statements_and_leaves_are_counted(rt: HostRuntime) {
    let text = b"int main() { int x = 0; while (x < 100 || x == 200) { x = x + 1; } }";
    assert!(rt; has_counts(rt.alloc(), text, 3, 2));
}

// Whether the bytes are a name, which keeps them.
fn is_name(bytes: &[u8]) -> bool {
    match Name::new(bytes) {
        Some(name) => name.bytes() == bytes && name.again().bytes() == bytes,
        None => false,
    }
}

// Bytes, and whether they are a name.
impl Case for (&[u8], bool) {
    fn is_right(&self, _alloc: Global) -> bool {
        is_name(self.0) == self.1
    }
}

const NAMES: &[(&[u8], bool)] = &[
    (b"a2345678901234567890123456789_32", true),
    (b"_", true),
    (b"while", true),
    (b"", false),
    (b"1x", false),
    (b"x y", false),
    (b"x-", false),
    (b"a23456789012345678901234567890_33", false),
];

#[test]
fn names_are_words(rt: HostRuntime) {
    assert_eq!(rt; first_wrong(rt.alloc(), NAMES), None);
}
