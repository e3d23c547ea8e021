//! The parts of picked unknowns.

ghost use Rattle.std.specs.Prelude.{◌≡◌, ◌*◌, ◌<◌, ◌∷◌, [], length, IfOk};
ghost use Rattle.solve_joint.specs.Numbers.{ArePicked};

use crate::cases::{Case, Fail, first_wrong};
use crate::edges::lines::add_number;
use crate::edges::systems::system_of;
use flow_systems::{Pick, System};
use solve_joint::{Parts, parts};
use std::alloc::{AllocError, Global};

// A loop whose two branches join before it: points entry, loop, join and exit; edge 0 to the loop, edges 1 and 2 through the
// branches, edge 3 to the exit and edge 4 back.
const BRANCHES: &[u8] =
    b"int main() { int x = 0; while (x < 100) { if (x < 50) { x = x + 1; } else { x = x + 2; } } }";

// The upper bounds at the loop, at the join and at the exit, with these edges.
fn picked(
    alloc: Global,
    system: &System,
    at_loop: u32,
    at_join: u32,
    at_exit: u32,
) -> Result<Pick, AllocError>
    requires points { length system.now.flow.points ≡ 4 }
    requires rows { length system.now.template ≡ 2 }
    requires edges { length system.now.flow.edges ≡ 5 }
    requires at_loop { at_loop < 5 }
    requires at_join { at_join < 5 }
    requires at_exit { at_exit < 5 }
    ensures size { IfOk result (λ p. length p ≡ length system.now.flow.points * length system.now.template) }
    ensures picked { IfOk result (λ p. ArePicked system.now p (2 ∷ 4 ∷ 6 ∷ [])) }
{
    let mut pick = Pick::none(alloc, system)?;
    pick.set(2, Some(at_loop));
    pick.set(4, Some(at_join));
    pick.set(6, Some(at_exit));
    Ok(pick)
}

// Appends the unknowns of each part.
fn add_parts(line: &mut Vec<u8>, cut: &Parts) -> Result<(), AllocError> {
    for part in 0..cut.count() {
        line.extend_from_slice(b"part")?;
        for unknown in cut.list(part) {
            add_number(line, b" ", *unknown)?;
        }
        line.extend_from_slice(b"; ")?;
    }
    Ok(())
}

// The parts of the three bounds with these edges.
fn line_of(alloc: Global, at_loop: u32, at_join: u32, at_exit: u32) -> Result<Vec<u8>, Fail> {
    let system = system_of(alloc, BRANCHES, false)?;
    if system.flow.points.as_slice().len() != 4 || system.template.as_slice().len() != 2 {
        return Err("four points and two rows".into());
    }
    if system.flow.edges.as_slice().len() != 5 || at_loop >= 5 || at_join >= 5 || at_exit >= 5 {
        return Err("five edges".into());
    }
    let pick = picked(alloc, &system, at_loop, at_join, at_exit)?;
    let cut = parts(alloc, &system, &pick, [2, 4, 6].as_slice())?;
    let mut line = Vec::new(alloc);
    add_parts(&mut line, &cut)?;
    Ok(line)
}

// The edges of the bounds at the loop, at the join and at the exit, and the line of their parts.
impl Case for (u32, u32, u32, &[u8]) {
    fn is_right(&self, alloc: Global) -> bool {
        match line_of(alloc, self.0, self.1, self.2) {
            Ok(line) => line.as_slice() == self.3,
            Err(_) => false,
        }
    }
}

// A bound leans on the one at the source of its edge: loop and join on one another, or the join on the loop alone.
const PARTS: &[(u32, u32, u32, &[u8])] = &[
    (4, 2, 3, b"part 2 4; part 6; "),
    (0, 2, 3, b"part 2; part 4; part 6; "),
];

#[test]
fn parts_come_in_order(rt: HostRuntime) {
    assert_eq!(rt; first_wrong(rt.alloc(), PARTS), None);
}
