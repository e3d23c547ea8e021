//! Points that reach each other.

ghost use Rattle.std.specs.Prelude.{◌≡◌, ◌<◌, ℕ, true, IfOk, length};
ghost use Rattle.solve_joint.specs.Classes.{are_mutual, IsHome, AreHomes};

use crate::table::{Row, cell_of};
use std::alloc::{AllocError, Global};

// Whether each of two points reaches the other.
fn are_mutual(rows: &[Row], a: u32, b: u32) -> bool
    ensures { result ≡ are_mutual rows.now a b }
{
    cell_of(rows, a, b) && cell_of(rows, b, a)
}

// The lowest point that a point reaches and that reaches it.
fn home(rows: &[Row], point: u32) -> u32
    requires { are_mutual rows.now point point ≡ true }
    ensures { IsHome rows.now point result }
{
    for other in 0..point {
        if are_mutual(rows, point, other) {
            return other;
        }
    }
    point
}

/// For each of so many points the lowest point that it reaches and that reaches it. Each reaches itself.
pub fn homes(alloc: Global, points: u32, rows: &[Row]) -> Result<Vec<u32>, AllocError>
    requires { (p : ℕ) → p < points → are_mutual rows.now p p ≡ true }
    ensures { IfOk result (λ v. AreHomes points rows.now v.items) }
{
    let mut homes = Vec::with_capacity(alloc, points as usize)?;
    for point in 0..points {
        homes.push(home(rows, point))?;
    }
    Ok(homes)
}
