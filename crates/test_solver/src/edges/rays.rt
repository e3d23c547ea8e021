//! The rates of rays.

ghost use Rattle.std.specs.Prelude.{IfOk};
ghost use Rattle.solve_ray.specs.Ranges.{AreWithin};

use crate::cases::{Case, Fail, first_wrong};
use crate::edges::lines::{add_fractions, add_number};
use base_fractions::Frac;
use flow_systems::PartFault;
use solve_ray::{Columns, Layout, Rates, Rise, Rises, rates};
use std::alloc::{AllocError, Global};

// Two unknowns over six columns: their rises, and the split columns of a start value and of a free value.
fn two_unknowns(alloc: Global) -> Result<Layout, AllocError>
    ensures { IfOk result (λ l. AreWithin 6 l.rises) }
{
    let mut rises = Vec::new(alloc);
    rises.push(Rise {
        unknown: 2,
        col: 0,
        starts: Columns::new(vec![in alloc; 2]?),
        frees: Columns::new(Vec::new(alloc)),
    })?;
    rises.push(Rise {
        unknown: 5,
        col: 1,
        starts: Columns::new(vec![in alloc; 2]?),
        frees: Columns::new(vec![in alloc; 4]?),
    })?;
    Ok(Layout {
        rises: Rises::new(rises),
    })
}

// Appends each unknown with its rate and its direction.
fn add_rates(line: &mut Vec<u8>, found: &Rates) -> Result<(), AllocError> {
    for named in found.list.as_slice() {
        add_number(line, b"unknown ", named.unknown)?;
        add_fractions(line, b" rate", [named.rate].as_slice())?;
        add_fractions(line, b" along", named.direction.start.as_slice())?;
        add_fractions(line, b" free", named.direction.free.as_slice())?;
    }
    Ok(())
}

// The fractions of the six columns of a ray.
fn fractions(alloc: Global, ray: &[(i64, i64); 6]) -> Result<Vec<Frac>, Fail> {
    let mut numbers = Vec::new(alloc);
    for (num, den) in ray {
        numbers.push(Frac::make(*num, *den).ok_or("a number")?)?;
    }
    Ok(numbers)
}

// The line of a ray of six columns.
fn line_of(alloc: Global, ray: &[(i64, i64); 6]) -> Result<Vec<u8>, Fail> {
    let layout = two_unknowns(alloc)?;
    let numbers = fractions(alloc, ray)?;
    if numbers.len() != 6 {
        return Err("six columns".into());
    }
    let mut line = Vec::new(alloc);
    match rates(alloc, &layout, numbers.as_slice()) {
        Ok(found) => add_rates(&mut line, &found)?,
        Err(PartFault::Wide { wide, .. }) => {
            add_fractions(&mut line, b"wide", [wide.left, wide.right].as_slice())?
        }
        Err(PartFault::NoMemory) => return Err("ample memory".into()),
    }
    Ok(line)
}

// A ray of six columns, and its line.
impl Case for ([(i64, i64); 6], &[u8]) {
    fn is_right(&self, alloc: Global) -> bool {
        match line_of(alloc, &self.0) {
            Ok(line) => line.as_slice() == self.1,
            Err(_) => false,
        }
    }
}

// An unknown without a rate is left out; a direction's entry is the positive column minus the negative one.
const RAYS: &[([(i64, i64); 6], &[u8])] = &[
    (
        [(0, 1), (1, 3), (0, 1), (1, 1), (1, 3), (0, 1)],
        b"unknown 5 rate 1/3 along -1 free 1/3",
    ),
    (
        [
            (0, 1),
            (1, 1),
            (-1, 1),
            (9223372036854775807, 1),
            (0, 1),
            (0, 1),
        ],
        b"wide -1 9223372036854775807",
    ),
];

#[test]
fn rays_have_their_rates(rt: HostRuntime) {
    assert_eq!(rt; first_wrong(rt.alloc(), RAYS), None);
}
