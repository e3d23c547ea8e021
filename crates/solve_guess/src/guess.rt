//! The search for the greatest vector that picked edges support.

ghost use Rattle.std.specs.Prelude.{◌≡◌, ◌*◌, IfOk, IfSome, length};
ghost use Rattle.solve_guess.specs.Guesses.{HasNumbers};

use crate::asked::{Asked, number_at};
use crate::columns::Columns;
use crate::cut::cut;
use crate::halt::Halt;
use crate::master::{Furthest, end_of, master};
use crate::reached::Reached;
use crate::receding::rates;
use crate::seen::seen_at;
use crate::shaped::Shaped;
use base_fractions::Frac;
use flow_systems::fraction;
use solve_ray::Rates;
use std::alloc::{AllocError, Global};

/// How many vectors are tried for the joint problem of a turn.
pub const MOST_VECTORS: u32 = 64;

// What cuts a vector gave: none, as it is reached everywhere; some of which one excludes the vector; or only others.
#[derive(Clone, Copy)]
enum Cuts {
    None,
    Excluding,
    Others,
}

impl Cuts {
    // With one more, which excludes the vector or doesn't.
    fn and(self, excludes: bool) -> Cuts {
        match self {
            Cuts::Excluding => Cuts::Excluding,
            _ if excludes => Cuts::Excluding,
            _ => Cuts::Others,
        }
    }
}

// Adds a cut for each listed unknown whose transformer has another value than the vector has at the unknown.
fn add_cuts(
    alloc: Global,
    asked: Asked<'_>,
    columns: &Columns,
    reached: &Reached,
    master: &mut Shaped,
) -> Result<Cuts, Halt>
    requires { length reached.now.vector ≡ length asked.bounds.now }
{
    let mut cuts = Cuts::None;
    for (place, unknown) in asked.list.iter().enumerate() {
        let seen = seen_at(alloc, asked, &reached.vector, *unknown)?;
        let number = number_at(&reached.vector, *unknown)?;
        if seen.value != number {
            let distance = seen.value.minus(number_at(asked.bounds, *unknown)?)?;
            let row = cut(
                alloc,
                columns,
                reached.rises.as_slice(),
                &seen,
                place,
                distance,
                asked.list.len(),
            )?;
            master.add(row)?;
            cuts = cuts.and(seen.value < number);
        }
    }
    Ok(cuts)
}

/// Where the joint problem of a list may end.
#[derive(Drop)]
pub enum Guess {
    /// At a vector: one number for each unknown of the list, in order.
    Point(Vec<Frac>),
    /// Nowhere: the unknowns that grow, with their rates and directions.
    Ray(Rates),
}

// How many units of a ray are far out.
const FAR: i64 = 1 << 20;

// Rises far out on a ray.
fn far_out(alloc: Global, ray: &[Frac]) -> Result<Vec<Frac>, Halt> {
    let mut rises = Vec::with_capacity(alloc, ray.len())?;
    for rise in ray {
        rises.push(rise.times(fraction(FAR))?)?;
    }
    Ok(rises)
}

// Goes to where the master problem ends: adds cuts that exclude this, or says that it is the end.
fn go(
    alloc: Global,
    asked: Asked<'_>,
    columns: &Columns,
    reached: &mut Reached,
    master: &mut Shaped,
) -> Result<Option<Guess>, Halt>
    requires { length reached.old.vector ≡ length asked.bounds.now }
    ensures size { length reached.new.vector ≡ length reached.old.vector }
    ensures numbers { IfOk result (λ guess. IfSome guess (HasNumbers (length asked.entry.list.now))) }
{
    match end_of(alloc, master)? {
        Furthest::Point(rises) => {
            reached.go_to(asked, rises)?;
            match add_cuts(alloc, asked, columns, reached, master)? {
                Cuts::None => Ok(Some(Guess::Point(reached.numbers(alloc, asked.list)?))),
                Cuts::Excluding => Ok(None),
                Cuts::Others => Err(Halt::GivenUp),
            }
        }
        Furthest::Ray(ray) => {
            let rises = far_out(alloc, ray.as_slice())?;
            reached.go_to(asked, rises)?;
            match add_cuts(alloc, asked, columns, reached, master)? {
                Cuts::Excluding => Ok(None),
                _ => Ok(Some(Guess::Ray(rates(alloc, asked, columns, ray.as_slice())?))),
            }
        }
    }
}

// Where the search ends.
fn search(alloc: Global, asked: Asked<'_>, vectors: u32) -> Result<Guess, Halt>
    ensures { IfOk result (HasNumbers (length asked.entry.list.now)) }
{
    let columns = Columns::new(alloc, asked.bounds.as_slice().len(), asked.list)?;
    let mut master = master(alloc, asked.list.len())?;
    let mut reached = Reached::base(alloc, asked)?;
    add_cuts(alloc, asked, &columns, &reached, &mut master)?;
    for _vector in 0..vectors {
        if let Some(guess) = go(alloc, asked, &columns, &mut reached, &mut master)? {
            return Ok(guess);
        }
    }
    Err(Halt::GivenUp)
}

/// A guess of where the joint problem of a list of unknowns over bounds ends: at the greatest vector that the picked edges support
/// on the list, or nowhere, along a ray. It is found by cuts (docs/METHOD.md, "Joint problems by cuts"), for which so many vectors
/// are tried at most, and nothing is promised of it: who asks tests it. `None` where it was given up: an operation was too wide for a
/// fraction, a transformer had no greatest value, an unknown had no edge or no number, or there were too many cuts or vectors.
///
/// # Errors
///
/// Want of memory.
pub fn guess_end(alloc: Global, asked: Asked<'_>, vectors: u32) -> Result<Option<Guess>, AllocError>
    ensures { IfOk result (λ guess. IfSome guess (HasNumbers (length asked.entry.list.now))) }
{
    match search(alloc, asked, vectors) {
        Ok(guess) => Ok(Some(guess)),
        Err(Halt::GivenUp) => Ok(None),
        Err(Halt::NoMemory) => Err(AllocError),
    }
}
