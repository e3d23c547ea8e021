//! Guesses of where joint problems end, by hand.

ghost use Rattle.std.specs.Prelude.{◌≡◌, ◌*◌, ◌<◌, length, IfOk};

use crate::cases::{Case, Fail, first_wrong};
use crate::rounds::lines::{add_fraction, add_number};
use crate::rounds::systems::{Domain, FAST, GROWING, INNER_LOOPS, system_of};
use base_fractions::Ext;
use flow_systems::{Bounds, Pick, System, fraction};
use solve_composition::compose_all;
use solve_guess::{Asked, Guess, MOST_VECTORS, guess_end};
use std::alloc::{AllocError, Global};

// The upper bounds of the three variables at the three loops.
const UPPERS: &[u32] = &[6, 8, 10, 12, 14, 16, 18, 20, 22];

// The bounds of the first values: none at the entry, 0 at the loop, 1 behind its body, and none at the exit.
const FIRST: &[Option<i32>] = &[
    None,
    None,
    None,
    None,
    None,
    None,
    Some(0),
    Some(0),
    Some(0),
    Some(0),
    Some(0),
    Some(0),
    Some(1),
    Some(-1),
    Some(1),
    Some(-1),
    Some(1),
    Some(-1),
    Some(1),
    Some(-1),
    Some(1),
    Some(-1),
    Some(1),
    Some(-1),
    None,
    None,
    None,
    None,
    None,
    None,
];

// Bounds with these numbers, `+inf` where there is none.
fn bounds_of(alloc: Global, numbers: &[Option<i32>]) -> Result<Bounds, AllocError>
    ensures { IfOk result (λ bounds. length bounds ≡ length numbers.now) }
{
    let mut list = Vec::new(alloc);
    for number in numbers {
        let bound = match *number {
            Some(number) => Ext::Fin(fraction(number as i64)),
            None => Ext::PosInf,
        };
        list.push(bound)?;
    }
    Ok(Bounds::new(list))
}

// The edges of the upper bounds: one back to the loop, one through its body, and one between the inner loops.
fn picked(
    alloc: Global,
    system: &System,
    back: u32,
    body: u32,
    between: u32,
) -> Result<Pick, AllocError>
    requires points { length system.now.flow.points ≡ 5 }
    requires rows { length system.now.template ≡ 6 }
    ensures { IfOk result (λ pick. length pick ≡ length system.now.flow.points * length system.now.template) }
{
    let mut pick = Pick::none(alloc, system)?;
    pick.set(6, Some(back));
    pick.set(8, Some(back));
    pick.set(10, Some(back));
    pick.set(12, Some(body));
    pick.set(14, Some(body));
    pick.set(16, Some(body));
    pick.set(18, Some(between));
    pick.set(20, Some(between));
    pick.set(22, Some(between));
    Ok(pick)
}

// The line of a guess: the numbers of a point, or the unknowns that grow along a ray.
fn line_of(alloc: Global, guess: Option<Guess>) -> Result<Vec<u8>, Fail> {
    let mut line = Vec::new(alloc);
    match guess {
        Some(Guess::Point(numbers)) => {
            line.extend_from_slice(b"point")?;
            for number in &numbers {
                add_fraction(&mut line, *number)?;
            }
        }
        Some(Guess::Ray(rates)) => {
            line.extend_from_slice(b"ray")?;
            for rate in rates.list.as_slice() {
                add_number(&mut line, b" ", rate.unknown as u64)?;
            }
        }
        None => line.extend_from_slice(b"none")?,
    }
    Ok(line)
}

// The guess for some upper bounds of a text's system above its first values, by so many vectors at most.
fn guessed(alloc: Global, guess: &Guessing<'_>) -> Result<Vec<u8>, Fail> {
    let system = system_of(alloc, guess.text, Domain::Intervals)?;
    if system.flow.points.as_slice().len() != 5 || system.template.as_slice().len() != 6 {
        return Err("five points and six rows".into());
    }
    let bounds = bounds_of(alloc, FIRST)?;
    let pick = picked(alloc, &system, guess.back, 1, guess.between)?;
    match compose_all(alloc, &system) {
        Ok(paths) => {
            let asked = Asked {
                system: &system,
                paths: &paths,
                bounds: &bounds,
                pick: &pick,
                list: guess.list,
            };
            line_of(alloc, guess_end(alloc, asked, guess.vectors)?)
        }
        Err(_) => Err("small numbers".into()),
    }
}

/// A text, the edges back to its loop and between its inner loops, the unknowns, how many vectors are tried, and the line.
#[derive(Drop)]
struct Guessing<'a> {
    text: &'a [u8],
    back: u32,
    between: u32,
    list: &'a [u32],
    vectors: u32,
    line: &'a [u8],
}

impl Case for Guessing<'_> {
    fn is_right(&self, alloc: Global) -> bool {
        match guessed(alloc, self) {
            Ok(line) => line.as_slice() == self.line,
            Err(_) => false,
        }
    }
}

// Each variable goes round to its guard: 9, 19 or 29 and 1 more. One bound alone rises by what stands in the others: behind the body
// `x` is 1 at most where it is 0 at the loop, and at the loop what it is at the second inner loop. Where
// nothing bounds them, the first that can rise is `x`, whose three bounds rise along one ray together. It is followed 2^20 units far,
// where the transformer of a variable that is 2^43 times `x` is too wide: there the guess is given up, as it is where no vector may be
// tried.
const GUESSES: &[Guessing] = &[
    Guessing {
        text: INNER_LOOPS,
        back: 8,
        between: 6,
        list: UPPERS,
        vectors: MOST_VECTORS,
        line: b"point 10 20 30 10 20 30 10 20 30",
    },
    Guessing {
        text: INNER_LOOPS,
        back: 8,
        between: 6,
        list: &[6],
        vectors: MOST_VECTORS,
        line: b"point 1",
    },
    Guessing {
        text: INNER_LOOPS,
        back: 8,
        between: 6,
        list: UPPERS,
        vectors: 0,
        line: b"none",
    },
    Guessing {
        text: GROWING,
        back: 6,
        between: 4,
        list: UPPERS,
        vectors: MOST_VECTORS,
        line: b"ray 6 12 18",
    },
    Guessing {
        text: FAST,
        back: 6,
        between: 4,
        list: UPPERS,
        vectors: MOST_VECTORS,
        line: b"none",
    },
];

#[test]
fn joint_problems_are_guessed(rt: HostRuntime) {
    assert_eq!(rt; first_wrong(rt.alloc(), GUESSES), None);
}
