//! Problems whose answers were found by hand: the goal's numbers, and then each row's coefficients and side.
use crate::problems::{Expected, Number, answers};
use base_fractions::{Frac, Op, OrderedField, Short};
use std::alloc::Global;
use std::test::Fail;

// The goal's numbers and those of each row, and the answer.
type Case<'a> = (&'a [&'a [Number]], Expected<'a>);

// Beale's problem cycles where the largest coefficient enters.
const BEALE: &[&[Number]] = &[
    &[(3, 4), (-150, 1), (1, 50), (-6, 1)],
    &[(1, 4), (-60, 1), (-1, 25), (9, 1), (0, 1)],
    &[(1, 2), (-90, 1), (-1, 50), (3, 1), (0, 1)],
    &[(0, 1), (0, 1), (1, 1), (0, 1), (1, 1)],
];

// A first pivot whose sums pass 32767.
const STEEP: &[&[Number]] = &[
    &[(1, 1), (0, 1)],
    &[(200, 1), (1, 1), (1, 1)],
    &[(1, 1), (200, 1), (5, 1)],
];

// Whether a case is answered as it is to be.
fn is_followed<F: OrderedField>(alloc: Global, case: &Case) -> Result<bool, Fail> {
    let goal = case.0.first().ok_or("a goal")?;
    let mut numbers = Vec::new(alloc);
    for line in case.0 {
        numbers.extend_from_slice(line)?;
    }
    answers::<F>(alloc, goal.len(), &numbers, &case.1)
}

// Whether each case is answered as it is to be.
fn follow<F: OrderedField>(alloc: Global, cases: &[Case]) -> Result<bool, Fail> {
    for case in cases {
        if !is_followed::<F>(alloc, case)? {
            return Ok(false);
        }
    }
    Ok(true)
}

// The answers that both fields have.
fn shared<F: OrderedField>(alloc: Global) -> Result<bool, Fail> {
    let cases: [Case; 9] = [
        (
            &[
                &[(1, 1), (1, 1)],
                &[(1, 1), (2, 1), (4, 1)],
                &[(3, 1), (1, 1), (6, 1)],
            ],
            Expected::Best(&[(8, 5), (6, 5)], (14, 5), &[(2, 5), (1, 5)]),
        ),
        (&[&[(1, 1)], &[(1, 1), (-1, 1)]], Expected::Empty(&[(1, 1)])),
        (&[&[(1, 1)]], Expected::Unbounded(&[(0, 1)], &[(1, 1)])),
        (
            &[&[(-1, 1)], &[(-1, 1), (-3, 1)]],
            Expected::Best(&[(3, 1)], (-3, 1), &[(1, 1)]),
        ),
        (
            &[&[(1, 1)], &[(-1, 1), (-3, 1)]],
            Expected::Unbounded(&[(3, 1)], &[(1, 1)]),
        ),
        (
            &[&[], &[(1, 1)], &[(0, 1)]],
            Expected::Best(&[], (0, 1), &[(0, 1), (0, 1)]),
        ),
        (
            &[&[], &[(-1, 1)], &[(-2, 1)]],
            Expected::Empty(&[(0, 1), (1, 1)]),
        ),
        (
            &[&[(1, 1)], &[(1, 1), (2, 1)], &[(1, 1), (2, 1)]],
            Expected::Best(&[(2, 1)], (2, 1), &[(1, 1), (0, 1)]),
        ),
        (
            &[&[(1, 1)], &[(1, 1), (-1, 1)], &[(1, 1), (-1, 1)]],
            Expected::Empty(&[(1, 1), (0, 1)]),
        ),
    ];
    follow::<F>(alloc, &cases)
}

#[test]
fn outcomes(rt: HostRuntime) -> Result<(), Fail> {
    assert!(rt; shared::<Frac>(rt.alloc())?);
    assert!(rt; shared::<Short>(rt.alloc())?);
    Ok(())
}

#[test]
fn the_first_wide_operation(rt: HostRuntime) -> Result<(), Fail> {
    let long: [Case; 2] = [
        (
            BEALE,
            Expected::Best(
                &[(1, 25), (0, 1), (1, 1), (0, 1)],
                (1, 20),
                &[(0, 1), (3, 2), (1, 20)],
            ),
        ),
        (
            STEEP,
            Expected::Best(&[(1, 200), (0, 1)], (1, 200), &[(1, 200), (0, 1)]),
        ),
    ];
    assert!(rt; follow::<Frac>(rt.alloc(), &long)?);
    let short: [Case; 2] = [
        (STEEP, Expected::Wide(1, Op::Add, (-200, 1), (1, 200))),
        (
            &[
                &[(1, 1), (1, 1)],
                &[(1, 1), (0, 1), (1, 1)],
                &[(0, 1), (30000, 1), (1, 2)],
            ],
            Expected::Wide(2, Op::Div, (1, 2), (30000, 1)),
        ),
    ];
    assert!(rt; follow::<Short>(rt.alloc(), &short)?);
    Ok(())
}
