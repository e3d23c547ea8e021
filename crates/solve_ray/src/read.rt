//! What a ray says of the unknowns.

ghost use Rattle.std.specs.Prelude.{◌≡◌, ◌+◌, ◌<◌, ◌++◌, ◌∷◌, [], None, MatchResult, length};
ghost use Rattle.base_fractions.specs.Fits.{long_limit};
ghost use Rattle.base_fractions.specs.Operation.{first_wide};
ghost use Rattle.flow_systems.specs.declared.spot.PartFault.TheVariants.{NoMemory};
ghost use Rattle.solve_ray.specs.Ranges.{AllSplit, IsWithin, AreWithin};
ghost use Rattle.solve_ray.specs.Reading.{difference, differences, subtraction, subtractions, named_rates, named_operations};
ghost use Rattle.solve_ray.specs.Answers.{IsReadingFault, PartAnswers};

use crate::layout::{Layout, Rise};
use crate::rate::{RateList, RateOf, Rates};
use base_fractions::{Frac, OrderedField};
use flow_systems::{Fracs, Part, PartFault, Trace};
use std::alloc::Global;

// Puts a value behind the others.
fn append<T: Drop>(list: &mut Vec<T>, value: T) -> Result<(), PartFault>
    ensures { MatchResult result (λ u. list.new.items ≡ list.old.items ++ value ∷ []) (λ f. f ≡ NoMemory) }
{
    match list.push(value) {
        Ok(()) => Ok(()),
        Err(_) => Err(PartFault::NoMemory),
    }
}

// The entry of a split column: the positive part minus the negative part in the next column.
fn entry(ray: &[Frac], col: u32) -> Result<Frac, PartFault>
    requires { col + 1 < length ray.now }
    ensures { PartAnswers (difference ray.now col) (subtraction ray.now col ∷ []) result }
{
    let positive = ray[col as usize];
    let negative = ray[col as usize + 1];
    match positive.minus(negative) {
        Ok(value) => Ok(value),
        Err(wide) => Err(PartFault::Wide {
            part: Part::Reading,
            wide,
        }),
    }
}

/// The values of split columns, in order: each is the entry at the positive column minus that at the negative one, which is the
/// next. Columns are counted from 0.
///
/// # Errors
///
/// `Wide` in the part `Reading` with the first such difference that has a part above the limit, exactly where there is one.
/// `NoMemory`.
pub fn entries(alloc: Global, ray: &[Frac], cols: &[u32]) -> Result<Fracs, PartFault>
    requires { AllSplit (length ray.now) cols.now }
    ensures { PartAnswers (differences ray.now cols.now) (subtractions ray.now cols.now) result }
{
    let mut list = Vec::new(alloc);
    for col in cols {
        let value = entry(ray, *col)?;
        append(&mut list, value)?;
    }
    Ok(Fracs::new(list))
}

// Puts the unknown's rate and direction behind the others, if its rate is above 0.
fn add_rate(
    alloc: Global,
    list: &mut Vec<RateOf>,
    rise: &Rise,
    ray: &[Frac],
) -> Result<(), PartFault>
    requires { IsWithin (length ray.now) rise.now }
    ensures { let operations = named_operations ray.now (rise.now ∷ []) in MatchResult result
        (λ u. (list.new.items ≡ list.old.items ++ named_rates ray.now (rise.now ∷ [])) × (first_wide long_limit operations ≡ None))
        (λ f. IsReadingFault operations f) }
{
    let rate = ray[rise.col as usize];
    if rate <= Frac::zero() {
        return Ok(());
    }
    let start = entries(alloc, ray, rise.starts.as_slice())?;
    let free = entries(alloc, ray, rise.frees.as_slice())?;
    let direction = Trace { start, free };
    append(
        list,
        RateOf {
            unknown: rise.unknown,
            rate,
            direction,
        },
    )
}

/// The unknowns of the layout that grow along the ray: those whose rate, the ray's entry at the column of their rise, is above
/// 0, in order. Each has its rate and its direction, whose entries are each the positive column minus the negative one.
/// Unknowns with rate 0 are left out. `docs/METHOD.md` says where such a ray comes from.
///
/// # Errors
///
/// `Wide` in the part `Reading` exactly where such a difference of an unknown with a rate above 0 has a part above the limit,
/// with the first of them: unknowns in order, and of each the start values before the free values. `NoMemory`.
pub fn rates(alloc: Global, layout: &Layout, ray: &[Frac]) -> Result<Rates, PartFault>
    requires { AreWithin (length ray.now) layout.now.rises }
    ensures { PartAnswers (record { list = named_rates ray.now layout.now.rises }) (named_operations ray.now layout.now.rises) result }
{
    let mut list = Vec::new(alloc);
    for rise in layout.rises.as_slice() {
        add_rate(alloc, &mut list, rise, ray)?;
    }
    Ok(Rates {
        list: RateList::new(list),
    })
}
