//! Edges walked along deeds.

ghost use Rattle.std.specs.Prelude.{◌≡◌, ◌++◌, [], ◌∷◌, IfOk, OnOk, IsTrue, flat_map};
ghost use Rattle.lang_tree.specs.View.{deed_of, deeds_of};
ghost use Rattle.flow_edges.specs.Constants.{deed_room, deeds_room};
ghost use Rattle.flow_edges.specs.Edges.{arrived, deeds_ways};
ghost use Rattle.flow_edges.specs.Trails.{begun_along, begun_at, begun_by, by_cases, followed, reached};

use crate::case::Cases;
use crate::edge::{Action, Edges};
use crate::listing::list_cases;
use crate::onward::{arrival, go_on};
use crate::trail::Trail;
use lang_tree::Deed;
use std::alloc::{AllocError, Global};

/// The edges as far as they are walked from the point along the deeds, one for each way of choosing.
pub(crate) fn begun_along(
    alloc: Global,
    point: u32,
    deeds: &[Deed],
) -> Result<Vec<Trail>, AllocError>
    requires { IsTrue (deeds_room (deeds_of deeds.now)) }
    ensures { IfOk result (λ trails. trails.items ≡ begun_along (deeds_of deeds.now) (begun_at point ∷ [])) }
{
    let mut trails = Vec::new(alloc);
    trails.push(Trail::new(alloc, point))?;
    along_deeds(alloc, trails, deeds)
}

/// Those that go on from each of these along the deeds.
fn along_deeds(alloc: Global, trails: Vec<Trail>, deeds: &[Deed]) -> Result<Vec<Trail>, AllocError>
    requires { IsTrue (deeds_room (deeds_of deeds.now)) }
    ensures { IfOk result (λ list. list.items ≡ begun_along (deeds_of deeds.now) trails.items) }
{
    let Some((deed, rest)) = deeds.split_first() else {
        return Ok(trails);
    };
    let longer = after_deed(alloc, trails.as_slice(), deed)?;
    along_deeds(alloc, longer, rest)
}

/// Those that go on from each of these by the deed.
fn after_deed(alloc: Global, trails: &[Trail], deed: &Deed) -> Result<Vec<Trail>, AllocError>
    requires { IsTrue (deed_room (deed_of deed.now)) }
    ensures { IfOk result (λ list. list.items ≡ flat_map (begun_by (deed_of deed.now)) trails.now) }
{
    let mut list = Vec::new(alloc);
    for trail in trails {
        add_by(alloc, &mut list, trail, deed)?;
    }
    Ok(list)
}

/// Adds those that go on by the deed.
fn add_by(
    alloc: Global,
    list: &mut Vec<Trail>,
    trail: &Trail,
    deed: &Deed,
) -> Result<(), AllocError>
    requires { IsTrue (deed_room (deed_of deed.now)) }
    ensures { OnOk result (list.new.items ≡ list.old.items ++ begun_by (deed_of deed.now) trail.now) }
{
    match deed {
        Deed::Set { var, form, .. } => {
            let form = form.again()?;
            add_after(alloc, list, trail, Action::Assign { var: *var, form })
        }
        Deed::Havoc { var, .. } => add_after(alloc, list, trail, Action::Havoc { var: *var }),
        Deed::Where { cond, .. } => {
            let cases = list_cases(alloc, cond, true)?;
            add_cases(alloc, list, trail, &cases)
        }
        Deed::Check { check, .. } => add_after(alloc, list, trail, Action::Check(*check)),
    }
}

/// Adds the edge that goes on by the action.
fn add_after(
    alloc: Global,
    list: &mut Vec<Trail>,
    trail: &Trail,
    action: Action,
) -> Result<(), AllocError>
    ensures { OnOk result (list.new.items ≡ list.old.items ++ followed trail.now (action ∷ []) ∷ []) }
{
    let mut longer = trail.again(alloc)?;
    longer.add(action)?;
    list.push(longer)?;
    Ok(())
}

/// Adds those that go on by each of the cases.
fn add_cases(
    alloc: Global,
    list: &mut Vec<Trail>,
    trail: &Trail,
    cases: &Cases,
) -> Result<(), AllocError>
    ensures { OnOk result (list.new.items ≡ list.old.items ++ by_cases cases.now trail.now) }
{
    for case in cases.as_slice() {
        list.push(trail.after(alloc, case)?)?;
    }
    Ok(())
}

/// The edges walked from the end of the body of a `for` whose head is this point.
pub(crate) fn changed(alloc: Global, change: &[Deed], head: u32) -> Result<Edges, AllocError>
    requires { IsTrue (deeds_room (deeds_of change.now)) }
    ensures { IfOk result (λ edges. edges ≡ reached (begun_at head) (deeds_ways (deeds_of change.now) (arrived head))) }
{
    let mut edges = Vec::new(alloc);
    let again = arrival(alloc, head)?;
    let trails = begun_along(alloc, head, change)?;
    for trail in trails.as_slice() {
        go_on(alloc, &mut edges, trail, again.as_slice())?;
    }
    Ok(Edges::new(edges))
}
