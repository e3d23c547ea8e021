ghost use Rattle.std.specs.Prelude.{◌≡◌, ◌<◌, ◌^◌, pos, [], ◌∷◌, IfOk, IsTrue, length, nat_abs};
ghost use Rattle.std.specs.List.{list_all};
ghost use Rattle.lang_tree.specs.Numbers.{is_number};
ghost use Rattle.flow_edges.specs.declared.edge.Action.TheVariants.{Assign as Sets};
ghost use Rattle.flow_templates.specs.Domains.{intervals_of};
ghost use Rattle.cert_checker.specs.Items.{is_short};

use base_fractions::{Ext, Frac, OrderedField};
use cert_checker::{CheckFault, Scratch, check};
use cert_types::{Cert, Item, Items, Rows, Step, Steps, Upper, Uppers};
use flow_edges::{Action, Actions, Edge, Edges, Flow, Place, Point, Points};
use flow_systems::{Bounds, Fracs, System, Trace};
use flow_templates::intervals;
use lang_tree::{Coeffs, Form, Name, Names};
use solve_composition::compose_all;
use std::alloc::{AllocError, Global};
use std::test::Fail;

/// The name x.
pub(crate) fn names(alloc: Global) -> Result<Names, Fail>
    ensures { IfOk result (λ names. length names ≡ 1) }
{
    let mut names = Vec::new(alloc);
    names.push(Name::new(b"x").ok_or("a word")?)?;
    Ok(Names::new(names))
}

// The entry and the exit.
fn points(alloc: Global) -> Result<Points, AllocError>
    ensures { IfOk result (λ points. points ≡ record { place = Place.Entry; line = 0 } ∷ record { place = Place.Exit; line = 0 } ∷ []) }
{
    let mut points = Vec::new(alloc);
    points.push(Point {
        place: Place::Entry,
        line: 0,
    })?;
    points.push(Point {
        place: Place::Exit,
        line: 0,
    })?;
    Ok(Points::new(points))
}

// An edge from the one to the other with x = 1.
fn edges(alloc: Global) -> Result<Edges, AllocError>
    ensures { IfOk result (λ edges. edges ≡ record {
      from = 0;
      to = 1;
      actions =
          Sets 0 (record { coeffs = pos 0 ∷ []; constant = pos 1 }) ∷ [];
    } ∷ []) }
{
    let form = Form {
        coeffs: Coeffs::new(vec![in alloc; 0]?),
        constant: 1,
    };
    let mut actions = Vec::new(alloc);
    actions.push(Action::Assign { var: 0, form })?;
    let mut edges = Vec::new(alloc);
    edges.push(Edge {
        from: 0,
        to: 1,
        actions: Actions::new(actions),
    })?;
    Ok(Edges::new(edges))
}

// The system of int main() { int x = 1; } over x and -x.
fn system(alloc: Global) -> Result<System, Fail>
    ensures { IfOk result (λ s. s.template ≡ intervals_of 1) }
{
    let names = names(alloc)?;
    let points = points(alloc)?;
    let edges = edges(alloc)?;
    let template = intervals(alloc, 1)?;
    let flow = Flow {
        names,
        points,
        edges,
    };
    Ok(System { flow, template })
}

/// The rows x and -x.
pub(crate) fn rows(alloc: Global) -> Result<Rows, AllocError>
    ensures { IfOk result (λ rows. rows ≡ intervals_of 1) }
{
    let mut rows = Vec::new(alloc);
    rows.push(Coeffs::new(vec![in alloc; 1]?))?;
    rows.push(Coeffs::new(vec![in alloc; -1]?))?;
    Ok(Rows::new(rows))
}

// A bound of a row at the exit that is shown along the edge from the state 0.
fn item(alloc: Global, unknown: u32, to: Frac) -> Result<Item, AllocError> {
    Ok(Item {
        unknown,
        edge: 0,
        low: Trace {
            start: Fracs::new(vec![in alloc; Frac::zero()]?),
            free: Fracs::new(Vec::new(alloc)),
        },
        to,
    })
}

// A step that gives x at the exit this bound, and -x the bound -1.
fn steps(alloc: Global, to: Frac) -> Result<Steps, AllocError>
    ensures few { IfOk result (λ steps. length steps < 2 ^ 32) }
    ensures short { IfOk result (λ steps. IsTrue (list_all is_short steps)) }
{
    let mut items = Vec::new(alloc);
    items.push(item(alloc, 2, to)?)?;
    items.push(item(alloc, 3, Frac::one().negate())?)?;
    let mut steps = Vec::new(alloc);
    steps.push(Step::Plain(Items::new(items)))?;
    Ok(Steps::new(steps))
}

// So many pieces of evidence that take neither a row nor a guard.
fn uppers(alloc: Global, pieces: u32) -> Result<Uppers, AllocError> {
    let mut uppers = Vec::new(alloc);
    for _ in 0..pieces {
        uppers.push(Upper::Bound {
            rows: Fracs::new(vec![in alloc; Frac::zero(); 2]?),
            guards: Fracs::new(Vec::new(alloc)),
        })?;
    }
    Ok(Uppers::new(uppers))
}

// A certificate with this new bound of x at the exit in its step, this one in its bounds, and so many pieces of evidence.
fn certificate(alloc: Global, to: Frac, bound: Frac, pieces: u32) -> Result<Cert, AllocError>
    ensures rows { IfOk result (λ cert. cert.rows ≡ intervals_of 1) }
    ensures few { IfOk result (λ cert. length cert.steps < 2 ^ 32) }
    ensures short { IfOk result (λ cert. IsTrue (list_all is_short cert.steps)) }
{
    let mut bounds = vec![in alloc; Ext::PosInf; 2]?;
    bounds.push(Ext::Fin(bound))?;
    bounds.push(Ext::Fin(Frac::one().negate()))?;
    Ok(Cert {
        rows: rows(alloc)?,
        bounds: Bounds::new(bounds),
        steps: steps(alloc, to)?,
        uppers: uppers(alloc, pieces)?,
    })
}

// What a check leaves in its room doesn't change the next one.
#[test]
fn one_room_serves_every_check(rt: HostRuntime) -> Result<(), Fail> {
    let alloc = rt.alloc();
    let one = Frac::one();
    let two = Frac::make(2, 1).ok_or("2")?;
    let system = system(alloc)?;
    let paths = compose_all(alloc, &system).ok().ok_or("small numbers")?;
    let mut scratch = Scratch::new(alloc, &system)?;
    for (to, bound, pieces, want) in [
        (one, one, 2, Ok(())),
        (two, one, 2, Err(CheckFault::Low { step: 0, item: 0 })),
        (one, two, 2, Err(CheckFault::Final { unknown: 2 })),
        (
            one,
            one,
            1,
            Err(CheckFault::Upper {
                unknown: 3,
                edge: 0,
            }),
        ),
        (one, one, 3, Err(CheckFault::Size)),
        (one, one, 2, Ok(())),
    ] {
        let cert = certificate(alloc, to, bound, pieces)?;
        let answer = check(&system, &paths, &cert, &mut scratch);
        assert_eq!(rt; answer, want, "for {pieces} pieces");
    }
    Ok(())
}
