//! Points once more.

ghost use Rattle.std.specs.Prelude.{◌≡◌, IfOk};

use flow_edges::{Place, Point, Points};
use std::alloc::{AllocError, Global};

/// The same points once more.
pub(crate) fn points_again(alloc: Global, points: &Points) -> Result<Points, AllocError>
    ensures { IfOk result (λ copy. copy ≡ points.now) }
{
    let mut list = Vec::new(alloc);
    for point in points.as_slice() {
        list.push(Point {
            place: place_again(&point.place),
            line: point.line,
        })?;
    }
    Ok(Points::new(list))
}

/// The same place once more.
fn place_again(place: &Place) -> Place
    ensures { result ≡ place.now }
{
    match place {
        Place::Entry => Place::Entry,
        Place::Loop => Place::Loop,
        Place::Label(name) => Place::Label(name.again()),
        Place::Join => Place::Join,
        Place::Assume => Place::Assume,
        Place::Exit => Place::Exit,
    }
}
