//! The places of names among names.

ghost use Rattle.std.specs.Prelude.{◌≡◌, ◌<◌, IfSome, length};
ghost use Rattle.lang_meaning.specs.Names.{place_of};
ghost use Rattle.flow_transitions.specs.AutoReading.{names_of};

use crate::reading::point_name::PointName;
use lang_tree::Name;

/// The place of the first name that is this one.
pub(crate) fn place_of(name: &Name, names: &[Name]) -> Option<usize>
    ensures place { result ≡ place_of name.now names.now }
    ensures inside { IfSome result (λ place. place < length names.now) }
{
    let bytes = name.bytes();
    names.iter().position(|other| bytes == other.bytes())
}

/// The place of the first point whose name is this one.
pub(crate) fn point_place(name: &Name, points: &[PointName]) -> Option<usize>
    ensures place { result ≡ place_of name.now (names_of points.now) }
    ensures inside { IfSome result (λ place. place < length points.now) }
{
    let bytes = name.bytes();
    for (place, point) in points.iter().enumerate() {
        if bytes == point.name.bytes() {
            return Some(place);
        }
    }
    None
}
