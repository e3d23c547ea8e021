//! The texts of reports, of generated programs, and of their summaries.

ghost use Rattle.std.specs.Prelude.{◌≡◌, IfOk, length};

use base_fractions::Ext;
use flow_edges::{Edges, Flow, Place, Point, Points};
use flow_systems::{Bounds, Footer, System};
use flow_templates::{Template, intervals};
use lang_tree::{Coeffs, Name, Names};
use out_report::{point_text, report};
use out_workload::{generate, summary};
use std::alloc::Global;
use std::test::Fail;

const WHOLE: &[u8] = b"variables x yy
point 0: entry
  x <= +inf
  -2*x + yy <= +inf
point 1: loop at line 3
  x <= 13/3
  -2*x + yy <= -1
point 2: label mid at line 4
  unreachable
point 3: join at line 5
  x <= 0
  -2*x + yy <= +inf
point 4: assume at line 6
  unreachable
point 5: exit
  x <= 7
  -2*x + yy <= 8
improvements: 12
";

const EXIT: &[u8] = b"point 5: exit
  x <= 7
  -2*x + yy <= 8
";

// The draws from the seed 1 are 16838, 5758, 10113, 17515, 31051 and 5627.
const ONE_LOOP: &[u8] = b"int main() {
  int a = 0, b = 0, c = 0;
  c = 0;
  while (c < 59) {
    c += 7;
    a = c;
  }
  return 0;
}
";

const TWO_LOOPS: &[u8] = b"int main() {
  int a = 0, b = 0, c = 0;
  c = 0;
  while (c < 59) {
    c += 7;
    a = c;
  }
  b = 0;
  while (b < 52) {
    b += 3;
    c = b;
  }
  return 0;
}
";

const ONE_LOOP_SUMMARY: &[u8] = b"bench seed 1 loops 1
program 109 bytes
points 3
unknowns 18
improvements 3
point 2: exit
  a <= 65
  -a <= 0
  b <= 0
  -b <= 0
  c <= 65
  -c <= -59
";

// A point.
fn point(place: Place, line: u32) -> Point
    ensures place { result.place ≡ place }
    ensures line { result.line ≡ line }
{
    Point { place, line }
}

// So many bounds, written in a text with blanks between them.
fn bounds(alloc: Global, text: &str, count: usize) -> Result<Bounds, Fail>
    ensures { IfOk result (λ bounds. length bounds ≡ count) }
{
    let mut list = Vec::new(alloc);
    for word in text.split_whitespace() {
        list.push(Ext::read(word.as_bytes()).ok_or("a bound")?)?;
    }
    if list.len() != count {
        return Err(Fail::from("another count"));
    }
    Ok(Bounds::new(list))
}

// Two variables and two rows at six points, one of each kind.
fn six_points(alloc: Global) -> Result<System, Fail>
    ensures points { IfOk result (λ system. length system.flow.points ≡ 6) }
    ensures rows { IfOk result (λ system. length system.template ≡ 2) }
{
    let label = Name::new(b"mid").ok_or("a word")?;
    let mut points = Vec::new(alloc);
    points.push(point(Place::Entry, 0))?;
    points.push(point(Place::Loop, 3))?;
    points.push(point(Place::Label(label), 4))?;
    points.push(point(Place::Join, 5))?;
    points.push(point(Place::Assume, 6))?;
    points.push(point(Place::Exit, 0))?;
    let mut names = Vec::new(alloc);
    names.push(Name::new(b"x").ok_or("a word")?)?;
    names.push(Name::new(b"yy").ok_or("a word")?)?;
    let mut rows = Vec::new(alloc);
    rows.push(Coeffs::new(vec![in alloc; 1, 0]?))?;
    rows.push(Coeffs::new(vec![in alloc; -2, 1]?))?;
    Ok(System {
        flow: Flow {
            names: Names::new(names),
            points: Points::new(points),
            edges: Edges::new(Vec::new(alloc)),
        },
        template: Template::new(rows),
    })
}

#[test]
fn heads_rows_and_unreachable_points(rt: HostRuntime) -> Result<(), Fail> {
    let alloc = rt.alloc();
    let system = six_points(alloc)?;
    let text = "+inf +inf 13/3 -1 -inf -inf 0 +inf -inf -inf 7 8";
    let bounds = bounds(alloc, text, 12)?;
    let text = report(alloc, &system, &bounds, Footer::Improvements(12))?;
    assert_eq!(rt; text.as_slice(), WHOLE);
    let exit = point_text(alloc, &system, &bounds, 5)?;
    assert_eq!(rt; exit.as_slice(), EXIT);
    Ok(())
}

#[test]
fn texts_of_one_and_two_loops(rt: HostRuntime) -> Result<(), Fail> {
    let one = generate(rt.alloc(), 1, 1)?;
    assert_eq!(rt; one.as_slice(), ONE_LOOP);
    let two = generate(rt.alloc(), 1, 2)?;
    assert_eq!(rt; two.as_slice(), TWO_LOOPS);
    Ok(())
}

// The three points of a program with one loop, over intervals of its three variables.
fn three_points(alloc: Global) -> Result<System, Fail>
    ensures points { IfOk result (λ system. length system.flow.points ≡ 3) }
    ensures rows { IfOk result (λ system. length system.template ≡ 6) }
{
    let mut names = Vec::new(alloc);
    names.push(Name::new(b"a").ok_or("a word")?)?;
    names.push(Name::new(b"b").ok_or("a word")?)?;
    names.push(Name::new(b"c").ok_or("a word")?)?;
    let mut points = Vec::new(alloc);
    points.push(point(Place::Entry, 0))?;
    points.push(point(Place::Loop, 4))?;
    points.push(point(Place::Exit, 0))?;
    Ok(System {
        flow: Flow {
            names: Names::new(names),
            points: Points::new(points),
            edges: Edges::new(Vec::new(alloc)),
        },
        template: intervals(alloc, 3)?,
    })
}

#[test]
fn summary_of_one_loop(rt: HostRuntime) -> Result<(), Fail> {
    let alloc = rt.alloc();
    let system = three_points(alloc)?;
    let entry = "+inf +inf +inf +inf +inf +inf";
    let text = format!(in alloc; "{entry} {entry} 65 0 0 0 65 -59")?;
    let bounds = bounds(alloc, text.as_str(), 18)?;
    let text = summary(alloc, 1, 1, 109, &system, &bounds, 3)?;
    assert_eq!(rt; text.as_slice(), ONE_LOOP_SUMMARY);
    Ok(())
}
