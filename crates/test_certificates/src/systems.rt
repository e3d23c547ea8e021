//! Systems, and the bounds from which they start.

use base_fractions::{Ext, Frac};
use flow_edges::{Action, Actions, Edge, Edges, Flow, Place, Point, Points};
use flow_systems::{Bounds, Pick, System};
use flow_templates::Template;
use lang_tree::{Coeffs, Form, Name, Names};
use std::test::Fail;

// int x; x = 2 * x + 1; assume(x <= 5); x = nondet(); over x and -x.
#[test]
fn a_system_of_one_edge(rt: HostRuntime) -> Result<(), Fail> {
    let alloc = rt.alloc();
    let mut names = Vec::new(alloc);
    names.push(Name::new(b"x").ok_or("a word")?)?;
    let mut points = Vec::new(alloc);
    points.push(Point {
        place: Place::Entry,
        line: 0,
    })?;
    points.push(Point {
        place: Place::Exit,
        line: 0,
    })?;
    let mut actions = Vec::new(alloc);
    actions.push(Action::Assign {
        var: 0,
        form: Form {
            coeffs: Coeffs::new(vec![in alloc; 2]?),
            constant: 1,
        },
    })?;
    actions.push(Action::Guard(Form {
        coeffs: Coeffs::new(vec![in alloc; 1]?),
        constant: -5,
    }))?;
    actions.push(Action::Havoc { var: 0 })?;
    let mut edges = Vec::new(alloc);
    edges.push(Edge {
        from: 0,
        to: 1,
        actions: Actions::new(actions),
    })?;
    let flow = Flow {
        names: Names::new(names),
        points: Points::new(points),
        edges: Edges::new(edges),
    };
    let mut rows = Vec::new(alloc);
    rows.push(Coeffs::new(vec![in alloc; 1]?))?;
    rows.push(Coeffs::new(vec![in alloc; -1]?))?;
    let system = match System::new(flow, Template::new(rows)) {
        Ok(system) => system,
        Err(_) => return Err("four unknowns".into()),
    };
    // Two unknowns: two source rows of 4 entries, a guard and the own row of 5, and 2 of the rise.
    assert_eq!(rt; system.block_cells(1, 1), 20);
    assert_eq!(rt; system.cells(), 40);
    let bounds = Bounds::start(alloc, &system)?;
    assert!(rt;
        bounds.as_slice() == [Ext::PosInf, Ext::PosInf, Ext::NegInf, Ext::NegInf].as_slice()
    );
    let pick = Pick::none(alloc, &system)?;
    assert!(rt; pick.at(3).is_none());
    Ok(())
}
