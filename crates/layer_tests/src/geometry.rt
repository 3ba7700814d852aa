ghost use Rattle.std.specs.Prelude.{◌≡◌, ◌<ℤ◌};
ghost use Rattle.or_geom.specs.Distance.{IsReachable};

use or_geom::{Items, Name, Orient, Place, Point, Rect, Shape, covered, dist2, gap_box, joined};
use std::process::Abort;
use std::test::Fail;
use tile_checker::{Violation, first_fault};

/// A rectangle from its lower left to its upper right corner.
fn rect(x1: i64, y1: i64, x2: i64, y2: i64) -> Rect
    requires wide { x1 <ℤ x2 }
    requires tall { y1 <ℤ y2 }
    ensures left { result.x1 ≡ x1 }
    ensures low { result.y1 ≡ y1 }
    ensures right { result.x2 ≡ x2 }
    ensures high { result.y2 ≡ y2 }
{
    Rect { x1, y1, x2, y2 }
}

/// How another rectangle lies to the square of side 4 at the origin.
fn compare(rt: &impl Abort, other: Rect, together: bool, distance: i128)
    requires { IsReachable other }
{
    let square = rect(0, 0, 4, 4);
    assert_eq!(rt; joined(square, other), together, "at {other}");
    assert_eq!(rt; dist2(square, other), distance, "at {other}");
}

/// By hand on squared paper.
#[test]
fn rectangles_beside_a_square(rt: HostRuntime) {
    compare(&rt, rect(9, 0, 13, 4), false, 25);
    compare(&rt, rect(4, 0, 8, 4), true, 0);
    compare(&rt, rect(4, 4, 8, 8), false, 0);
    compare(&rt, rect(7, 8, 11, 12), false, 25);
    compare(&rt, rect(7, 7, 11, 11), false, 18);
    compare(&rt, rect(-3, -3, 0, 1), true, 0);
}

#[test]
fn the_gap_between_squares(rt: HostRuntime) {
    let corner = gap_box(rect(0, 0, 4, 4), rect(4, 4, 8, 8));
    assert_eq!(rt; corner, rect(3, 3, 5, 5));
}

#[test]
fn an_area_with_a_hole_is_not_covered(rt: HostRuntime) {
    let ring = [
        rect(0, 0, 10, 4),
        rect(0, 3, 4, 10),
        rect(4, 6, 10, 11),
        rect(5, 4, 10, 6),
        rect(4, 4, 5, 6),
    ];
    assert!(rt; covered(rect(0, 0, 10, 10), &ring));
    assert!(rt; !covered(rect(0, 0, 10, 10), &ring[..4]));
}

/// A cell of 10 by 20 that is reflected about the x axis, turned by 270 degrees and moved to 100, 0; then a quarter
/// turn.
#[test]
fn a_reflected_and_turned_cell(rt: HostRuntime) {
    let inner = Place {
        orient: Orient::MX270,
        at: Point { x: 100, y: 0 },
    };
    assert_eq!(rt; inner.apply(rect(0, 0, 10, 20)), rect(80, -10, 100, 0));
    let outer = Place {
        orient: Orient::R90,
        at: Point { x: 0, y: 5 },
    };
    let both = Place {
        orient: Orient::MX,
        at: Point { x: 0, y: 105 },
    };
    assert_eq!(rt; outer.then(inner), both);
}

#[test]
fn names_and_items(rt: HostRuntime) -> Result<(), Fail> {
    let name = Name::from_bytes(rt.alloc(), b"inv")?;
    assert_eq!(rt; name.as_bytes(), b"inv".as_slice());
    assert!(rt; name.is(b"inv"));
    let mut items = Items::new(rt.alloc());
    items.push(3u8)?;
    assert_eq!(rt; items.as_slice(), [3u8].as_slice());
    assert_eq!(rt; Items::from_vec(items.into_vec()).as_slice().len(), 1);
    Ok(())
}

#[test]
fn the_first_violation_of_a_list(rt: HostRuntime) {
    let first = Shape {
        layer: 1,
        rect: rect(0, 0, 4, 4),
    };
    let narrow = Violation {
        rule: 2,
        first,
        second: None,
    };
    assert_eq!(rt; first_fault(&[narrow]), Some(narrow));
    assert_eq!(rt; first_fault(&[]), None);
}
