use cell_hierarchy::Label;
use or_geom::{Point, Shape};

/// How wide and tall something is, in nanometres.
#[derive(Clone, Copy)]
pub struct Extent {
    pub width: u64,
    pub height: u64,
}

/// What has a place in the plane.
pub trait Placed {
    /// Twice its middle, in nanometres, so that no half is lost.
    fn twice_middle(&self) -> Point;

    /// How wide and tall it is.
    fn extent(&self) -> Extent;
}

/// Twice the middle of an interval. Flat coordinates have 32 bits, so nothing wraps.
fn twice_middle_of(low: i64, high: i64) -> i64 {
    low.wrapping_add(high)
}

impl Placed for Shape {
    fn twice_middle(&self) -> Point {
        Point {
            x: twice_middle_of(self.rect.x1, self.rect.x2),
            y: twice_middle_of(self.rect.y1, self.rect.y2),
        }
    }

    fn extent(&self) -> Extent {
        Extent {
            width: self.rect.x2.abs_diff(self.rect.x1),
            height: self.rect.y2.abs_diff(self.rect.y1),
        }
    }
}

impl Placed for Label<'_> {
    fn twice_middle(&self) -> Point {
        Point {
            x: twice_middle_of(self.at.x, self.at.x),
            y: twice_middle_of(self.at.y, self.at.y),
        }
    }

    fn extent(&self) -> Extent {
        Extent {
            width: 0,
            height: 0,
        }
    }
}
