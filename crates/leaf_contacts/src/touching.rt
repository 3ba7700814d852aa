ghost use Rattle.std.specs.Prelude.{◌≡◌, ◌↔◌, ◌⊎◌, IsTrue};
ghost use Rattle.tech_rules.specs.Touch.{IsCutTo, Joins, ShareArea, Touch, TouchByCut, TouchOnLayer};

use net_extractor::{connects, is_conductor};
use or_geom::{Rect, Shape, joined};
use shape_bins::overlap;
use tech_rules::Connect;

/// Whether the connection is of this cut layer and connects the other.
fn joins(connect: &Connect, cut: u16, other: u16) -> bool
    ensures { IsTrue result ↔ Joins cut other connect.now }
{
    connect.cut == cut && connects(connect, other)
}

/// Whether one of the connections is of this cut layer and connects the other.
fn is_cut_to(connections: &[Connect], cut: u16, other: u16) -> bool
    ensures { IsTrue result ↔ IsCutTo connections.now cut other }
{
    for connect in connections {
        if joins(connect, cut, other) {
            return true;
        }
    }
    false
}

/// Whether a unit cell lies in both rectangles.
fn share_area(a: Rect, b: Rect) -> bool
    ensures { IsTrue result ↔ ShareArea a b }
{
    overlap(a, b)
}

/// Whether the shapes are joined on one conductor layer.
fn touch_on_layer(connections: &[Connect], a: Shape, b: Shape) -> bool
    ensures { IsTrue result ↔ TouchOnLayer connections.now a b }
{
    if a.layer != b.layer {
        return false;
    }
    joined(a.rect, b.rect) && is_conductor(connections, a.layer)
}

/// Whether the shapes share area, and the first is on a cut layer that connects the layer of the other.
fn touch_by_cut(connections: &[Connect], cut: Shape, other: Shape) -> bool
    ensures { IsTrue result ↔ TouchByCut connections.now cut other }
{
    share_area(cut.rect, other.rect) && is_cut_to(connections, cut.layer, other.layer)
}

/// Whether the shapes touch.
fn touch(connections: &[Connect], a: Shape, b: Shape) -> bool
    ensures { IsTrue result ↔ Touch connections.now a b }
{
    if touch_on_layer(connections, a, b) {
        return true;
    }
    touch_by_cut(connections, a, b) || touch_by_cut(connections, b, a)
}

/// Whether the shapes are one.
pub fn is_same(a: Shape, b: Shape) -> bool
    ensures { IsTrue result ↔ (a ≡ b) }
{
    a == b
}

/// Whether the shapes touch, or are one.
pub fn touch_or_same(connections: &[Connect], a: Shape, b: Shape) -> bool
    ensures { IsTrue result ↔ (Touch connections.now a b ⊎ (a ≡ b)) }
{
    is_same(a, b) || touch(connections, a, b)
}
