ghost use Rattle.std.specs.Prelude.{◌≡◌, ◌↔◌, ◌<◌, ℕ, length, Contains, IsTrue};
ghost use Rattle.or_geom.specs.Gathering.{SomeHas};
ghost use Rattle.net_extractor.specs.Contacts.{AreInContact, ArePlacesBelow, IsInContactAt, IsInContactTo};
ghost use Rattle.net_extractor.specs.Sets.{IsFalling, JoinsSets};

use crate::run::{RunShape, shape_at};
use crate::sets::join;
use or_geom::{Rect, Shape, joined};
use shape_bins::overlap;

/// When the shape of a run is joined with another shape.
#[derive(Clone, Copy)]
pub enum Contact {
    /// Where the closed boxes meet in more than one point.
    Joined,
    /// Where they share area.
    Overlapping,
}

/// Whether the rectangles are in contact.
#[inline(always)]
fn are_in_contact(contact: Contact, a: Rect, b: Rect) -> bool
    ensures { IsTrue result ↔ AreInContact contact a b }
{
    match contact {
        Contact::Joined => joined(a, b),
        Contact::Overlapping => overlap(a, b),
    }
}

/// Joins the place with those of the run's shapes that are in contact with its rectangle.
#[inline(always)]
fn join_place(contact: Contact, run: &[RunShape], place: usize, rect: Rect, above: &mut [u32])
    requires place { place < length above.old }
    requires run { ArePlacesBelow (length above.old) run.now }
    requires falls { IsFalling above.old }
    ensures { JoinsSets (λ a b. SomeHas (λ own. IsInContactTo contact place rect own a b) run.now) above.old above.new }
{
    for own in run {
        if are_in_contact(contact, own.rect, rect) {
            join(above, own.place, place);
        }
    }
}

/// Joins each place with those of the run's shapes that are in contact with its shape.
pub fn join_places(
    contact: Contact,
    shapes: &[Shape],
    run: &[RunShape],
    places: &[usize],
    above: &mut [u32],
)
    requires sized { length above.old ≡ length shapes.now }
    requires places { (place : ℕ) → Contains places.now place → place < length shapes.now }
    requires run { ArePlacesBelow (length above.old) run.now }
    requires falls { IsFalling above.old }
    ensures { JoinsSets (λ a b. SomeHas (λ place. IsInContactAt contact shapes.now run.now place a b) places.now)
        above.old above.new }
{
    for place in places {
        let shape = shape_at(shapes, *place);
        join_place(contact, run, *place, shape.rect, above);
    }
}
