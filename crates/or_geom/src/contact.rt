ghost use Rattle.std.specs.Prelude.{◌≡◌, ◌↔◌, IsTrue};
ghost use Rattle.or_geom.specs.Contact.{IsContact, is_joint_of};
ghost use Rattle.or_geom.specs.Joined.{AreJoined};

use crate::shape::Rect;
use crate::span::Span;

/// How two spans of one axis lie to each other.
#[derive(Clone, Copy)]
enum Contact {
    Apart,
    Touching,
    Overlapping,
}

fn contact_of(a: Span, b: Span) -> Contact
    ensures { IsContact result a b }
{
    if a.high < b.low {
        return Contact::Apart;
    }
    if b.high < a.low {
        return Contact::Apart;
    }
    if a.high == b.low {
        return Contact::Touching;
    }
    if b.high == a.low {
        return Contact::Touching;
    }
    Contact::Overlapping
}

/// Whether rectangles that lie so on the two axes are joined.
fn is_joint(across: Contact, upward: Contact) -> bool
    ensures { result ≡ is_joint_of across upward }
{
    match (across, upward) {
        (Contact::Apart, _) | (_, Contact::Apart) => false,
        (Contact::Touching, Contact::Touching) => false,
        _ => true,
    }
}

/// Whether two rectangles are joined: whether their closed areas meet in more than one point. Rectangles that share an
/// edge or a part of one are joined, and those that touch at a corner alone aren't.
pub fn joined(a: Rect, b: Rect) -> bool
    ensures { IsTrue result ↔ AreJoined a b }
{
    is_joint(
        contact_of(Span::across(a), Span::across(b)),
        contact_of(Span::upward(a), Span::upward(b)),
    )
}
