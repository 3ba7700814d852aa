ghost use Rattle.std.specs.Prelude.{◌≡◌, ◌≢◌, ◌≤◌, length, true, false, int_lt, IsTrue, ◌↔◌, OnOk};
ghost use Rattle.rectilinear.specs.Rows.{Rise, IsPlace, HasAt, IsToggled};

use or_geom::Memory;

/// Where the inside of a ring begins or ends in a row.
#[derive(Clone, Copy, Debug, PartialEq, Eq, PartialOrd, Ord)]
pub struct End {
    pub x: i64,
}

fn is_left(a: End, b: End) -> bool
    ensures { result ≡ int_lt a.x b.x }
{
    a.x < b.x
}

fn is_at(a: End, b: End) -> bool
    ensures at { result ≡ true → a.x ≡ b.x }
    ensures other { result ≡ false → a.x ≢ b.x }
{
    a == b
}

/// Whether the end is the one at this place.
fn has_at(ends: &[End], place: usize, end: End) -> bool
    ensures { IsTrue result ↔ HasAt ends.now place end }
{
    if place >= ends.len() {
        return false;
    }
    is_at(ends[place], end)
}

/// Where the end belongs among rising ones.
fn place_of(ends: &[End], end: End) -> usize
    requires { Rise ends.now }
    ensures place { IsPlace ends.now end result }
    ensures within { result ≤ length ends.now }
{
    ends.partition_point(
        |other: &End| -> bool
            ensures { result ≡ int_lt other.now.x end.x }
        { is_left(*other, end) },
    )
}

/// Adds an end to rising ones, or takes it away where it is among them.
pub fn toggle(ends: &mut Vec<End>, end: End) -> Result<(), Memory>
    requires { Rise ends.old.items }
    ensures { OnOk result (IsToggled ends.old.items end ends.new.items) }
{
    let place = place_of(ends, end);
    if has_at(ends, place, end) {
        ends.remove(place);
        return Ok(());
    }
    ends.insert(place, end)?;
    Ok(())
}
