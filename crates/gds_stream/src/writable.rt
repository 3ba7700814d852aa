ghost use Rattle.std.specs.Prelude.{◌≢◌, ◌↔◌, ◌+ℤ◌, ◌*ℤ◌, IsTrue, FitsSigned};
ghost use Rattle.std.specs.Int.{w32};
ghost use Rattle.std.specs.List.{AllByRecursion, AllPairs};
ghost use Rattle.gds_library.specs.declared.library.Structure.{Structure};
ghost use Rattle.gds_records.specs.Values.{IsShort};
ghost use Rattle.gds_library.specs.Values.{displaced};
ghost use Rattle.gds_stream.specs.NewName.{IsNewName};
ghost use Rattle.gds_library.specs.Writable.{IsText, IsPrintable, IsWritableProp, IsWritableRing, IsWritableTrack};
ghost use Rattle.gds_library.specs.Writable.{IsWritableArray, IsWritableBody, IsWritableElement, IsWritableCell};
ghost use Rattle.gds_library.specs.Writable.{IsWritable};

use crate::simple_ring::{are_straight, is_simple_ring};
use crate::write::properties_of;
use gds_library::{Element, Library, Prop, Structure};
use gds_records::limits::{GREATEST_CHARACTER, LEAST_CHARACTER, MOST_CHARACTERS, MOST_POINTS};
use or_geom::{Name, Place, Point};

fn are_printable(bytes: &[u8]) -> bool
    ensures { IsTrue result ↔ AllByRecursion IsPrintable bytes.now }
{
    let mut rest = bytes;
    while let Some((byte, others)) = rest.split_first() {
        if *byte < LEAST_CHARACTER || GREATEST_CHARACTER < *byte {
            return false;
        }
        rest = others;
    }
    true
}

fn is_text(text: &Name) -> bool
    ensures { IsTrue result ↔ IsText text.now }
{
    let bytes = text.as_bytes();
    if bytes.is_empty() {
        return false;
    }
    if MOST_CHARACTERS < bytes.len() {
        return false;
    }
    are_printable(bytes)
}

fn fits(number: i64) -> bool
    ensures { IsTrue result ↔ FitsSigned w32 number }
{
    if number < -2_147_483_648 {
        return false;
    }
    number <= 2_147_483_647
}

fn is_short(p: Point) -> bool
    ensures { IsTrue result ↔ IsShort p }
{
    if !fits(p.x) {
        return false;
    }
    fits(p.y)
}

fn are_short(points: &[Point]) -> bool
    ensures { IsTrue result ↔ AllByRecursion IsShort points.now }
{
    let mut rest = points;
    while let Some((point, others)) = rest.split_first() {
        if !is_short(*point) {
            return false;
        }
        rest = others;
    }
    true
}

fn is_ring(corners: &[Point]) -> bool
    ensures { IsTrue result ↔ IsWritableRing corners.now }
{
    if MOST_POINTS <= corners.len() {
        return false;
    }
    if !are_short(corners) {
        return false;
    }
    is_simple_ring(corners)
}

fn is_track(kind: i16, width: i32, points: &[Point]) -> bool
    ensures { IsTrue result ↔ IsWritableTrack kind width points.now }
{
    if kind != 0 && kind != 2 {
        return false;
    }
    if width < 1 || width % 2 != 0 {
        return false;
    }
    if points.len() < 2 || MOST_POINTS < points.len() {
        return false;
    }
    if !are_short(points) {
        return false;
    }
    are_straight(points)
}

/// Whether so many pitches from a number lead to one of 32 bits.
fn leads_within(from: i64, count: i16, pitch: i64) -> bool
    requires { FitsSigned w32 from }
    ensures { IsTrue result ↔ FitsSigned w32 (from +ℤ count *ℤ pitch) }
{
    let Some(by) = i64::from(count).checked_mul(pitch) else {
        return false;
    };
    let Some(to) = from.checked_add(by) else {
        return false;
    };
    fits(to)
}

fn is_displaced_short(at: Point, count: i16, pitch: Point) -> bool
    requires { IsShort at }
    ensures { IsTrue result ↔ IsShort (displaced at count pitch) }
{
    if !leads_within(at.x, count, pitch.x) {
        return false;
    }
    leads_within(at.y, count, pitch.y)
}

fn is_array(place: Place, columns: i16, rows: i16, across: Point, down: Point) -> bool
    ensures { IsTrue result ↔ IsWritableArray place columns rows across down }
{
    if columns < 1 {
        return false;
    }
    if rows < 1 {
        return false;
    }
    if !is_short(place.at) {
        return false;
    }
    if !is_displaced_short(place.at, columns, across) {
        return false;
    }
    is_displaced_short(place.at, rows, down)
}

fn is_text_at(text: &Name, at: Point) -> bool
    ensures { IsTrue result ↔ (IsText text.now × IsShort at) }
{
    if !is_text(text) {
        return false;
    }
    is_short(at)
}

/// What an element is besides its properties.
fn is_body(element: &Element) -> bool
    ensures { IsTrue result ↔ IsWritableBody element.now }
{
    match element {
        Element::Boundary { points, .. } => is_ring(points.as_slice()),
        Element::Path {
            kind,
            width,
            points,
            ..
        } => is_track(*kind, *width, points.as_slice()),
        Element::Sref { name, place, .. } => is_text_at(name, place.at),
        Element::Aref {
            name,
            place,
            columns,
            rows,
            across,
            down,
            ..
        } => {
            if !is_text(name) {
                return false;
            }
            is_array(*place, *columns, *rows, *across, *down)
        }
        Element::Text { at, string, .. } => is_text_at(string, *at),
    }
}

fn are_properties(props: &[Prop]) -> bool
    ensures { IsTrue result ↔ AllByRecursion IsWritableProp props.now }
{
    let mut rest = props;
    while let Some((prop, others)) = rest.split_first() {
        if !is_text(&prop.value) {
            return false;
        }
        rest = others;
    }
    true
}

fn is_element(element: &Element) -> bool
    ensures { IsTrue result ↔ IsWritableElement element.now }
{
    if !is_body(element) {
        return false;
    }
    are_properties(properties_of(element))
}

fn is_structure(structure: &Structure) -> bool
    ensures { IsTrue result ↔ IsWritableCell structure.now }
{
    if !is_text(&structure.name) {
        return false;
    }
    let mut rest = structure.elements.as_slice();
    while let Some((element, others)) = rest.split_first() {
        if !is_element(element) {
            return false;
        }
        rest = others;
    }
    true
}

fn are_structures(structs: &[Structure]) -> bool
    ensures { IsTrue result ↔ AllByRecursion IsWritableCell structs.now }
{
    let mut rest = structs;
    while let Some((structure, others)) = rest.split_first() {
        if !is_structure(structure) {
            return false;
        }
        rest = others;
    }
    true
}

/// Whether none of the structures has the name.
fn is_new(name: &Name, structs: &[Structure]) -> bool
    ensures { IsTrue result ↔ IsNewName name.now structs.now }
{
    let mut rest = structs;
    while let Some((structure, others)) = rest.split_first() {
        if name.is(structure.name.as_bytes()) {
            return false;
        }
        rest = others;
    }
    true
}

fn names_differ(structs: &[Structure]) -> bool
    ensures { IsTrue result ↔ AllPairs (λ (a b : Structure). a.name ≢ b.name) structs.now }
{
    let mut rest = structs;
    while let Some((structure, others)) = rest.split_first() {
        if !is_new(&structure.name, others) {
            return false;
        }
        rest = others;
    }
    true
}

/// Whether a library can be written: each value is one that `read_gds` can give. Its name, those of its structures, and
/// all other texts are 1 to 512 printable characters; no two structures have one name; coordinates, in database units,
/// fit 32 bits, those of the two displaced origins of an array too. A boundary has 4 to 8190 corners, from any of them
/// on and in either direction, its sides are parallel to the axes and meet only as neighbours, and no corner lies
/// inside a straight run. A path has flush ends (0) or ends longer by half the width (2), a positive even width, 2 to
/// 8191 points, and segments parallel to the axes. An array has one or more columns and rows.
///
/// It takes no memory. So names are compared two by two, in the square of the number of structures, most of them by
/// their lengths or first characters. The sides of a boundary are compared half by half, and halves whose boxes are
/// apart at once: in the square of its corners only where most of its sides lie side by side.
pub fn is_writable(lib: &Library) -> bool
    ensures { IsTrue result ↔ IsWritable lib.now }
{
    if !is_text(&lib.name) {
        return false;
    }
    if !are_structures(lib.structs.as_slice()) {
        return false;
    }
    names_differ(lib.structs.as_slice())
}
