ghost use Rattle.std.specs.Prelude.{◌≡◌, ◌++◌, ◌∷◌, [], ◌≤◌, ◌≤ℤ◌, pos, length, IfOk, OnOk};
ghost use Rattle.std.specs.List.{AllByRecursion};
ghost use Rattle.std.specs.Prelude.{FitsSigned};
ghost use Rattle.std.specs.Int.{w16};
ghost use Rattle.or_geom.specs.declared.shape.Point.{Point};
ghost use Rattle.gds_records.specs.Bytes.{record_bytes, records_bytes};
ghost use Rattle.gds_records.specs.Values.{IsShort};
ghost use Rattle.gds_records.specs.declared.limits.TheConstants.{MOST_POINTS};
ghost use Rattle.gds_records.specs.Writing.{int16_bytes, int32_bytes, points_bytes, text_bytes, record_with};
ghost use Rattle.gds_library.specs.Values.{displaced};
ghost use Rattle.gds_library.specs.Grammar.{Spells};
ghost use Rattle.gds_stream.specs.Turned.{turned_ring, turned_library};
ghost use Rattle.gds_stream.specs.Canonical.{property_records, end_records, orient_records, closed_ring};
ghost use Rattle.gds_stream.specs.Canonical.{element_records, structure_records, canonical};
ghost use Rattle.gds_library.specs.Writable.{IsText, IsWritableProp, IsWritableRing, IsWritableTrack, IsWritableArray};
ghost use Rattle.gds_library.specs.Writable.{IsWritableBody, IsWritableElement, IsWritableCell, IsWritable, props_of};
ghost use Rattle.gds_stream.specs.Written.{HasShortAttribute, HasShortLayers, HasShortNumbers, AreShortNumbers};
ghost use Rattle.gds_stream.specs.Written.{lattice_records, body_records, head_records};

use crate::limits::{HALF_TURN, NANOMETRES, NO_DATES, QUARTER_TURN, THREE_QUARTER_TURN, VERSION};
use crate::turning::{append_closed, goes_right, lowest_index};
use gds_library::{Element, Library, MIRRORED, Prop, Structure};
use gds_records::code::*;
use gds_records::{
    append_head, append_int16, append_int32, append_name, append_point, append_points,
    append_record,
};
use or_geom::{Memory, Name, Orient, Place, Point};
use std::alloc::Global;

/// PROPATTR PROPVALUE.
fn write_property(out: &mut Vec<u8>, prop: &Prop) -> Result<(), Memory>
    requires { IsWritableProp prop.now }
    ensures bytes { OnOk result (out.new.items ≡ out.old.items ++ records_bytes (property_records prop.now)) }
    ensures fits { OnOk result (HasShortAttribute prop.now) }
{
    append_int16(out, PROPATTR, prop.attr)?;
    append_name(out, PROPVALUE, &prop.value)?;
    Ok(())
}

/// The properties and ENDEL.
fn write_properties(out: &mut Vec<u8>, props: &[Prop]) -> Result<(), Memory>
    requires { AllByRecursion IsWritableProp props.now }
    ensures bytes { OnOk result (out.new.items ≡ out.old.items ++ records_bytes (end_records props.now)) }
    ensures fits { OnOk result (AllByRecursion HasShortAttribute props.now) }
{
    let mut rest = props;
    while let Some((prop, others)) = rest.split_first() {
        write_property(out, prop)?;
        rest = others;
    }
    append_record(out, ENDEL, &[])?;
    Ok(())
}

/// The record that begins an element, LAYER and another number.
fn write_layers(
    out: &mut Vec<u8>,
    code: u16,
    second: u16,
    layer: i16,
    kind: i16,
) -> Result<(), Memory>
    ensures bytes { OnOk result (out.new.items ≡ out.old.items ++ records_bytes
        (record_with code [] ∷ record_with LAYER (int16_bytes layer) ∷ record_with second (int16_bytes kind) ∷ [])) }
    ensures layer { FitsSigned w16 layer }
    ensures kind { FitsSigned w16 kind }
{
    append_record(out, code, &[])?;
    append_int16(out, LAYER, layer)?;
    append_int16(out, second, kind)?;
    Ok(())
}

/// STRANS and ANGLE of a turn, after a reflection or without one.
fn write_turn(out: &mut Vec<u8>, strans: [u8; 2], angle: [u8; 8]) -> Result<(), Memory>
    ensures { OnOk result (out.new.items
        ≡ out.old.items ++ records_bytes (record_with STRANS strans ∷ record_with ANGLE angle ∷ [])) }
{
    append_record(out, STRANS, &strans)?;
    append_record(out, ANGLE, &angle)?;
    Ok(())
}

/// STRANS and ANGLE, where a reference is turned.
fn write_orient(out: &mut Vec<u8>, orient: Orient) -> Result<(), Memory>
    ensures { OnOk result (out.new.items ≡ out.old.items ++ records_bytes (orient_records orient)) }
{
    match orient {
        Orient::R0 => Ok(()),
        Orient::R90 => write_turn(out, [0, 0], QUARTER_TURN),
        Orient::R180 => write_turn(out, [0, 0], HALF_TURN),
        Orient::R270 => write_turn(out, [0, 0], THREE_QUARTER_TURN),
        Orient::MX => append_record(out, STRANS, &[MIRRORED, 0]),
        Orient::MX90 => write_turn(out, [MIRRORED, 0], QUARTER_TURN),
        Orient::MX180 => write_turn(out, [MIRRORED, 0], HALF_TURN),
        Orient::MX270 => write_turn(out, [MIRRORED, 0], THREE_QUARTER_TURN),
    }
}

/// XY of points.
fn write_points(out: &mut Vec<u8>, points: &[Point]) -> Result<(), Memory>
    requires short { AllByRecursion IsShort points.now }
    requires few { length points.now ≤ MOST_POINTS }
    ensures { OnOk result (out.new.items ≡ out.old.items ++ record_bytes (record_with XY (points_bytes points.now))) }
{
    append_head(out, XY, 8 * points.len())?;
    append_points(out, points)?;
    Ok(())
}

/// XY of a boundary: counter-clockwise from its lowest corner, the leftmost of these, and that corner again.
fn write_ring(out: &mut Vec<u8>, corners: &[Point]) -> Result<(), Memory>
    requires { IsWritableRing corners.now }
    ensures { OnOk result (out.new.items
        ≡ out.old.items ++ record_bytes (record_with XY (points_bytes (closed_ring (turned_ring corners.now))))) }
{
    let (before, from) = corners.split_at(lowest_index(corners));
    let Some((first, others)) = from.split_first() else {
        return Ok(());
    };
    append_head(out, XY, 8 * corners.len() + 8)?;
    append_closed(out, goes_right(from, before), *first, others, before)?;
    Ok(())
}

/// SREF or AREF, SNAME, and how the reference is turned.
fn write_reference(out: &mut Vec<u8>, code: u16, name: &Name, orient: Orient) -> Result<(), Memory>
    requires { IsText name.now }
    ensures { OnOk result (out.new.items ≡ out.old.items ++ records_bytes
        (record_with code [] ∷ record_with SNAME (text_bytes name.now) ∷ orient_records orient)) }
{
    append_record(out, code, &[])?;
    append_name(out, SNAME, name)?;
    write_orient(out, orient)?;
    Ok(())
}

/// The origin displaced by so many pitches.
fn displaced_by(at: Point, count: i16, pitch: Point) -> Point
    requires some { pos 1 ≤ℤ count }
    requires from { IsShort at }
    requires to { IsShort (displaced at count pitch) }
    ensures is { result ≡ displaced at count pitch }
    ensures short { IsShort result }
{
    let times = i64::from(count);
    Point {
        x: at.x + times * pitch.x,
        y: at.y + times * pitch.y,
    }
}

/// COLROW and XY of an array.
fn write_lattice(
    out: &mut Vec<u8>,
    place: Place,
    columns: i16,
    rows: i16,
    across: Point,
    down: Point,
) -> Result<(), Memory>
    requires { IsWritableArray place columns rows across down }
    ensures { OnOk result (out.new.items
        ≡ out.old.items ++ records_bytes (lattice_records place columns rows across down)) }
{
    append_head(out, COLROW, 4)?;
    out.extend_from_slice(&columns.to_be_bytes())?;
    out.extend_from_slice(&rows.to_be_bytes())?;
    let by_columns = displaced_by(place.at, columns, across);
    let by_rows = displaced_by(place.at, rows, down);
    append_head(out, XY, 24)?;
    append_point(out, place.at)?;
    append_point(out, by_columns)?;
    append_point(out, by_rows)?;
    Ok(())
}

/// PATHTYPE, WIDTH and XY of a path.
fn write_track(out: &mut Vec<u8>, kind: i16, width: i32, points: &[Point]) -> Result<(), Memory>
    requires { IsWritableTrack kind width points.now }
    ensures { OnOk result (out.new.items ≡ out.old.items ++ records_bytes
        (record_with PATHTYPE (int16_bytes kind) ∷ record_with WIDTH (int32_bytes width) ∷ record_with XY
        (points_bytes points.now) ∷ [])) }
{
    append_int16(out, PATHTYPE, kind)?;
    append_int32(out, WIDTH, width)?;
    write_points(out, points)?;
    Ok(())
}

/// What an element is besides its properties.
fn write_body(out: &mut Vec<u8>, element: &Element) -> Result<(), Memory>
    requires { IsWritableBody element.now }
    ensures bytes { OnOk result (out.new.items ≡ out.old.items ++ records_bytes (body_records element.now)) }
    ensures layers { OnOk result (HasShortLayers element.now) }
{
    match element {
        Element::Boundary {
            layer,
            datatype,
            points,
            ..
        } => {
            write_layers(out, BOUNDARY, DATATYPE, *layer, *datatype)?;
            write_ring(out, points.as_slice())?;
            Ok(())
        }
        Element::Path {
            layer,
            datatype,
            kind,
            width,
            points,
            ..
        } => {
            write_layers(out, PATH, DATATYPE, *layer, *datatype)?;
            write_track(out, *kind, *width, points.as_slice())?;
            Ok(())
        }
        Element::Sref { name, place, .. } => {
            write_reference(out, SREF, name, place.orient)?;
            write_points(out, &[place.at])?;
            Ok(())
        }
        Element::Aref {
            name,
            place,
            columns,
            rows,
            across,
            down,
            ..
        } => {
            write_reference(out, AREF, name, place.orient)?;
            write_lattice(out, *place, *columns, *rows, *across, *down)?;
            Ok(())
        }
        Element::Text {
            layer,
            texttype,
            at,
            string,
            ..
        } => {
            write_layers(out, TEXT, TEXTTYPE, *layer, *texttype)?;
            write_points(out, &[*at])?;
            append_name(out, STRING, string)?;
            Ok(())
        }
    }
}

/// The properties of an element.
pub(crate) fn properties_of(element: &Element) -> &[Prop]
    ensures { result.now ≡ props_of element.now }
{
    match element {
        Element::Boundary { props, .. }
        | Element::Path { props, .. }
        | Element::Sref { props, .. }
        | Element::Aref { props, .. }
        | Element::Text { props, .. } => props.as_slice(),
    }
}

fn write_element(out: &mut Vec<u8>, element: &Element) -> Result<(), Memory>
    requires { IsWritableElement element.now }
    ensures bytes { OnOk result (out.new.items ≡ out.old.items ++ records_bytes (element_records element.now)) }
    ensures numbers { OnOk result (HasShortNumbers element.now) }
{
    write_body(out, element)?;
    write_properties(out, properties_of(element))?;
    Ok(())
}

/// BGNSTR, STRNAME, the elements and ENDSTR.
fn write_structure(out: &mut Vec<u8>, structure: &Structure) -> Result<(), Memory>
    requires { IsWritableCell structure.now }
    ensures bytes { OnOk result (out.new.items ≡ out.old.items ++ records_bytes (structure_records structure.now)) }
    ensures numbers { OnOk result (AreShortNumbers structure.now) }
{
    append_record(out, BGNSTR, &NO_DATES)?;
    append_name(out, STRNAME, &structure.name)?;
    let mut rest = structure.elements.as_slice();
    while let Some((element, others)) = rest.split_first() {
        write_element(out, element)?;
        rest = others;
    }
    append_record(out, ENDSTR, &[])?;
    Ok(())
}

/// The records before the structures.
fn write_head(out: &mut Vec<u8>, name: &Name) -> Result<(), Memory>
    requires { IsText name.now }
    ensures { OnOk result (out.new.items ≡ out.old.items ++ records_bytes (head_records name.now)) }
{
    append_record(out, HEADER, &VERSION)?;
    append_record(out, BGNLIB, &NO_DATES)?;
    append_name(out, LIBNAME, name)?;
    append_record(out, UNITS, &NANOMETRES)?;
    Ok(())
}

/// Writes a library (Calma GDSII Stream Format, release 6), in one spelling: release 600, no dates, units of one
/// nanometre, no record that `read_gds` drops, boundaries counter-clockwise from their lowest corner, the leftmost of
/// these, PATHTYPE and WIDTH of every path, STRANS and ANGLE where a reference is turned, no MAG, and nothing after
/// ENDLIB. `is_writable` tells whether it may be called. What is written is read as the library, with its boundaries
/// turned so.
pub fn write_gds(alloc: Global, lib: &Library) -> Result<Vec<u8>, Memory>
    requires { IsWritable lib.now }
    ensures bytes { IfOk result (λ bytes. bytes.items ≡ canonical lib.now) }
    ensures spells { IfOk result (λ bytes. Spells bytes.items (turned_library lib.now)) }
{
    let mut out = Vec::new(alloc);
    write_head(&mut out, &lib.name)?;
    let mut rest = lib.structs.as_slice();
    while let Some((structure, others)) = rest.split_first() {
        write_structure(&mut out, structure)?;
        rest = others;
    }
    append_record(&mut out, ENDLIB, &[])?;
    Ok(out)
}
