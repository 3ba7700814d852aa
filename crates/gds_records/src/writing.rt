ghost use Rattle.std.specs.Prelude.{◌≡◌, ◌+◌, ◌<◌, ◌≤◌, ◌^◌, ◌++◌, ◌∷◌, length, reverse, OnOk, FitsSigned};
ghost use Rattle.std.specs.Int.{w16};
ghost use Rattle.std.specs.List.{AllByRecursion};
ghost use Rattle.gds_records.specs.Bytes.{two_bytes, record_bytes};
ghost use Rattle.gds_records.specs.Values.{IsShort};
ghost use Rattle.gds_records.specs.Writing.{int16_bytes, int32_bytes, point_bytes, points_bytes, text_bytes};
ghost use Rattle.gds_records.specs.Writing.{record_with};
ghost use Rattle.gds_records.specs.declared.limits.TheConstants.{MOST_CHARACTERS};

use or_geom::{Memory, Name, Point};

/// Adds the length and the code of a record with so many bytes of data.
pub fn append_head(out: &mut Vec<u8>, code: u16, size: usize) -> Result<(), Memory>
    requires { size + 4 < 2 ^ 16 }
    ensures { OnOk result (out.new.items ≡ out.old.items ++ (two_bytes (size + 4) ++ two_bytes code)) }
{
    let length = size + 4;
    let head = [
        (length / 256) as u8,
        (length % 256) as u8,
        (code / 256) as u8,
        (code % 256) as u8,
    ];
    out.extend_from_slice(&head)?;
    Ok(())
}

/// Adds a record.
pub fn append_record(out: &mut Vec<u8>, code: u16, content: &[u8]) -> Result<(), Memory>
    requires { length content.now + 4 < 2 ^ 16 }
    ensures { OnOk result (out.new.items ≡ out.old.items ++ record_bytes (record_with code content.now)) }
{
    append_head(out, code, content.len())?;
    out.extend_from_slice(content)?;
    Ok(())
}

/// Adds a record of one number of two bytes.
pub fn append_int16(out: &mut Vec<u8>, code: u16, value: i16) -> Result<(), Memory>
    ensures bytes { OnOk result (out.new.items ≡ out.old.items ++ record_bytes (record_with code (int16_bytes value))) }
    ensures fits { FitsSigned w16 value }
{
    append_record(out, code, &value.to_be_bytes())
}

/// Adds a record of one number of four bytes.
pub fn append_int32(out: &mut Vec<u8>, code: u16, value: i32) -> Result<(), Memory>
    ensures { OnOk result (out.new.items ≡ out.old.items ++ record_bytes (record_with code (int32_bytes value))) }
{
    append_record(out, code, &value.to_be_bytes())
}

/// Adds a record of one text, with one zero byte after a text of odd length.
pub fn append_text(out: &mut Vec<u8>, code: u16, text: &[u8]) -> Result<(), Memory>
    requires { length text.now ≤ MOST_CHARACTERS }
    ensures { OnOk result (out.new.items ≡ out.old.items ++ record_bytes (record_with code (text_bytes text.now))) }
{
    if text.len() % 2 == 0 {
        return append_record(out, code, text);
    }
    append_head(out, code, text.len() + 1)?;
    out.extend_from_slice(text)?;
    out.push(0)?;
    Ok(())
}

/// Adds the eight bytes of a point.
pub fn append_point(out: &mut Vec<u8>, point: Point) -> Result<(), Memory>
    requires { IsShort point }
    ensures { OnOk result (out.new.items ≡ out.old.items ++ point_bytes point) }
{
    let x = point.x as i32;
    let y = point.y as i32;
    out.extend_from_slice(&x.to_be_bytes())?;
    out.extend_from_slice(&y.to_be_bytes())?;
    Ok(())
}

/// Adds the bytes of points in order.
pub fn append_points(out: &mut Vec<u8>, points: &[Point]) -> Result<(), Memory>
    requires { AllByRecursion IsShort points.now }
    ensures { OnOk result (out.new.items ≡ out.old.items ++ points_bytes points.now) }
{
    let mut rest = points;
    while let Some((point, others)) = rest.split_first() {
        append_point(out, *point)?;
        rest = others;
    }
    Ok(())
}

/// Adds the bytes of points in order, from the last to the first.
pub fn append_points_back(out: &mut Vec<u8>, points: &[Point]) -> Result<(), Memory>
    requires { AllByRecursion IsShort points.now }
    ensures { OnOk result (out.new.items ≡ out.old.items ++ points_bytes (reverse points.now)) }
{
    let mut rest = points;
    while let Some((point, front)) = rest.split_last() {
        append_point(out, *point)?;
        rest = front;
    }
    Ok(())
}

/// Adds a record of a name, with one zero byte after a name of odd length.
pub fn append_name(out: &mut Vec<u8>, code: u16, name: &Name) -> Result<(), Memory>
    requires { length name.now ≤ MOST_CHARACTERS }
    ensures { OnOk result (out.new.items ≡ out.old.items ++ record_bytes (record_with code (text_bytes name.now))) }
{
    append_text(out, code, name.as_bytes())
}
