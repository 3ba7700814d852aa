ghost use Rattle.std.specs.Prelude.{◌≡◌, ◌+◌, ◌++◌, ◌<◌, ◌≤ℤ◌, pos, OnOk};
ghost use Rattle.std.specs.Fmt.{decimal};
ghost use Rattle.macro_views.specs.Microns.{microns};

use itoa::Buffer;
use or_geom::Memory;

/// Adds a text.
pub fn append(out: &mut Vec<u8>, text: &[u8]) -> Result<(), Memory>
    ensures { OnOk result (out.new.items ≡ out.old.items ++ text.now) }
{
    Ok(out.extend_from_slice(text)?)
}

/// Adds a number.
pub fn append_number(out: &mut Vec<u8>, number: u64) -> Result<(), Memory>
    ensures { OnOk result (out.new.items ≡ out.old.items ++ decimal number) }
{
    let mut buffer = Buffer::new();
    append(out, buffer.format(number).as_bytes())
}

/// A digit of a number below ten.
fn digit(number: u64) -> u8
    requires { number < 10 }
    ensures { result ≡ 48 + number }
{
    b'0' + number as u8
}

/// Adds a length of so many nanometres as microns with three decimals.
pub fn append_microns(out: &mut Vec<u8>, length: i64) -> Result<(), Memory>
    requires { pos 0 ≤ℤ length }
    ensures { OnOk result (out.new.items ≡ out.old.items ++ microns length) }
{
    let nanometres = length as u64;
    append_number(out, nanometres / 1000)?;
    let rest = nanometres % 1000;
    let decimals = [
        b'.',
        digit(rest / 100),
        digit(rest / 10 % 10),
        digit(rest % 10),
    ];
    append(out, &decimals)
}

/// Adds a text with a hole.
pub fn append_filled(
    out: &mut Vec<u8>,
    before: &[u8],
    hole: &[u8],
    after: &[u8],
) -> Result<(), Memory>
    ensures { OnOk result (out.new.items ≡ out.old.items ++ (before.now ++ hole.now ++ after.now)) }
{
    append(out, before)?;
    append(out, hole)?;
    append(out, after)
}
