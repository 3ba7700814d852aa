ghost use Rattle.std.specs.Prelude.{◌≡◌, ◌++◌, ◌≤◌, ◌<◌, OnOk};
ghost use Rattle.std.specs.Char.{digit_char};
ghost use Rattle.std.specs.Fmt.{decimal};
ghost use Rattle.rom_data.specs.Hex.{hex_digits};

use itoa::Buffer;
use or_geom::Memory;

/// Adds a text.
pub fn append(out: &mut Vec<u8>, text: &[u8]) -> Result<(), Memory>
    ensures { OnOk result (out.new.items ≡ out.old.items ++ text.now) }
{
    Ok(out.extend_from_slice(text)?)
}

/// Adds a number.
pub fn append_number(out: &mut Vec<u8>, number: u64) -> Result<(), Memory>
    ensures { OnOk result (out.new.items ≡ out.old.items ++ decimal number) }
{
    let mut buffer = Buffer::new();
    append(out, buffer.format(number).as_bytes())
}

/// Adds a number's last digits of base 16, so many.
pub fn append_hex(out: &mut Vec<u8>, count: u32, number: u64) -> Result<(), Memory>
    requires { count ≤ 16 }
    ensures { OnOk result (out.new.items ≡ out.old.items ++ hex_digits count number) }
{
    for place in (0..count).rev() {
        out.push(hex_digit((number >> (4 * place) & 15) as u8))?;
    }
    Ok(())
}

/// A digit of base 16.
fn hex_digit(digit: u8) -> u8
    requires { digit < 16 }
    ensures { result ≡ digit_char digit }
{
    if digit < 10 {
        b'0' + digit
    } else {
        b'a' + (digit - 10)
    }
}
