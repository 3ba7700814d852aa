ghost use Rattle.std.specs.Prelude.{◌≡◌, Some};
ghost use Rattle.gds_library.specs.Values.{mirror_of, upright_of, turn_of, is_zero_angle};
ghost use Rattle.gds_library.specs.ReadElements.{orient_of};

use crate::limits::MIRRORED;
use or_geom::Orient;

/// A counter-clockwise turn.
#[derive(Clone, Copy)]
pub enum Turn {
    Zero,
    Quarter,
    Half,
    ThreeQuarters,
}

/// Whether STRANS reflects. Its other bits have to be 0.
pub fn mirror_in(content: &[u8]) -> Option<bool>
    ensures { result ≡ mirror_of content.now }
{
    let [a, b] = content else {
        return None;
    };
    if *a == 0 && *b == 0 {
        return Some(false);
    }
    if *a == MIRRORED && *b == 0 {
        return Some(true);
    }
    None
}

/// MAG, which has to be 1.
pub fn upright_in(content: &[u8]) -> Option<()>
    ensures { result ≡ upright_of content.now }
{
    if content == [0x41, 0x10, 0, 0, 0, 0, 0, 0].as_slice() {
        Some(())
    } else {
        None
    }
}

/// Whether all bytes of a real but its first are zero, which makes it 0.
fn is_zero_real(content: &[u8]) -> bool
    ensures { result ≡ is_zero_angle content.now }
{
    match content {
        [_, others @ ..] => others == [0, 0, 0, 0, 0, 0, 0].as_slice(),
        [] => false,
    }
}

/// The turn that ANGLE gives. Reals are compared as byte patterns.
pub fn turn_in(content: &[u8]) -> Option<Turn>
    ensures { result ≡ turn_of content.now }
{
    if content == [0x42, 0x5A, 0, 0, 0, 0, 0, 0].as_slice() {
        return Some(Turn::Quarter);
    }
    if content == [0x42, 0xB4, 0, 0, 0, 0, 0, 0].as_slice() {
        return Some(Turn::Half);
    }
    if content == [0x43, 0x10, 0xE0, 0, 0, 0, 0, 0].as_slice() {
        return Some(Turn::ThreeQuarters);
    }
    if is_zero_real(content) {
        return Some(Turn::Zero);
    }
    None
}

/// A reflection about the x axis, where it is mirrored, and then the turn.
pub fn orient_from_parts(mirrored: bool, turn: Turn) -> Orient
    ensures { result ≡ orient_of mirrored turn }
{
    match (mirrored, turn) {
        (false, Turn::Zero) => Orient::R0,
        (false, Turn::Quarter) => Orient::R90,
        (false, Turn::Half) => Orient::R180,
        (false, Turn::ThreeQuarters) => Orient::R270,
        (true, Turn::Zero) => Orient::MX,
        (true, Turn::Quarter) => Orient::MX90,
        (true, Turn::Half) => Orient::MX180,
        (true, Turn::ThreeQuarters) => Orient::MX270,
    }
}
