ghost use Rattle.std.specs.Prelude.{◌≡◌, map, IfOk};
ghost use Rattle.std.specs.Char.{to_ascii_lowercase};
ghost use Rattle.cell_chains.specs.Instances.{numbered, reference_name, array_name};

use gds_library::Prop;
use or_geom::{Memory, Name};
use std::alloc::Global;

/// The number of the property whose value is an instance's name.
const NAME_ATTRIBUTE: i16 = 1;

/// The bytes in lower case.
fn lowered(alloc: Global, bytes: &[u8]) -> Result<Name, Memory>
    ensures { IfOk result (λ name. name ≡ map to_ascii_lowercase bytes.now) }
{
    let lower: Vec<u8> = bytes
        .iter()
        .map(|byte| byte.to_ascii_lowercase())
        .collect(alloc)?;
    Name::from_bytes(alloc, &lower)
}

/// `#` and the place.
fn numbered(alloc: Global, place: usize) -> Result<Name, Memory>
    ensures { IfOk result (λ name. name ≡ numbered place) }
{
    let text = format!(in alloc; "#{place}")?;
    Name::from_bytes(alloc, text.as_bytes())
}

/// The name of a reference that is the element at `place` of its structure: the value of its first property 1 in lower
/// case, else `#` and the place.
pub fn reference_name(alloc: Global, place: usize, props: &[Prop]) -> Result<Name, Memory>
    ensures { IfOk result (λ name. name ≡ reference_name place props.now) }
{
    let mut rest = props;
    while let Some((first, others)) = rest.split_first() {
        if first.attr == NAME_ATTRIBUTE {
            return lowered(alloc, first.value.as_bytes());
        }
        rest = others;
    }
    numbered(alloc, place)
}

/// The name of an item of an array that is the element at `place` of its structure: `#`, the place, the column and the
/// row, separated by `.`.
pub fn array_name(alloc: Global, place: usize, column: u16, row: u16) -> Result<Name, Memory>
    ensures { IfOk result (λ name. name ≡ array_name place column row) }
{
    let text = format!(in alloc; "#{place}.{column}.{row}")?;
    Name::from_bytes(alloc, text.as_bytes())
}
