ghost use Rattle.std.specs.Prelude.{◌≡◌, ◌++◌, ◌∷◌, map, IfOk, OnOk};
ghost use Rattle.cell_roles.specs.Tables.{all_values};
ghost use Rattle.role_tables.specs.Point.{bit_char, point_with, point_text};

use or_geom::{Items, Memory, Name};
use std::alloc::Global;

/// The bit, and then the other bits.
fn longer(alloc: Global, bit: bool, bits: &[bool]) -> Result<Items<bool>, Memory>
    ensures { IfOk result (λ list. list ≡ bit ∷ bits.now) }
{
    let mut list = Items::new(alloc);
    list.push(bit)?;
    for b in bits {
        list.push(*b)?;
    }
    Ok(list)
}

/// Adds the values with the bit before them.
fn add_longer(
    values: &[Items<bool>],
    bit: bool,
    list: &mut Vec<Items<bool>>,
    alloc: Global,
) -> Result<(), Memory>
    ensures { OnOk result (list.new.items ≡ list.old.items ++ map (λ v. bit ∷ v) values.now) }
{
    for value in values {
        list.push(longer(alloc, bit, value)?)?;
    }
    Ok(())
}

/// All values of so many bits in counting order, the first bit highest.
pub fn all_values(alloc: Global, count: usize) -> Result<Vec<Items<bool>>, Memory>
    ensures { IfOk result (λ values. values.items ≡ all_values count) }
{
    let mut values = Vec::new(alloc);
    values.push(Items::new(alloc))?;
    for _ in 0..count {
        let mut list = Vec::new(alloc);
        add_longer(&values, false, &mut list, alloc)?;
        add_longer(&values, true, &mut list, alloc)?;
        values = list;
    }
    Ok(values)
}

fn push_bits(text: &mut Vec<u8>, bits: &[bool]) -> Result<(), Memory>
    ensures { OnOk result (text.new.items ≡ text.old.items ++ map bit_char bits.now) }
{
    for bit in bits {
        text.push(if *bit { b'1' } else { b'0' })?;
    }
    Ok(())
}

/// How the point with these inputs and stored bits is printed.
pub fn point_text(alloc: Global, inputs: &[bool], stored: &[bool]) -> Result<Name, Memory>
    ensures { IfOk result (λ name. name ≡ point_text (point_with inputs.now stored.now)) }
{
    let mut text = Vec::new(alloc);
    push_bits(&mut text, inputs)?;
    text.push(b'/')?;
    push_bits(&mut text, stored)?;
    Ok(Name::from_vec(text))
}
