ghost use Rattle.std.specs.Prelude.{◌≡◌, ◌↔◌, ◌⊎◌, IsTrue, IfErr, MatchOption, OnOk};
ghost use Rattle.leaf_tables.specs.Alignment.{IsFirstOdd};
ghost use Rattle.leaf_tables.specs.declared.fault.KitFault.TheVariants as kit_fault;
ghost use Rattle.rom_leaves.specs.Shared.{cell_with, shared_sides, AreAllShared, IsShared, IsSideFault};
ghost use Rattle.rom_leaves.specs.Shared.{IsFirstSideFault};

use crate::side::{SharedSide, measure_of, shared_sides, side_at};
use leaf_tables::{KitFault, Leaf, LeafRole};
use or_geom::Name;
use std::alloc::Global;

/// Of two cells the one for the bit.
fn cell_with<'a>(zero: &'a Leaf, one: &'a Leaf, bit: bool) -> &'a Leaf
    ensures { result.now ≡ cell_with zero.now one.now bit }
{
    if bit { one } else { zero }
}

/// Whether the cell for the bit has this as the bitcell has it.
fn is_shared(bitcell: &Leaf, zero: &Leaf, one: &Leaf, pair: (bool, SharedSide)) -> bool
    ensures { IsTrue result ↔ IsShared bitcell.now (cell_with zero.now one.now) pair }
{
    let leaf = cell_with(zero, one, pair.0);
    measure_of(leaf, pair.1) == measure_of(bitcell, pair.1)
}

/// The first that isn't as the bitcell has it.
fn first_unshared(bitcell: &Leaf, zero: &Leaf, one: &Leaf) -> Option<(bool, SharedSide)>
    ensures { MatchOption result (AreAllShared bitcell.now (cell_with zero.now one.now))
        (IsFirstOdd (IsShared bitcell.now (cell_with zero.now one.now)) shared_sides) }
{
    let all = shared_sides();
    for index in 0..all.len() {
        let pair = side_at(all, index);
        if !is_shared(bitcell, zero, one, pair) {
            return Some(pair);
        }
    }
    None
}

/// The fault of a pin that doesn't begin where the bitcell's does.
fn pin_fault(alloc: Global, role: Name, pin: &str) -> KitFault
    ensures { (result ≡ kit_fault.Memory) ⊎ (result ≡ kit_fault.EdgePin role pin.now) }
{
    match Name::from_bytes(alloc, pin.as_bytes()) {
        Ok(pin) => KitFault::EdgePin { role, pin },
        Err(_) => KitFault::Memory,
    }
}

/// The fault of a cell that hasn't this as the bitcell has it.
fn side_fault(alloc: Global, pair: (bool, SharedSide)) -> KitFault
    ensures { IsSideFault pair result }
{
    let Ok(role) = Name::from_bytes(alloc, LeafRole::Fixed(pair.0).name().as_bytes()) else {
        return KitFault::Memory;
    };
    match pair.1 {
        SharedSide::Height => KitFault::HeightDiffers { role },
        SharedSide::Width => KitFault::WidthDiffers { role },
        SharedSide::LeftOfBl => pin_fault(alloc, role, "bl"),
        SharedSide::LeftOfBr => pin_fault(alloc, role, "br"),
        SharedSide::LowOfWl => pin_fault(alloc, role, "wl"),
    }
}

/// Refuses cells that aren't as high or as wide as the bitcell, or whose pins begin elsewhere, in this order.
pub fn check_shared(alloc: Global, bitcell: &Leaf, zero: &Leaf, one: &Leaf) -> Result<(), KitFault>
    ensures shared { OnOk result (AreAllShared bitcell.now (cell_with zero.now one.now)) }
    ensures fault { IfErr result (IsFirstSideFault bitcell.now (cell_with zero.now one.now)) }
{
    match first_unshared(bitcell, zero, one) {
        Some(pair) => Err(side_fault(alloc, pair)),
        None => Ok(()),
    }
}
