ghost use Rattle.std.specs.Prelude.{ℕ, List, IfOk, IfErr};
ghost use Rattle.gds_library.specs.Grammar.{Spells};
ghost use Rattle.gds_library.specs.Writable.{IsWritable};
ghost use Rattle.tech_rules.specs.Facts.{IsTech};
ghost use Rattle.leaf_tables.specs.Kits.{IsKit, IsKitOf};
ghost use Rattle.leaf_tables.specs.Faults.{IsKitFault};

use crate::align::check_aligned;
use crate::fault::KitFault;
use crate::kit::Kit;
use crate::leaf::read_leaves;
use gds_library::Library;
use or_geom::Items;
use role_tables::read_tables;
use spice_text::read_spice;
use std::alloc::Global;
use tech_rules::Tech;

/// Makes a kit: the technology's leaf cells from the library of their layouts and from a SPICE text. Whichever bytes
/// spell the library, it is the kit of these bytes, or the fault is theirs. What is refused is refused in this order:
/// the SPICE text; a technology without wires; its roles and tables; then role by role its cell's flat layout,
/// outline, subcircuit, ports and pins; then, over all roles, heights, widths, and pins that don't face each other.
/// `Memory` may come in place of each.
pub fn kit_of(alloc: Global, tech: Tech, lib: Library, text: Items<u8>) -> Result<Kit, KitFault>
    requires tech { IsTech tech }
    requires writable { IsWritable lib }
    ensures kit { IfOk result (λ kit. (gds : List ℕ) → Spells gds lib → IsKitOf tech gds text kit) }
    ensures good { IfOk result IsKit }
    ensures fault { IfErr result (λ fault. (gds : List ℕ) → Spells gds lib → IsKitFault tech gds text fault) }
{
    let deck = match read_spice(alloc, text.as_slice()) {
        Ok(deck) => deck,
        Err(fault) => return Err(KitFault::from(fault)),
    };
    let Some(wire) = tech.wire else {
        return Err(KitFault::NoWire);
    };
    if let Err(fault) = read_tables(alloc, &tech) {
        return Err(KitFault::from(fault));
    }
    let leaves = match read_leaves(alloc, &tech, &wire, &lib, &deck) {
        Ok(leaves) => leaves,
        Err(fault) => return Err(fault),
    };
    if let Err(fault) = check_aligned(alloc, leaves.as_slice()) {
        return Err(fault);
    }
    Ok(Kit {
        tech,
        lib,
        deck,
        text,
        leaves,
    })
}
