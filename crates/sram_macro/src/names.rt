ghost use Rattle.std.specs.Prelude.{◌≡◌, None, IfOk, IfErr};
ghost use Rattle.port_lists.specs.Held.{held_of};
ghost use Rattle.sram_netlist.specs.BitCells.{row_kinds, row_name};
ghost use Rattle.sram_netlist.specs.InstanceList.{tabulate};
ghost use Rattle.sram_netlist.specs.Numbers.{ArePlanNumbers};
ghost use Rattle.sram_netlist.specs.Organization.{bank_rows};
ghost use Rattle.sram_plan.specs.PlanNumbers.{numbers_of, organization};
ghost use Rattle.sram_macro.specs.Macro.{macro_bits, names_of_macro};
ghost use Rattle.sram_macro.specs.Names.{is_structure_name, is_subckt_name, is_taken, IsTakenFault, first_taken};

use gds_library::Structure;
use leaf_tables::{Kit, PartFault};
use netlist::Subckt;
use or_geom::{Memory, Name};
use port_lists::{Contents, part_name, row_kinds, row_name};
use sram_plan::Plan;
use std::alloc::Global;

/// The names of the rows' cells and subcircuits.
fn row_names(
    alloc: Global,
    kit: &Kit,
    plan: &Plan,
    name: &Name,
    contents: Contents<'_>,
) -> Result<Vec<Name>, Memory>
    requires { ArePlanNumbers (numbers_of plan.now) }
    ensures { IfOk result (λ names. names.items
        ≡ tabulate (row_kinds (macro_bits kit.now plan.now (held_of contents.entry))
        (bank_rows (organization plan.now)))
        (row_name (macro_bits kit.now plan.now (held_of contents.entry)) name.now)) }
{
    let mut names = Vec::new(alloc);
    for row in 0..row_kinds(plan, contents) {
        names.push(row_name(alloc, plan, contents, name, row)?)?;
    }
    Ok(names)
}

/// The names of a macro's cells and subcircuits, in the order in which they are written.
fn macro_names(
    alloc: Global,
    kit: &Kit,
    plan: &Plan,
    name: &Name,
    contents: Contents<'_>,
) -> Result<Vec<Name>, Memory>
    requires { ArePlanNumbers (numbers_of plan.now) }
    ensures { IfOk result (λ names. names.items ≡ names_of_macro kit.now plan.now (held_of contents.entry) name.now) }
{
    let mut names = row_names(alloc, kit, plan, name, contents)?;
    names.push(part_name(alloc, name, b"_array")?)?;
    names.push(part_name(alloc, name, b"_pre")?)?;
    names.push(part_name(alloc, name, b"_data")?)?;
    names.push(part_name(alloc, name, b"_bank")?)?;
    names.push(part_name(alloc, name, b"_logic")?)?;
    names.push(part_name(alloc, name, b"")?)?;
    Ok(names)
}

/// Whether a structure of the leaf cells has the name, without regard to case.
fn is_structure_name(structs: &[Structure], name: &[u8]) -> bool
    ensures { result ≡ is_structure_name structs.now name.now }
{
    structs.iter().any(|structure| structure.name.as_bytes().eq_ignore_ascii_case(name))
}

/// Whether a subcircuit of the leaf cells has the name, without regard to case.
fn is_subckt_name(subckts: &[Subckt], name: &[u8]) -> bool
    ensures { result ≡ is_subckt_name subckts.now name.now }
{
    subckts
        .iter()
        .any(|subckt| subckt.name.as_bytes().eq_ignore_ascii_case(name))
}

/// Whether the leaf cells have the name already.
fn is_taken(kit: &Kit, name: &[u8]) -> bool
    ensures { result ≡ is_taken kit.now name.now }
{
    is_structure_name(kit.lib.structs.as_slice(), name)
        || is_subckt_name(kit.deck.subckts.as_slice(), name)
}

/// Refuses the first name of the macro's cells that a structure or subcircuit of the leaf cells has, without regard to
/// case.
pub fn refuse_taken_names(
    alloc: Global,
    kit: &Kit,
    plan: &Plan,
    name: &Name,
    contents: Contents<'_>,
) -> Result<(), PartFault>
    requires { ArePlanNumbers (numbers_of plan.now) }
    ensures free { IfOk result (λ _. first_taken kit.now
        (names_of_macro kit.now plan.now (held_of contents.entry) name.now) ≡ None) }
    ensures fault { IfErr result (IsTakenFault kit.now
        (names_of_macro kit.now plan.now (held_of contents.entry) name.now)) }
{
    let names = macro_names(alloc, kit, plan, name, contents)?;
    let mut rest = names.as_slice();
    while let Some((first, others)) = rest.split_first() {
        if is_taken(kit, first.as_bytes()) {
            let name = Name::from_bytes(alloc, first.as_bytes())?;
            return Err(PartFault::NameTaken { name });
        }
        rest = others;
    }
    Ok(())
}
