ghost use Rattle.std.specs.Prelude.{◌≡◌, IfOk, map, string_bytes};
ghost use Rattle.spice_text.specs.WrittenText.{deck_text};
ghost use Rattle.spice_text.specs.ReadBack.{IsReadAs};
ghost use Rattle.demo_kit.specs.CellNames as spec;
ghost use Rattle.demo_kit.specs.Subcircuits.{cell_subckt, demo_subckts};

use cell_roles::Role;
use netlist::Subckt;
use or_geom::{Items, Memory, Name};
use spice_text::write_spice;
use std::alloc::Global;

/// The name of a role's cell.
pub fn cell_name(alloc: Global, role: Role) -> Result<String, Memory>
    ensures { IfOk result (λ name. string_bytes name ≡ spec.demo_cell_name role) }
{
    let name = role.name();
    Ok(format!(in alloc; "demo_{name}")?)
}

fn names(alloc: Global, texts: &[&str]) -> Result<Items<Name>, Memory>
    ensures { IfOk result (λ names. names ≡ map (λ text. text.now) texts.now) }
{
    let mut names = Items::new(alloc);
    for text in texts {
        names.push(Name::from_bytes(alloc, text.as_bytes())?)?;
    }
    Ok(names)
}

/// A role's subcircuit.
fn subcircuit(alloc: Global, role: Role) -> Result<Subckt, Memory>
    ensures { IfOk result (λ subckt. subckt ≡ cell_subckt role) }
{
    let name = cell_name(alloc, role)?;
    Ok(Subckt {
        name: Name::from_bytes(alloc, name.as_bytes())?,
        ports: names(alloc, role.ports())?,
        instances: Items::new(alloc),
        raw: Items::new(alloc),
    })
}

fn subcircuits(alloc: Global, roles: &[Role]) -> Result<Vec<Subckt>, Memory>
    ensures { IfOk result (λ subckts. subckts.items ≡ map cell_subckt roles.now) }
{
    let mut subckts = Vec::new(alloc);
    for role in roles {
        subckts.push(subcircuit(alloc, *role)?)?;
    }
    Ok(subckts)
}

/// The subcircuit of each role, in order.
#[tactic(auto, unfolding(crate::specs::Subcircuits::demo_subckts))]
fn all_subcircuits(alloc: Global) -> Result<Vec<Subckt>, Memory>
    ensures { IfOk result (λ subckts. subckts.items ≡ demo_subckts) }
{
    subcircuits(alloc, &Role::all())
}

/// The SPICE file: of each role an empty subcircuit with its ports.
#[tactic(auto, using(crate::proofs::KitLaws::subckts_writable))]
pub fn netlist_text(alloc: Global) -> Result<Vec<u8>, Memory>
    ensures text { IfOk result (λ text. text.items ≡ deck_text demo_subckts) }
    ensures read { IfOk result (λ text. IsReadAs demo_subckts text.items) }
{
    let subckts = all_subcircuits(alloc)?;
    write_spice(alloc, &subckts)
}
