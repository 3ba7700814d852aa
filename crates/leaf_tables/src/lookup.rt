ghost use Rattle.std.specs.Prelude.{◌≡◌};
ghost use Rattle.std.specs.Option.{option_copied};
ghost use Rattle.leaf_tables.specs.Leaves.{cell_named_for, subckt_named};
ghost use Rattle.leaf_tables.specs.Alignment.{first_pin, role_number};

use cell_roles::{LeafRole, Role};
use leaf_shapes::LeafPin;
use netlist::Subckt;
use or_geom::Name;
use tech_rules::RoleName;

/// The name of the cell that plays the role.
pub fn cell_named_for(roles: &[RoleName], role: LeafRole) -> Option<&Name>
    ensures { option_copied result ≡ cell_named_for roles.now role }
{
    let name = role.name();
    for entry in roles {
        if entry.role.is(name.as_bytes()) {
            return Some(&entry.cell);
        }
    }
    None
}

/// The subcircuit that is named as the cell is, in lower case.
pub fn subckt_named<'a>(subckts: &'a [Subckt], name: &Name) -> Option<&'a Subckt>
    ensures { option_copied result ≡ subckt_named subckts.now name.now }
{
    for subckt in subckts {
        if subckt.name.is(name.as_bytes()) {
            return Some(subckt);
        }
    }
    None
}

/// The first of the pins that has this name.
pub fn first_pin<'a>(pins: &'a [LeafPin], name: &str) -> Option<&'a LeafPin>
    ensures { option_copied result ≡ first_pin pins.now name.now }
{
    for pin in pins {
        if pin.pin.is(name.as_bytes()) {
            return Some(pin);
        }
    }
    None
}

/// The number, from 0, of the role's leaf in a kit.
pub fn role_number(role: Role) -> usize
    ensures { result ≡ role_number role }
{
    match role {
        Role::Bitcell => 0,
        Role::Precharge => 1,
        Role::Mux => 2,
        Role::Tie => 3,
        Role::Sense => 4,
        Role::Write => 5,
        Role::RowNand2 => 6,
        Role::RowNand3 => 7,
        Role::Driver => 8,
        Role::Nand2 => 9,
        Role::Nand3 => 10,
        Role::Inv => 11,
        Role::Dff => 12,
        Role::Delay => 13,
    }
}
