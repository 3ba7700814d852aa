ghost use Rattle.tech_rules.specs.Fault.{tech_faults};
ghost use Rattle.tech_rules.specs.declared.fault.TechFault.TheVariants.{Memory};
ghost use Rattle.std.specs.Prelude.{◌≡◌, map};
ghost use Rattle.std.specs.List.{list_all};
ghost use Rattle.toml_keys.specs.Fault.{MatchesUnless};
ghost use Rattle.toml_keys.specs.Section.{section_of};
ghost use Rattle.tech_rules.specs.Roles.{is_cell_byte, is_cell_name, role_cell, role_rows};
ghost use Rattle.tech_rules.specs.Roles.{of_roles, of_roles_under};

use crate::fault::TechFault;
use crate::tech::{RoleName, RoleRows};
use or_geom::{Items, Name};
use toml_keys::KeyTable;

/// The greatest length of a leaf cell's name.
const MAX_CELL_LENGTH: usize = 32;

/// The roles of leaf cells, in the order in which a technology's are looked at. The last two are those of a read-only
/// memory.
const ROLES: [&str; 16] = [
    "bitcell",
    "precharge",
    "mux",
    "tie",
    "sense",
    "write",
    "rownand2",
    "rownand3",
    "driver",
    "nand2",
    "nand3",
    "inv",
    "dff",
    "delay",
    "rom0",
    "rom1",
];

/// What a technology says of one role, such as the cell that plays it.
pub trait OfRole: Drop {
    ghost use Rattle.std.specs.Prelude.{ℕ, List, Result};
    ghost use Rattle.toml_keys.specs.Keys.{Section};
    ghost use Rattle.tech_rules.specs.declared.fault.TechFault.{TechFault};

    /// What stands under a role's name in a table, or its fault.
    ghost of_role: { Section TechFault → List ℕ → Result Self TechFault };

    /// What stands under a role's name.
    fn at(section: &KeyTable<TechFault>, role: &str) -> Result<Self, TechFault>
        ensures { MatchesUnless Memory result (of_role (section_of tech_faults section.now) role.now) };
}

/// What the table under a key of the document says of the roles, if there is one.
pub fn by_role<R: OfRole>(document: &KeyTable<TechFault>, key: &str) -> Result<Items<R>, TechFault>
    ensures { MatchesUnless Memory result (of_roles_under R.of_role (section_of tech_faults document.now) key.now) }
{
    if !document.has(key) {
        return Ok(Items::new(document.alloc()));
    }
    let section = document.section(key)?;
    in_table(&section, &ROLES)
}

fn in_table<R: OfRole>(section: &KeyTable<TechFault>, names: &[&str]) -> Result<Items<R>, TechFault>
    ensures { MatchesUnless Memory result
        (of_roles R.of_role (section_of tech_faults section.now) (map (λ t. t.now) names.now)) }
{
    let mut found = Items::new(section.alloc());
    for role in names {
        if !section.has(role) {
            continue;
        }
        let one = R::at(section, role)?;
        found.push(one)?;
    }
    Ok(found)
}

impl OfRole for RoleName {
    ghost of_role = { role_cell };

    fn at(section: &KeyTable<TechFault>, role: &str) -> Result<Self, TechFault> {
        let cell = section.text(role)?;
        if !is_cell_name(cell.as_bytes()) {
            return Err(section.out_of_range(role));
        }
        let cell = Name::from_bytes(section.alloc(), cell.as_bytes())?;
        let role = Name::from_bytes(section.alloc(), role.as_bytes())?;
        Ok(RoleName { role, cell })
    }
}

impl OfRole for RoleRows {
    ghost of_role = { role_rows };

    fn at(section: &KeyTable<TechFault>, role: &str) -> Result<Self, TechFault> {
        let rows = section.texts(role)?;
        let role = Name::from_bytes(section.alloc(), role.as_bytes())?;
        Ok(RoleRows { role, rows })
    }
}

/// Whether the text may name a cell or a model: 1 to 32 printable ASCII characters without spaces.
pub fn is_cell_name(text: &[u8]) -> bool
    ensures { result ≡ is_cell_name text.now }
{
    !text.is_empty() && text.len() <= MAX_CELL_LENGTH && are_cell_bytes(text)
}

fn are_cell_bytes(text: &[u8]) -> bool
    ensures { result ≡ list_all is_cell_byte text.now }
{
    text.iter().all(|b| matches!(*b, 33..=126))
}
