ghost use Rattle.tech_rules.specs.Fault.{tech_faults};
ghost use Rattle.tech_rules.specs.declared.fault.TechFault.TheVariants.{Memory};
ghost use Rattle.std.specs.Prelude.{◌≤◌, [], map, length};
ghost use Rattle.toml.specs.View.{view};
ghost use Rattle.toml_keys.specs.Fault.{MatchesUnless, in_turn};
ghost use Rattle.toml_keys.specs.Section.{section_of};
ghost use Rattle.tech_rules.specs.Entries.{entry_after};

use crate::fault::TechFault;
use crate::tech::Layer;
use or_geom::Items;
use toml::Value;
use toml_keys::KeyTable;

/// What one table of an array says, such as a rule.
pub trait Entry: Drop {
    ghost use Rattle.std.specs.Prelude.{List, Result};
    ghost use Rattle.toml_keys.specs.Keys.{Section};
    ghost use Rattle.tech_rules.specs.declared.fault.TechFault.{TechFault};
    ghost use Rattle.tech_rules.specs.declared.tech.Layer.{Layer};

    /// The entry of a table's keys, over these layers, or the first fault.
    ghost entry_in: { List Layer → Section TechFault → Result Self TechFault };

    /// The entry of a table's keys.
    fn from_keys(keys: &KeyTable<TechFault>, layers: &[Layer]) -> Result<Self, TechFault>
        requires { length layers.now ≤ 64 }
        ensures { MatchesUnless Memory result (entry_in layers.now (section_of tech_faults keys.now)) };
}

/// The entries of these tables, which stand under a key.
pub fn entries_in<E: Entry>(
    document: &KeyTable<TechFault>,
    key: &str,
    layers: &[Layer],
    tables: &[Value],
) -> Result<Items<E>, TechFault>
    requires { length layers.now ≤ 64 }
    ensures { MatchesUnless Memory result
        (in_turn (entry_after (E.entry_in layers.now) (section_of tech_faults document.now) key.now) []
        (map view tables.now)) }
{
    let mut entries = Items::new(document.alloc());
    for table in tables {
        let entry = entry_after(document, key, layers, entries.as_slice(), table)?;
        entries.push(entry)?;
    }
    Ok(entries)
}

/// One entry, after those before it.
fn entry_after<E: Entry>(
    document: &KeyTable<TechFault>,
    key: &str,
    layers: &[Layer],
    before: &[E],
    table: &Value,
) -> Result<E, TechFault>
    requires { length layers.now ≤ 64 }
    ensures { MatchesUnless Memory result
        (entry_after (E.entry_in layers.now) (section_of tech_faults document.now) key.now before.now
        (view table.now)) }
{
    let keys = document.item(key, before.len(), table)?;
    E::from_keys(&keys, layers)
}
