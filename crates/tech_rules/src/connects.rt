ghost use Rattle.tech_rules.specs.Fault.{tech_faults};
ghost use Rattle.tech_rules.specs.declared.fault.TechFault.TheVariants.{Memory};
ghost use Rattle.std.specs.Prelude.{◌≤◌, length};
ghost use Rattle.toml_keys.specs.Fault.{MatchesUnless};
ghost use Rattle.toml_keys.specs.Section.{section_of};
ghost use Rattle.tech_rules.specs.Connects.{other_names, connect_in, connects_under};

use crate::entries::{Entry, entries_in};
use crate::fault::TechFault;
use crate::layers::{index_at, indices_at};
use crate::names::holds;
use crate::tech::{Connect, Layer};
use or_geom::{Items, Name};
use toml_keys::KeyTable;

/// The greatest number of connections.
const MAX_CONNECTS: usize = 64;

/// The least and the greatest number of conductors that a cut connects.
const MIN_CONDUCTORS: usize = 2;

const MAX_CONDUCTORS: usize = 8;

/// The connections of the document.
pub fn connects_from(
    document: &KeyTable<TechFault>,
    layers: &[Layer],
) -> Result<Items<Connect>, TechFault>
    requires { length layers.now ≤ 64 }
    ensures { MatchesUnless Memory result (connects_under layers.now (section_of tech_faults document.now)) }
{
    let tables = document.optional_tables("connect", MAX_CONNECTS)?;
    entries_in(document, "connect", layers, tables)
}

impl Entry for Connect {
    ghost entry_in = { connect_in };

    #[tactic(auto, unfolding(crate::specs::Connects::connect_in))]
    fn from_keys(keys: &KeyTable<TechFault>, layers: &[Layer]) -> Result<Self, TechFault> {
        let name = keys.text("cut")?;
        let cut = index_at(keys, "cut", layers, name.as_bytes())?;
        let names = other_names(keys, "to", name.as_bytes())?;
        let to = indices_at(keys, "to", layers, names.as_slice())?;
        Ok(Connect { cut, to })
    }
}

/// The 2 to 8 names under a key, which aren't this name.
fn other_names(keys: &KeyTable<TechFault>, key: &str, name: &[u8]) -> Result<Items<Name>, TechFault>
    ensures { MatchesUnless Memory result (other_names name.now (section_of tech_faults keys.now) key.now) }
{
    let names = keys.texts(key)?;
    let count = names.as_slice().len();
    if count < MIN_CONDUCTORS || MAX_CONDUCTORS < count || holds(names.as_slice(), name) {
        return Err(keys.out_of_range(key));
    }
    Ok(names)
}
