ghost use Rattle.tech_rules.specs.Fault.{tech_faults};
ghost use Rattle.tech_rules.specs.declared.fault.TechFault.TheVariants.{Memory};
ghost use Rattle.std.specs.Prelude.{◌≡◌, ◌≢◌, IfOk, IfErr};
ghost use Rattle.toml.specs.View.{view};
ghost use Rattle.std.specs.Option.{ForSome};
ghost use Rattle.tech_rules.specs.Facts.{AreSizes, IsTech};
ghost use Rattle.toml_keys.specs.Fault.{MatchesUnless};
ghost use Rattle.tech_rules.specs.Technology.{with_good_wires, tech_in, technology};
ghost use Rattle.toml_keys.specs.Keys.{whole};
ghost use Rattle.toml_keys.specs.Section.{section_of};
ghost use Rattle.tech_rules.specs.declared.fault.TechFault.TheVariants as tech_fault;

use crate::connects::connects_from;
use crate::devices::devices_from;
use crate::fault::TechFault;
use crate::layers::{layer_at, layers_from};
use crate::roles::by_role;
use crate::rules::rules_from;
use crate::tech::Tech;
use crate::wire_rules::bad_layer;
use crate::wires::wire_from;
use or_geom::Name;
use std::alloc::Global;
use toml::Value;
use toml_keys::{KeyTable, document_from};

/// Reads a technology file, which is a TOML document. Its keys are looked at in a fixed order, and the first that isn't
/// as it has to be is the fault: one that is missing, then one of another kind, then one that isn't allowed, then one
/// that names a layer which isn't there. Lengths are whole nanometres. Keys that have no meaning here are passed over.
/// Last, the rules and connections have to allow the wires.
pub fn read_tech(alloc: Global, bytes: &[u8]) -> Result<Tech, TechFault>
    ensures read { IfOk result (λ t. technology bytes.now ≡ Ok t) }
    ensures fault { IfErr result (λ e. e ≢ tech_fault.Memory → technology bytes.now ≡ Err e) }
    ensures good { IfOk result IsTech }
{
    match document_from(alloc, bytes)? {
        Some(document) => tech_from(alloc, &Value::Table(document)),
        None => Err(TechFault::NotToml),
    }
}

/// The technology that a document's keys describe, which are looked at in a fixed order.
fn tech_from(alloc: Global, document: &Value) -> Result<Tech, TechFault>
    ensures given { MatchesUnless Memory result (tech_in (whole tech_faults (view document.now))) }
    ensures good { IfOk result IsTech }
{
    tech_in(&KeyTable::whole(alloc, document))
}

#[tactic(auto, unfolding(crate::specs::Technology::tech_in))]
fn tech_in(document: &KeyTable<TechFault>) -> Result<Tech, TechFault>
    ensures { MatchesUnless Memory result (tech_in (section_of tech_faults document.now)) }
{
    let layers = layers_from(document)?;
    let outline = layer_at(document, "outline", layers.as_slice())?;
    let rules = rules_from(document, layers.as_slice())?;
    let connects = connects_from(document, layers.as_slice())?;
    let wire = wire_from(document, layers.as_slice())?;
    let roles = by_role(document, "role")?;
    let tables = by_role(document, "table")?;
    let devices = devices_from(document, layers.as_slice())?;
    let tech = Tech {
        layers,
        outline,
        rules,
        connects,
        wire,
        roles,
        tables,
        devices,
    };
    with_good_wires(document.alloc(), tech)
}

/// The technology, unless its rules and connections don't allow its wires.
fn with_good_wires(alloc: Global, tech: Tech) -> Result<Tech, TechFault>
    requires { ForSome tech.wire AreSizes }
    ensures { MatchesUnless Memory result (with_good_wires tech) }
{
    if let Some(layer) = bad_layer(&tech) {
        let layer = Name::from_bytes(alloc, layer.name.as_bytes())?;
        return Err(TechFault::BadWire { layer });
    }
    Ok(tech)
}
