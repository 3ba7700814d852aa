ghost use Rattle.tech_rules.specs.Fault.{tech_faults};
ghost use Rattle.tech_rules.specs.declared.fault.TechFault.TheVariants.{Memory};
ghost use Rattle.std.specs.Prelude.{◌≡◌, ◌≤◌, [], ◌∷◌, length};
ghost use Rattle.toml_keys.specs.Fault.{MatchesUnless, ViewMatchesUnless};
ghost use Rattle.toml_keys.specs.Section.{section_of};
ghost use Rattle.tech_rules.specs.Devices.{model_under, third_name, device_in, devices_under};
ghost use Rattle.tech_rules.specs.Names.{are_different};

use crate::entries::{Entry, entries_in};
use crate::fault::TechFault;
use crate::layers::index_at;
use crate::roles::is_cell_name;
use crate::tech::{Device, Layer};
use or_geom::{Items, Name};
use toml_keys::KeyTable;

/// The greatest number of kinds of transistors.
const MAX_DEVICES: usize = 8;

/// The kinds of transistors of the document, if it names any.
pub fn devices_from(
    document: &KeyTable<TechFault>,
    layers: &[Layer],
) -> Result<Items<Device>, TechFault>
    requires { length layers.now ≤ 64 }
    ensures { MatchesUnless Memory result (devices_under layers.now (section_of tech_faults document.now)) }
{
    if !document.has("device") {
        return Ok(Items::new(document.alloc()));
    }
    let tables = document.tables("device", 1, MAX_DEVICES)?;
    entries_in(document, "device", layers, tables)
}

impl Entry for Device {
    ghost entry_in = { device_in };

    #[tactic(auto, unfolding(crate::specs::Devices::device_in))]
    fn from_keys(keys: &KeyTable<TechFault>, layers: &[Layer]) -> Result<Self, TechFault> {
        let model = model_from(keys)?;
        let gate_name = keys.text("gate")?;
        let gate = index_at(keys, "gate", layers, gate_name.as_bytes())?;
        let active_name = keys.text("active")?;
        let active = index_at(keys, "active", layers, active_name.as_bytes())?;
        let by_name = third_name(keys, gate_name, active_name)?;
        let by = index_at(keys, "by", layers, by_name.as_bytes())?;
        Ok(Device {
            model,
            gate,
            active,
            by,
        })
    }
}

fn model_from(keys: &KeyTable<TechFault>) -> Result<Name, TechFault>
    ensures { MatchesUnless Memory result (model_under (section_of tech_faults keys.now)) }
{
    let model = keys.text("model")?;
    if !is_cell_name(model.as_bytes()) {
        return Err(keys.out_of_range("model"));
    }
    Ok(Name::from_bytes(keys.alloc(), model.as_bytes())?)
}

/// The name of a device's third layer, which is neither of the others, and these differ.
fn third_name<'a>(
    keys: &KeyTable<'a, TechFault>,
    gate: &str,
    active: &str,
) -> Result<&'a str, TechFault>
    ensures { ViewMatchesUnless Memory (λ t. t.now) result
        (third_name gate.now active.now (section_of tech_faults keys.now)) }
{
    let by = keys.text("by")?;
    if are_three(gate, active, by) {
        return Ok(by);
    }
    Err(keys.out_of_range("by"))
}

/// Whether the three names differ.
fn are_three(gate: &str, active: &str, by: &str) -> bool
    ensures { result ≡ are_different (gate.now ∷ active.now ∷ by.now ∷ []) }
{
    active != gate && by != gate && by != active
}
