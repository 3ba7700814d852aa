ghost use Rattle.tech_rules.specs.Fault.{tech_faults};
ghost use Rattle.tech_rules.specs.declared.fault.TechFault.TheVariants.{Memory};
ghost use Rattle.std.specs.Prelude.{◌≤◌, codes, length};
ghost use Rattle.toml_keys.specs.Fault.{MatchesUnless};
ghost use Rattle.tech_rules.specs.Rules.{minimum_under, layers_named, width_rule, space_rule, enclose_rule, rule_in};
ghost use Rattle.tech_rules.specs.Rules.{rules_under};
ghost use Rattle.toml_keys.specs.Section.{section_of};

use crate::entries::{Entry, entries_in};
use crate::fault::TechFault;
use crate::layers::{indices_at, layer_at};
use crate::tech::{Layer, Rule};
use or_geom::Items;
use toml_keys::KeyTable;

/// The greatest number of rules.
const MAX_RULES: usize = 256;

/// The greatest number of layers that a rule of enclosure names.
const MAX_ENCLOSING: usize = 8;

/// The greatest minimum of a rule, in nanometres.
const MAX_MINIMUM: i64 = 1_048_576;

/// The design rules of the document.
pub fn rules_from(
    document: &KeyTable<TechFault>,
    layers: &[Layer],
) -> Result<Items<Rule>, TechFault>
    requires { length layers.now ≤ 64 }
    ensures { MatchesUnless Memory result (rules_under layers.now (section_of tech_faults document.now)) }
{
    let tables = document.optional_tables("rule", MAX_RULES)?;
    entries_in(document, "rule", layers, tables)
}

impl Entry for Rule {
    ghost entry_in = { rule_in };

    #[tactic(auto, unfolding(crate::specs::Rules::rule_in))]
    fn from_keys(keys: &KeyTable<TechFault>, layers: &[Layer]) -> Result<Self, TechFault> {
        let kind = keys.text("kind")?;
        if kind == "width" {
            return width_from(keys, layers);
        }
        if kind == "space" {
            return space_from(keys, layers);
        }
        if kind == "enclose" {
            return enclose_from(keys, layers);
        }
        Err(keys.out_of_range("kind"))
    }
}

#[tactic(auto, unfolding(crate::specs::Rules::width_rule))]
fn width_from(keys: &KeyTable<TechFault>, layers: &[Layer]) -> Result<Rule, TechFault>
    requires { length layers.now ≤ 64 }
    ensures { MatchesUnless Memory result (width_rule layers.now (section_of tech_faults keys.now)) }
{
    let layer = layer_at(keys, "layer", layers)?;
    let min = minimum(keys)?;
    Ok(Rule::Width { layer, min })
}

#[tactic(auto, unfolding(crate::specs::Rules::space_rule))]
fn space_from(keys: &KeyTable<TechFault>, layers: &[Layer]) -> Result<Rule, TechFault>
    requires { length layers.now ≤ 64 }
    ensures { MatchesUnless Memory result (space_rule layers.now (section_of tech_faults keys.now)) }
{
    let layer = layer_at(keys, "layer", layers)?;
    let other = layer_at(keys, "other", layers)?;
    let min = minimum(keys)?;
    Ok(Rule::Space { layer, other, min })
}

#[tactic(auto, unfolding(crate::specs::Rules::enclose_rule))]
fn enclose_from(keys: &KeyTable<TechFault>, layers: &[Layer]) -> Result<Rule, TechFault>
    requires { length layers.now ≤ 64 }
    ensures { MatchesUnless Memory result (enclose_rule layers.now (section_of tech_faults keys.now)) }
{
    let layer = layer_at(keys, "layer", layers)?;
    let by = enclosing(keys, layers)?;
    let min = minimum(keys)?;
    Ok(Rule::Enclose { layer, by, min })
}

/// The layers of which one has to enclose another.
fn enclosing(keys: &KeyTable<TechFault>, layers: &[Layer]) -> Result<Items<u16>, TechFault>
    requires { length layers.now ≤ 64 }
    ensures { MatchesUnless Memory result (layers_named 1 8 layers.now (section_of tech_faults keys.now) (codes "by")) }
{
    let names = keys.texts("by")?;
    let names = names.as_slice();
    if names.is_empty() || MAX_ENCLOSING < names.len() {
        return Err(keys.out_of_range("by"));
    }
    indices_at(keys, "by", layers, names)
}

/// The least number of nanometres that a rule asks for.
fn minimum(keys: &KeyTable<TechFault>) -> Result<i64, TechFault>
    ensures { MatchesUnless Memory result (minimum_under (section_of tech_faults keys.now)) }
{
    keys.number("min", 1, MAX_MINIMUM)
}
