ghost use Rattle.tech_rules.specs.Fault.{tech_faults};
ghost use Rattle.tech_rules.specs.declared.fault.TechFault.TheVariants.{Memory};
ghost use Rattle.std.specs.Prelude.{◌≡◌, ◌≤◌, ◌<◌, [], map, length, position, IfOk, IfSome};
ghost use Rattle.std.specs.List.{list_all, list_any};
ghost use Rattle.toml.specs.View.{view};
ghost use Rattle.toml_keys.specs.Fault.{MatchesUnless, in_turn};
ghost use Rattle.or_geom.specs.Texts.{is_word_byte};
ghost use Rattle.tech_rules.specs.Layers.{is_word, is_named, name_under, short_in, pair_of};
ghost use Rattle.tech_rules.specs.Layers.{numbers_under, text_numbers, layer_of, layers_under, layer_index_of};
ghost use Rattle.tech_rules.specs.Layers.{layer_under, layer_indices_of};
ghost use Rattle.toml_keys.specs.Section.{section_of};

use crate::fault::TechFault;
use crate::tech::Layer;
use or_geom::{Items, Name};
use toml::Value;
use toml_keys::{KeyTable, in_range};

/// The greatest number of layers.
const MAX_LAYERS: usize = 64;

/// The greatest length of a layer's name.
const MAX_NAME_LENGTH: usize = 32;

/// The greatest number of a layer, a datatype or a texttype in a GDSII file.
const MAX_GDS_NUMBER: i64 = 32_767;

/// A layer number and the datatype or texttype beside it.
#[derive(Clone, Copy)]
struct GdsNumbers {
    number: i16,
    kind: i16,
}

/// The layers of the document.
pub fn layers_from(document: &KeyTable<TechFault>) -> Result<Items<Layer>, TechFault>
    ensures given { MatchesUnless Memory result (layers_under (section_of tech_faults document.now)) }
    ensures few { IfOk result (λ l. length l ≤ 64) }
{
    let tables = document.tables("layer", 1, MAX_LAYERS)?;
    layers_in(document, tables)
}

fn layers_in(document: &KeyTable<TechFault>, tables: &[Value]) -> Result<Items<Layer>, TechFault>
    requires { length tables.now ≤ 64 }
    ensures given { MatchesUnless Memory result (in_turn (layer_of (section_of tech_faults document.now)) []
        (map view tables.now)) }
    ensures few { IfOk result (λ l. length l ≤ 64) }
{
    let mut layers = Items::new(document.alloc());
    for table in tables {
        let layer = layer_from(document, layers.as_slice(), table)?;
        layers.push(layer)?;
    }
    Ok(layers)
}

/// One layer, after those before it.
#[tactic(auto, unfolding(crate::specs::Layers::layer_of))]
fn layer_from(
    document: &KeyTable<TechFault>,
    before: &[Layer],
    table: &Value,
) -> Result<Layer, TechFault>
    ensures { MatchesUnless Memory result (layer_of (section_of tech_faults document.now) before.now (view table.now)) }
{
    let keys = document.item("layer", before.len(), table)?;
    let name = name_from(&keys, before)?;
    let gds = numbers_at(&keys, "gds")?;
    let text = label_numbers(&keys, gds)?;
    Ok(Layer {
        name,
        number: gds.number,
        datatype: gds.kind,
        text_number: text.number,
        texttype: text.kind,
    })
}

#[tactic(auto, unfolding(crate::specs::Layers::name_under))]
fn name_from(keys: &KeyTable<TechFault>, before: &[Layer]) -> Result<Name, TechFault>
    ensures { MatchesUnless Memory result (name_under before.now (section_of tech_faults keys.now)) }
{
    let text = keys.text("name")?;
    if !is_word(text.as_bytes()) || is_taken(before, text.as_bytes()) {
        return Err(keys.out_of_range("name"));
    }
    Ok(Name::from_bytes(keys.alloc(), text.as_bytes())?)
}

fn is_word(text: &[u8]) -> bool
    ensures { result ≡ is_word text.now }
{
    !text.is_empty() && text.len() <= MAX_NAME_LENGTH && are_word_bytes(text)
}

fn are_word_bytes(text: &[u8]) -> bool
    ensures { result ≡ list_all is_word_byte text.now }
{
    text.iter().all(|b| matches!(*b, b'0'..=b'9' | b'A'..=b'Z' | b'a'..=b'z' | b'_'))
}

fn is_taken(layers: &[Layer], name: &[u8]) -> bool
    ensures { result ≡ list_any (is_named name.now) layers.now }
{
    layers.iter().any(|layer| layer.name.is(name))
}

/// The numbers of a layer's labels, which are those of its shapes unless the file gives others.
fn label_numbers(keys: &KeyTable<TechFault>, gds: GdsNumbers) -> Result<GdsNumbers, TechFault>
    ensures { MatchesUnless Memory result (text_numbers (section_of tech_faults keys.now) gds) }
{
    if keys.has("text") {
        return numbers_at(keys, "text");
    }
    Ok(gds)
}

#[tactic(auto, unfolding(crate::specs::Layers::numbers_under))]
fn numbers_at(keys: &KeyTable<TechFault>, key: &str) -> Result<GdsNumbers, TechFault>
    ensures { MatchesUnless Memory result (numbers_under (section_of tech_faults keys.now) key.now) }
{
    let values = keys.numbers(key)?;
    match pair_from(values) {
        Some(numbers) => Ok(numbers),
        None => Err(keys.out_of_range(key)),
    }
}

fn pair_from(values: &[Value]) -> Option<GdsNumbers>
    ensures { result ≡ pair_of (map view values.now) }
{
    let [a, b] = values else {
        return None;
    };
    let number = short_from(a)?;
    let kind = short_from(b)?;
    Some(GdsNumbers { number, kind })
}

/// A number of a layer, a datatype or a texttype in a GDSII file.
fn short_from(value: &Value) -> Option<i16>
    ensures { result ≡ short_in (view value.now) }
{
    let number = in_range(value.as_integer()?, 0, MAX_GDS_NUMBER)?;
    Some(number as i16)
}

/// The index of the layer that a key names.
pub fn layer_at(keys: &KeyTable<TechFault>, key: &str, layers: &[Layer]) -> Result<u16, TechFault>
    requires { length layers.now ≤ 64 }
    ensures { MatchesUnless Memory result (layer_under layers.now (section_of tech_faults keys.now) key.now) }
{
    let name = keys.text(key)?;
    index_at(keys, key, layers, name.as_bytes())
}

/// The index of the layer of this name, which a key gives.
pub fn index_at(
    keys: &KeyTable<TechFault>,
    key: &str,
    layers: &[Layer],
    name: &[u8],
) -> Result<u16, TechFault>
    requires { length layers.now ≤ 64 }
    ensures { MatchesUnless Memory result
        (layer_index_of layers.now (section_of tech_faults keys.now) key.now name.now) }
{
    match index_named(layers, name) {
        Some(index) => Ok(index),
        None => Err(TechFault::UnknownLayer {
            key: keys.key(key)?,
        }),
    }
}

fn index_named(layers: &[Layer], name: &[u8]) -> Option<u16>
    requires { length layers.now ≤ 64 }
    ensures { result ≡ position (is_named name.now) layers.now }
{
    match first_named(layers, name) {
        Some(index) => Some(index as u16),
        None => None,
    }
}

fn first_named(layers: &[Layer], name: &[u8]) -> Option<usize>
    ensures first { result ≡ position (is_named name.now) layers.now }
    ensures below { IfSome result (λ i. i < length layers.now) }
{
    layers.iter().position(|layer| layer.name.is(name))
}

/// The indices of the layers of these names.
pub fn indices_at(
    keys: &KeyTable<TechFault>,
    key: &str,
    layers: &[Layer],
    names: &[Name],
) -> Result<Items<u16>, TechFault>
    requires { length layers.now ≤ 64 }
    ensures as_many { IfOk result (λ p. length p ≡ length names.now) }
    ensures given { MatchesUnless Memory result
        (layer_indices_of layers.now (section_of tech_faults keys.now) key.now names.now) }
{
    let mut indices = Items::new(keys.alloc());
    for name in names {
        let index = index_at(keys, key, layers, name.as_bytes())?;
        indices.push(index)?;
    }
    Ok(indices)
}
