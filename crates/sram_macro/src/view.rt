ghost use Rattle.std.specs.Prelude.{◌≡◌, ◌<◌, [], length, map, slice_index_or, IfOk};
ghost use Rattle.std.specs.List.{AllByRecursion};
ghost use Rattle.tech_rules.specs.Facts.{AreSizes};
ghost use Rattle.sram_macro.specs.Extents.{AreNearExtents};
ghost use Rattle.sram_macro.specs.View.{layer_names, macro_view};

use crate::extents::Extents;
use or_geom::{Items, Memory, Name};
use sram_plan::{Abstract, SignalPin};
use std::alloc::Global;
use tech_rules::{Layer, Wire};

/// The name of a layer.
fn layer_name(alloc: Global, layers: &[Layer], index: u16) -> Result<Name, Memory>
    requires { index < length layers.now }
    ensures { IfOk result (λ name. name ≡ slice_index_or (map (λ l. l.name) layers.now) index []) }
{
    Ok(Name::from_bytes(alloc, layers[index as usize].name.as_bytes())?)
}

/// The names of layers.
fn layer_names(alloc: Global, layers: &[Layer], indices: &[u16]) -> Result<Items<Name>, Memory>
    requires { AllByRecursion (λ index. index < length layers.now) indices.now }
    ensures { IfOk result (λ names. names ≡ layer_names layers.now indices.now) }
{
    let mut names = Items::new(alloc);
    let mut rest = indices;
    while let Some((index, others)) = rest.split_first() {
        names.push(layer_name(alloc, layers, *index)?)?;
        rest = others;
    }
    Ok(names)
}

/// The abstract view of a macro with these ends and signal ports.
pub fn macro_view(
    alloc: Global,
    layers: &[Layer],
    name: &Name,
    wire: &Wire,
    ends: &Extents,
    signals: Vec<SignalPin>,
) -> Result<Abstract, Memory>
    requires sizes { AreSizes wire.now }
    requires near { AreNearExtents ends.now }
    requires layers { AllByRecursion (λ index. index < length layers.now) wire.now.metals }
    ensures { IfOk result (λ view. view ≡ macro_view layers.now name.now wire.now ends.now signals.items) }
{
    Ok(Abstract {
        name: Name::from_bytes(alloc, name.as_bytes())?,
        width: ends.width,
        height: ends.height,
        pitch: wire.width + wire.space,
        supply_x: ends.power_x,
        space: wire.space,
        wire: wire.width,
        metals: layer_names(alloc, layers, &wire.metals)?,
        signals: Items::from_vec(signals),
    })
}
