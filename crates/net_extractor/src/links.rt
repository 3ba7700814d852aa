ghost use Rattle.std.specs.Prelude.{◌↔◌, IsTrue, Contains, OnOk};
ghost use Rattle.or_geom.specs.Adds.{Adds};
ghost use Rattle.or_geom.specs.Gathering.{SomeHas};
ghost use Rattle.tech_rules.specs.Touch.{IsCutTo, Joins};

use or_geom::Memory;
use tech_rules::Connect;

/// Whether the connection connects the layer.
pub fn connects(connect: &Connect, layer: u16) -> bool
    ensures { IsTrue result ↔ Contains connect.now.to layer }
{
    connect.to.as_slice().contains(&layer)
}

/// Whether one of the connections connects the layer.
pub fn is_conductor(connections: &[Connect], layer: u16) -> bool
    ensures { IsTrue result ↔ SomeHas (λ connect. Contains connect.to layer) connections.now }
{
    for connect in connections {
        if connects(connect, layer) {
            return true;
        }
    }
    false
}

/// Adds the layers that the connection connects, if the layer is its cut layer.
fn add_connected(connect: &Connect, layer: u16, out: &mut Vec<u16>) -> Result<(), Memory>
    ensures { OnOk result (Adds out.old.items out.new.items (λ other. Joins layer other connect.now)) }
{
    if connect.cut != layer {
        return Ok(());
    }
    Ok(out.extend_from_slice(connect.to.as_slice())?)
}

/// Adds the layers that the cut layer connects.
pub fn add_cut_to(connections: &[Connect], layer: u16, out: &mut Vec<u16>) -> Result<(), Memory>
    ensures { OnOk result (Adds out.old.items out.new.items (IsCutTo connections.now layer)) }
{
    for connect in connections {
        add_connected(connect, layer, out)?;
    }
    Ok(())
}
