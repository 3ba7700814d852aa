ghost use Rattle.std.specs.Prelude.{◌≡◌, IfOk, OnOk};
ghost use Rattle.or_geom.specs.Adds.{Adds};
ghost use Rattle.or_geom.specs.Gathering.{SomeGives};
ghost use Rattle.drawn_devices.specs.Connections.{GivesAlone, GivesConnection, GivesDevice, alone};
ghost use Rattle.drawn_devices.specs.CutShapes.{AreCutConnections};

use crate::diffusion::is_active;
use or_geom::{Items, Memory};
use std::alloc::Global;
use tech_rules::{Connect, Device, Tech};

/// A connection that makes the layer a conductor, and joins nothing that isn't joined on it.
pub fn alone_on(alloc: Global, layer: u16) -> Result<Connect, Memory>
    ensures { IfOk result (λ connect. connect ≡ alone layer) }
{
    let mut to = Items::new(alloc);
    to.push(layer)?;
    Ok(Connect { cut: layer, to })
}

fn add_alone(alloc: Global, layers: &[u16], out: &mut Vec<Connect>) -> Result<(), Memory>
    ensures { OnOk result (Adds out.old.items out.new.items (SomeGives GivesAlone layers.now)) }
{
    for layer in layers {
        out.push(alone_on(alloc, *layer)?)?;
    }
    Ok(())
}

fn copy_of(alloc: Global, connect: &Connect) -> Result<Connect, Memory>
    ensures { IfOk result (λ copy. copy ≡ connect.now) }
{
    let to = Vec::from_slice(alloc, connect.to.as_slice())?;
    Ok(Connect {
        cut: connect.cut,
        to: Items::from_vec(to),
    })
}

/// Adds the connection. One whose cut is an active layer, which is no cut any more, leaves its layers conductors.
fn add_connection(
    alloc: Global,
    devices: &[Device],
    connect: &Connect,
    out: &mut Vec<Connect>,
) -> Result<(), Memory>
    ensures { OnOk result (Adds out.old.items out.new.items (GivesConnection devices.now connect.now)) }
{
    if is_active(devices, connect.cut) {
        add_alone(alloc, connect.to.as_slice(), out)?;
        return Ok(());
    }
    Ok(out.push(copy_of(alloc, connect)?)?)
}

fn add_connections(
    alloc: Global,
    devices: &[Device],
    connects: &[Connect],
    out: &mut Vec<Connect>,
) -> Result<(), Memory>
    ensures { OnOk result (Adds out.old.items out.new.items (SomeGives (GivesConnection devices.now) connects.now)) }
{
    for connect in connects {
        add_connection(alloc, devices, connect, out)?;
    }
    Ok(())
}

fn add_devices(alloc: Global, devices: &[Device], out: &mut Vec<Connect>) -> Result<(), Memory>
    ensures { OnOk result (Adds out.old.items out.new.items (SomeGives GivesDevice devices.now)) }
{
    for device in devices {
        out.push(alone_on(alloc, device.active)?)?;
    }
    Ok(())
}

/// The connections among the cut shapes of a cell.
pub fn cut_connections(alloc: Global, tech: &Tech) -> Result<Vec<Connect>, Memory>
    ensures { IfOk result (λ connections. AreCutConnections tech.now connections.items) }
{
    let devices = tech.devices.as_slice();
    let mut out = Vec::new(alloc);
    add_connections(alloc, devices, tech.connects.as_slice(), &mut out)?;
    add_devices(alloc, devices, &mut out)?;
    Ok(out)
}
