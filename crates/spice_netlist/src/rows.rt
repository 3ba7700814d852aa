ghost use Rattle.std.specs.Prelude.{◌≡◌, ◌∷◌, [], ◌<◌, ◌≤◌, ◌+◌, length, map, OnOk};
ghost use Rattle.spice_netlist.specs.Limits.{most_pins};
ghost use Rattle.spice_netlist.specs.Walk.{local};
ghost use Rattle.spice_netlist.specs.Pins.{port_row};
ghost use Rattle.spice_netlist.specs.Rows.{AreRowsOf, AddsRows, net_count};

use crate::number::NetTable;
use netlist::RowPin;
use or_geom::{Memory, Name};
use std::alloc::Global;

/// Rows whose nets are numbered by first appearance, as they come.
#[derive(Drop)]
pub struct RowList {
    rows: Vec<RowPin>,
    nets: NetTable,
}

impl RowList {
    /// No rows.
    pub fn new(alloc: Global) -> Self
        ensures { AreRowsOf [] result }
    {
        RowList {
            rows: Vec::new(alloc),
            nets: NetTable::new(alloc),
        }
    }

    /// Adds a row, with the number of the net of this key.
    pub fn add(
        &mut self,
        alloc: Global,
        path: &[u8],
        leaf: &[u8],
        pin: &[u8],
        net: &[u8],
    ) -> Result<(), Memory>
        requires { net_count self.old < most_pins }
        ensures { OnOk result (AddsRows self.old self.new
            (record { path = path.now; leaf = leaf.now; pin = pin.now; net = local net.now } ∷ [])) }
    {
        let path = Name::from_bytes(alloc, path)?;
        let leaf = Name::from_bytes(alloc, leaf)?;
        let pin = Name::from_bytes(alloc, pin)?;
        let net = self.nets.number(alloc, net)? as u32;
        self.rows.push(RowPin {
            path,
            leaf,
            pin,
            net,
        })?;
        Ok(())
    }

    /// The rows.
    pub fn into_rows(self) -> Vec<RowPin>
        ensures { result ≡ self.rows }
    {
        self.rows
    }
}

/// Adds the rows of the top's ports.
pub fn add_port_rows(alloc: Global, ports: &[Name], rows: &mut RowList) -> Result<(), Memory>
    requires { net_count rows.old + length ports.now ≤ most_pins }
    ensures { OnOk result (AddsRows rows.old rows.new (map port_row ports.now)) }
{
    for port in ports {
        rows.add(alloc, b"", b"", port.as_bytes(), port.as_bytes())?;
    }
    Ok(())
}
