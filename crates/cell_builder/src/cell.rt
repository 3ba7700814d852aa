ghost use Rattle.std.specs.Prelude.{◌≡◌, OnOk, OnErr};
ghost use Rattle.cell_builder.specs.Additions.{add_instance, add_wire, add_label};

use or_geom::{Items, Memory, Name, Place, Point, Shape};

/// An instance of a cell within another: its name, the name of its cell, and its place in the other's coordinates.
#[derive(Debug, Drop)]
pub struct PlacedInstance {
    pub name: Name,
    pub of: Name,
    pub place: Place,
}

/// A label of a cell: the place of its layer in the technology's list, its point and its text.
#[derive(Debug, Drop)]
pub struct PlacedLabel {
    pub layer: u16,
    pub at: Point,
    pub text: Name,
}

/// A cell that is drawn as instances, wires and labels.
#[derive(Debug, Drop)]
pub struct DrawnCell {
    pub name: Name,
    pub instances: Items<PlacedInstance>,
    pub wires: Items<Shape>,
    pub labels: Items<PlacedLabel>,
}

impl DrawnCell {
    /// Adds an instance. Where memory is wanting nothing is added.
    pub fn push_instance(&mut self, instance: PlacedInstance) -> Result<(), Memory>
        ensures ok { OnOk result (self.new ≡ add_instance instance self.old) }
        ensures err { OnErr result (self.new ≡ self.old) }
    {
        self.instances.push(instance)
    }

    /// Adds a wire. Where memory is wanting nothing is added.
    pub fn push_wire(&mut self, wire: Shape) -> Result<(), Memory>
        ensures ok { OnOk result (self.new ≡ add_wire wire self.old) }
        ensures err { OnErr result (self.new ≡ self.old) }
    {
        self.wires.push(wire)
    }

    /// Adds a label. Where memory is wanting nothing is added.
    pub fn push_label(&mut self, label: PlacedLabel) -> Result<(), Memory>
        ensures ok { OnOk result (self.new ≡ add_label label self.old) }
        ensures err { OnErr result (self.new ≡ self.old) }
    {
        self.labels.push(label)
    }
}
