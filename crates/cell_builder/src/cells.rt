ghost use Rattle.std.specs.Prelude.{◌≡◌, ◌<◌, ◌^◌, length, IfOk, OnOk, OnErr};
ghost use Rattle.std.specs.List.{AllByRecursion};
ghost use Rattle.cell_builder.specs.Flat.{HasLayers};
ghost use Rattle.cell_builder.specs.Finish.{IsMade, IsLibraryOf};
ghost use Rattle.cell_builder.specs.CellList.{no_cells, with_structures, with_drawn, with_cell, with_change};
ghost use Rattle.cell_builder.specs.Additions.{add_instance, add_wire, add_label, instance_at, label_at};

use crate::cell::{DrawnCell, PlacedInstance, PlacedLabel};
use crate::copy::name_copy;
use crate::structure::structure;
use gds_library::{Library, Structure};
use gds_stream::structures_copy;
use or_geom::{Items, Memory, Name, Place, Point, Shape};
use std::alloc::Global;
use std::marker::Model;
use tech_rules::{Layer, Tech};

/// Builds a GDS library cell by cell: each cell gets instances, wires and labels, and may refer to the other cells and
/// to the structures of adopted libraries. Coordinates are in nanometres. A call that runs out of memory changes
/// nothing.
#[derive(Drop)]
pub struct Cells {
    alloc: Global,
    adopted: Vec<Structure>,
    cells: Vec<DrawnCell>,
}

impl Model for Cells {
    ghost use Rattle.cell_builder.specs.CellList.{CellList};

    ghost Value = { CellList };

    ghost view = { λ c. record { adopted = c.adopted.items; cells = c.cells.items } };
}

impl Cells {
    /// No cells yet. The allocator is kept for all that is added.
    pub fn new(alloc: Global) -> Result<Cells, Memory>
        ensures { IfOk result (λ cells. cells ≡ no_cells) }
    {
        Ok(Cells {
            alloc,
            adopted: Vec::new(alloc),
            cells: Vec::new(alloc),
        })
    }

    /// Takes over the structures of a library.
    pub fn adopt(&mut self, lib: &Library) -> Result<(), Memory>
        ensures ok { OnOk result (self.new ≡ with_structures lib.now.structs self.old) }
        ensures err { OnErr result (self.new ≡ self.old) }
    {
        let mut copies = structures_copy(self.alloc, lib.structs.as_slice())?;
        self.adopted.append(&mut copies)?;
        Ok(())
    }

    /// Begins a cell, and answers its index.
    pub fn cell(&mut self, name: &Name) -> Result<u32, Memory>
        requires few { length self.old.cells < 2 ^ 32 }
        ensures index { IfOk result (λ index. index ≡ length self.old.cells) }
        ensures ok { OnOk result (self.new ≡ with_cell name.now self.old) }
        ensures err { OnErr result (self.new ≡ self.old) }
    {
        let index = self.cells.len() as u32;
        let name = name_copy(self.alloc, name)?;
        self.cells.push(DrawnCell {
            name,
            instances: Items::new(self.alloc),
            wires: Items::new(self.alloc),
            labels: Items::new(self.alloc),
        })?;
        Ok(index)
    }

    /// Adds a cell that is drawn already, and answers its index.
    pub fn draw(&mut self, cell: DrawnCell) -> Result<u32, Memory>
        requires few { length self.old.cells < 2 ^ 32 }
        ensures index { IfOk result (λ index. index ≡ length self.old.cells) }
        ensures ok { OnOk result (self.new ≡ with_drawn cell self.old) }
        ensures err { OnErr result (self.new ≡ self.old) }
    {
        let place = self.cells.len() as u32;
        self.cells.push(cell)?;
        Ok(place)
    }

    /// Places an instance of the cell or structure `of` in a cell.
    pub fn place(&mut self, cell: u32, inst: &Name, of: &Name, at: Place) -> Result<(), Memory>
        requires made { cell < length self.old.cells }
        ensures ok { OnOk result (self.new
            ≡ with_change cell (add_instance (instance_at inst.now of.now at)) self.old) }
        ensures err { OnErr result (self.new ≡ self.old) }
    {
        let name = name_copy(self.alloc, inst)?;
        let of = name_copy(self.alloc, of)?;
        self.cells[cell as usize].push_instance(PlacedInstance {
            name,
            of,
            place: at,
        })
    }

    /// Draws a wire in a cell.
    pub fn wire(&mut self, cell: u32, shape: Shape) -> Result<(), Memory>
        requires made { cell < length self.old.cells }
        ensures ok { OnOk result (self.new ≡ with_change cell (add_wire shape) self.old) }
        ensures err { OnErr result (self.new ≡ self.old) }
    {
        self.cells[cell as usize].push_wire(shape)
    }

    /// Writes a label in a cell. The layer is an index into the technology's layers.
    pub fn text(&mut self, cell: u32, layer: u16, at: Point, name: &Name) -> Result<(), Memory>
        requires made { cell < length self.old.cells }
        ensures ok { OnOk result (self.new ≡ with_change cell (add_label (label_at layer at name.now)) self.old) }
        ensures err { OnErr result (self.new ≡ self.old) }
    {
        let text = name_copy(self.alloc, name)?;
        self.cells[cell as usize].push_label(PlacedLabel { layer, at, text })
    }

    /// The library of this name: the structures that were taken over, and one for each cell. Where memory is wanting
    /// nothing is given back.
    pub fn finish(self, name: &Name, tech: &Tech) -> Result<Library, Memory>
        requires layers { AllByRecursion (HasLayers tech.now.layers) self.cells }
        ensures { IfOk result (IsLibraryOf tech.now.layers self name.now) }
    {
        let Cells {
            alloc,
            adopted,
            cells,
        } = self;
        let name = name_copy(alloc, name)?;
        let structs = with_finished(alloc, tech.layers.as_slice(), adopted, &cells)?;
        Ok(Library {
            name,
            structs: Items::from_vec(structs),
        })
    }
}

/// The structures, and one more for each cell.
fn with_finished(
    alloc: Global,
    layers: &[Layer],
    adopted: Vec<Structure>,
    cells: &[DrawnCell],
) -> Result<Vec<Structure>, Memory>
    requires { AllByRecursion (HasLayers layers.now) cells.now }
    ensures { IfOk result (λ structs. IsMade layers.now adopted.items cells.now structs.items) }
{
    let mut structs = adopted;
    let mut rest = cells;
    while let Some((cell, others)) = rest.split_first() {
        rest = others;
        structs.push(structure(alloc, layers, cell)?)?;
    }
    Ok(structs)
}
