use cell_hierarchy::FlattenFault;
use gds_library::GdsFault;
use or_geom::Name;
use role_tables::TableFault;
use spice_text::SpiceFault;

/// Why files are no kit: the first of these in the order in which a kit is read. A `role` is named as in the
/// technology.
#[derive(Debug, Drop)]
pub enum KitFault {
    /// The leaf cells' layouts are no library.
    Gds(GdsFault),
    /// Their subcircuits are no deck.
    Spice(SpiceFault),
    /// The technology doesn't say what wires are drawn with.
    NoWire,
    /// A role has no cell, or a table that isn't the role's.
    Table(TableFault),
    /// A role's cell has no flat layout.
    Flatten(FlattenFault),
    /// The layer of outlines has not just one shape, from the origin and with sides of at most 65,536 nanometres; or a
    /// shape on a metal or a cut lies outside it.
    Outline { role: Name },
    /// No subcircuit is named as the cell is, in lower case.
    UnknownSubckt { name: Name },
    /// It hasn't exactly the role's ports in order.
    PortsDiffer { role: Name },
    /// No label of the pin in the cell itself binds a shape.
    PinMissing { role: Name, pin: Name },
    /// For one of its demands none of the shapes that the pin's labels bind is on the layer.
    PinLayer { role: Name, pin: Name },
    /// For one of its demands none of these lies as it has to; or the pin doesn't face another role's.
    EdgePin { role: Name, pin: Name },
    /// The cell isn't as high as those beside it.
    HeightDiffers { role: Name },
    /// The cell isn't as wide as the bitcell.
    WidthDiffers { role: Name },
    /// Memory ran out.
    Memory,
}
