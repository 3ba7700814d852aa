use or_geom::{Items, Name};

/// A layer: its name, the numbers that its shapes have in a GDSII file (LAYER and DATATYPE), and those that its labels
/// have (LAYER and TEXTTYPE). Other parts of a technology name it by its index in the list of layers, from 0.
#[derive(Debug, Drop)]
pub struct Layer {
    pub name: Name,
    pub number: i16,
    pub datatype: i16,
    pub text_number: i16,
    pub texttype: i16,
}

/// A design rule. Its minimum is in nanometres.
#[derive(Debug, Drop)]
pub enum Rule {
    /// The least width of the layer.
    Width {
        layer: u16,
        min: i64,
    },
    /// The least distance of shapes of two layers, or of one, that aren't joined.
    Space {
        layer: u16,
        other: u16,
        min: i64,
    },
    /// How far one of the layers of `by` has to go beyond each shape of the layer.
    Enclose {
        layer: u16,
        by: Items<u16>,
        min: i64,
    },
}

/// A cut layer and the conductors that its shapes connect.
#[derive(Debug, Drop)]
pub struct Connect {
    pub cut: u16,
    pub to: Items<u16>,
}

/// What wires are drawn with, in nanometres: their width, the space between them, the side of a cut, the four metals
/// from the lowest, and the cuts between them.
#[derive(Clone, Copy, Debug)]
pub struct Wire {
    pub width: i64,
    pub space: i64,
    pub cut: i64,
    pub metals: [u16; 4],
    pub cuts: [u16; 3],
}

/// The cell that plays a role.
#[derive(Debug, Drop)]
pub struct RoleName {
    pub role: Name,
    pub cell: Name,
}

/// The rows of a role's table, as they are written.
#[derive(Debug, Drop)]
pub struct RoleRows {
    pub role: Name,
    pub rows: Items<Name>,
}

/// A kind of transistor: the model that a SPICE text names, and the three different layers that its channels lie in.
/// Where a gate crosses active there is a channel, if the `by` layer, as a select or an implant, is there too.
#[derive(Debug, Drop)]
pub struct Device {
    pub model: Name,
    pub gate: u16,
    pub active: u16,
    pub by: u16,
}

/// A technology.
#[derive(Debug, Drop)]
pub struct Tech {
    pub layers: Items<Layer>,
    pub outline: u16,
    pub rules: Items<Rule>,
    pub connects: Items<Connect>,
    pub wire: Option<Wire>,
    pub roles: Items<RoleName>,
    pub tables: Items<RoleRows>,
    pub devices: Items<Device>,
}

fn share<T: Sync>(_shared: &T) {}

/// A technology may be read by several threads at once.
pub fn tech_is_shared(tech: &Tech) {
    share(tech);
}
