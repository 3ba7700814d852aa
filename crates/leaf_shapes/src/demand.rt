ghost use Rattle.std.specs.Prelude.{◌≡◌, map};
ghost use Rattle.leaf_shapes.specs.Demands.{metal_layer, plain_demand, role_demands};

use crate::fit::Fit::{self, *};
use Metal::*;
use cell_roles::Role;
use tech_rules::Wire;

/// One of a technology's four metals, from the lowest.
#[derive(Clone, Copy, PartialEq, Eq, Debug)]
pub enum Metal {
    M1,
    M2,
    M3,
    M4,
}

impl Metal {
    /// The place of the metal's layer in the technology's list.
    pub fn layer(self, wire: &Wire) -> u16
        ensures { result ≡ metal_layer wire.now self }
    {
        match self {
            M1 => wire.metals[0],
            M2 => wire.metals[1],
            M3 => wire.metals[2],
            M4 => wire.metals[3],
        }
    }
}

/// What a cell has to draw for a pin: a shape on this metal, which lies in the cell so.
#[derive(Clone, Copy, Debug)]
pub struct PinRequirement {
    pub pin: &'static str,
    pub metal: Metal,
    pub fit: Fit,
}

/// A requirement, as one line of a list.
macro_rules! requirement {
    ($pin:literal, $metal:ident, $fit:ident) => {
        PinRequirement {
            pin: $pin,
            metal: $metal,
            fit: $fit,
        }
    };
}

/// What a cell of the role has to draw for its pins: first for the signals, then the rails. Those for one pin stand
/// beside each other.
pub fn demands(role: Role) -> &'static [PinRequirement]
    ensures { map plain_demand result.now ≡ role_demands role }
{
    match role {
        Role::Bitcell => &[
            requirement!("bl", M2, TopAndBottom),
            requirement!("br", M2, TopAndBottom),
            requirement!("wl", M1, LeftAndRight),
            requirement!("vdd", M1, UpperRail),
            requirement!("gnd", M1, LowerRail),
        ],
        Role::Precharge => &[
            requirement!("bl", M2, Bottom),
            requirement!("br", M2, Bottom),
            requirement!("en_bar", M3, Anywhere),
            requirement!("vdd", M1, UpperRail),
            requirement!("gnd", M1, LowerRail),
        ],
        Role::Mux => &[
            requirement!("bl", M2, Top),
            requirement!("br", M2, Top),
            requirement!("blo", M4, Bottom),
            requirement!("bro", M4, Bottom),
            requirement!("sel", M4, Bottom),
            requirement!("vdd", M1, LowerRail),
            requirement!("gnd", M1, UpperRail),
        ],
        Role::Tie => &[
            requirement!("bl", M2, Top),
            requirement!("bl", M4, Bottom),
            requirement!("br", M2, Top),
            requirement!("br", M4, Bottom),
            requirement!("vdd", M1, LowerRail),
            requirement!("gnd", M1, UpperRail),
        ],
        Role::Sense => &[
            requirement!("bl", M2, TopAndBottom),
            requirement!("br", M2, TopAndBottom),
            requirement!("dout", M4, Bottom),
            requirement!("en", M3, Anywhere),
            requirement!("vdd", M1, UpperRail),
            requirement!("gnd", M1, LowerRail),
        ],
        Role::Write => &[
            requirement!("din", M4, Bottom),
            requirement!("bl", M2, Top),
            requirement!("br", M2, Top),
            requirement!("en", M4, Bottom),
            requirement!("vdd", M1, LowerRail),
            requirement!("gnd", M1, UpperRail),
        ],
        Role::RowNand2 => &[
            requirement!("a", M3, Anywhere),
            requirement!("b", M3, Anywhere),
            requirement!("z", M1, Right),
            requirement!("vdd", M1, UpperRail),
            requirement!("gnd", M1, LowerRail),
        ],
        Role::RowNand3 => &[
            requirement!("a", M3, Anywhere),
            requirement!("b", M3, Anywhere),
            requirement!("c", M3, Anywhere),
            requirement!("z", M1, Right),
            requirement!("vdd", M1, UpperRail),
            requirement!("gnd", M1, LowerRail),
        ],
        Role::Driver => &[
            requirement!("a", M1, Left),
            requirement!("en", M3, Anywhere),
            requirement!("z", M1, Right),
            requirement!("vdd", M1, UpperRail),
            requirement!("gnd", M1, LowerRail),
        ],
        Role::Nand2 => &[
            requirement!("a", M2, Top),
            requirement!("b", M2, Top),
            requirement!("z", M2, Top),
            requirement!("vdd", M1, UpperRail),
            requirement!("gnd", M1, LowerRail),
        ],
        Role::Nand3 => &[
            requirement!("a", M2, Top),
            requirement!("b", M2, Top),
            requirement!("c", M2, Top),
            requirement!("z", M2, Top),
            requirement!("vdd", M1, UpperRail),
            requirement!("gnd", M1, LowerRail),
        ],
        Role::Inv | Role::Delay => &[
            requirement!("a", M2, Top),
            requirement!("z", M2, Top),
            requirement!("vdd", M1, UpperRail),
            requirement!("gnd", M1, LowerRail),
        ],
        Role::Dff => &[
            requirement!("d", M2, Top),
            requirement!("clk", M2, Top),
            requirement!("q", M2, Top),
            requirement!("vdd", M1, UpperRail),
            requirement!("gnd", M1, LowerRail),
        ],
    }
}
