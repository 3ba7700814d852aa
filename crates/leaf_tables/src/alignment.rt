ghost use Rattle.std.specs.Prelude.{◌≡◌, map};
ghost use Rattle.leaf_tables.specs.Alignment.{heights_equal, plain_facing, pins_face, widths_equal};

use PinEdge::*;
use cell_roles::Role::{self, *};

/// Which coordinate of two pins has to be equal: the left end or the lower end.
#[derive(Clone, Copy, PartialEq, Eq, Debug)]
pub enum PinEdge {
    Left,
    Low,
}

/// A role's pin and another role's that it has to face, and with which end.
#[derive(Clone, Copy, Debug)]
pub(crate) struct Facing(
    pub Role,
    pub &'static str,
    pub Role,
    pub &'static str,
    pub PinEdge,
);

/// Each role whose cell has to be as high as another's, and that other role.
pub(crate) fn height_pairs() -> &'static [(Role, Role)]
    ensures { result.now ≡ heights_equal }
{
    &[
        (RowNand2, Bitcell),
        (RowNand3, Bitcell),
        (Driver, Bitcell),
        (Nand3, Nand2),
        (Inv, Nand2),
        (Dff, Nand2),
        (Delay, Nand2),
    ]
}

/// Each role whose cell has to be as wide as another's, and that other role.
pub(crate) fn width_pairs() -> &'static [(Role, Role)]
    ensures { result.now ≡ widths_equal }
{
    &[(Precharge, Bitcell), (Mux, Bitcell), (Tie, Bitcell)]
}

/// The pins that have to face each other. Of several shapes of a pin the first counts, which is the tie's on metal 2.
pub(crate) fn facing_pins() -> &'static [Facing]
    ensures { map plain_facing result.now ≡ pins_face }
{
    &[
        Facing(Precharge, "bl", Bitcell, "bl", Left),
        Facing(Precharge, "br", Bitcell, "br", Left),
        Facing(Mux, "bl", Bitcell, "bl", Left),
        Facing(Mux, "br", Bitcell, "br", Left),
        Facing(Tie, "bl", Bitcell, "bl", Left),
        Facing(Tie, "br", Bitcell, "br", Left),
        Facing(Write, "bl", Sense, "bl", Left),
        Facing(Write, "br", Sense, "br", Left),
        Facing(RowNand2, "z", Driver, "a", Low),
        Facing(RowNand3, "z", Driver, "a", Low),
        Facing(Driver, "z", Bitcell, "wl", Low),
    ]
}
