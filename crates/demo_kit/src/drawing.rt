ghost use Rattle.std.specs.Prelude.{◌≡◌, map};
ghost use Rattle.demo_kit.specs.Drawing as spec;
ghost use Rattle.demo_kit.specs.DrawnPins.{drawn};

use crate::layer::DemoLayer;
use cell_roles::Role;

/// A rectangle of a cell on a layer, from its lower left to its upper right corner, before it is scaled.
#[derive(Clone, Copy)]
pub struct CellBox {
    pub layer: DemoLayer,
    pub x1: u8,
    pub y1: u8,
    pub x2: u8,
    pub y2: u8,
}

/// A rectangle that is the shape of a pin.
#[derive(Clone, Copy)]
pub struct PinBox {
    pub pin: &'static str,
    pub shape: CellBox,
}

macro_rules! cell_box {
    ($layer:ident, $x1:expr, $y1:expr, $x2:expr, $y2:expr) => {
        CellBox {
            layer: DemoLayer::$layer,
            x1: $x1,
            y1: $y1,
            x2: $x2,
            y2: $y2,
        }
    };
}

macro_rules! pin_box {
    ($pin:literal, $layer:ident, $x1:expr, $y1:expr, $x2:expr, $y2:expr) => {
        PinBox {
            pin: $pin,
            shape: cell_box!($layer, $x1, $y1, $x2, $y2),
        }
    };
}

fn width(role: Role) -> u8
    ensures { result ≡ spec.cell_width role }
{
    match role {
        Role::Inv | Role::Delay => 16,
        Role::Nand2 | Role::Dff => 24,
        _ => 32,
    }
}

/// The outline of a cell.
pub fn outline(role: Role) -> CellBox
    ensures { result ≡ spec.outline_box role }
{
    cell_box!(Outline, 0, 0, width(role), 32)
}

/// The supplies, gnd and then vdd.
pub fn rails(role: Role) -> [PinBox; 2]
    ensures { map drawn result ≡ spec.rail_pins role }
{
    match role {
        // Here vdd is the lower rail.
        Role::Mux | Role::Tie | Role::Write => [
            pin_box!("gnd", M1, 0, 28, width(role), 32),
            pin_box!("vdd", M1, 0, 0, width(role), 4),
        ],
        _ => [
            pin_box!("gnd", M1, 0, 0, width(role), 4),
            pin_box!("vdd", M1, 0, 28, width(role), 32),
        ],
    }
}

// The pins besides the supplies, by role.

const BITCELL: &[PinBox] = &[
    pin_box!("bl", M2, 2, 0, 6, 32),
    pin_box!("br", M2, 26, 0, 30, 32),
    pin_box!("wl", M1, 0, 14, 32, 18),
];

const PRECHARGE: &[PinBox] = &[
    pin_box!("bl", M2, 2, 0, 6, 20),
    pin_box!("br", M2, 26, 0, 30, 20),
    pin_box!("en_bar", M3, 2, 14, 6, 18),
];

const MUX: &[PinBox] = &[
    pin_box!("bl", M2, 2, 20, 6, 32),
    pin_box!("br", M2, 26, 20, 30, 32),
    pin_box!("blo", M4, 2, 0, 6, 8),
    pin_box!("bro", M4, 26, 0, 30, 8),
    pin_box!("sel", M4, 14, 0, 18, 8),
];

const TIE: &[PinBox] = &[
    pin_box!("bl", M2, 2, 12, 6, 32),
    pin_box!("bl", M4, 2, 0, 6, 16),
    pin_box!("br", M2, 26, 12, 30, 32),
    pin_box!("br", M4, 26, 0, 30, 16),
];

const SENSE: &[PinBox] = &[
    pin_box!("bl", M2, 2, 0, 6, 32),
    pin_box!("br", M2, 26, 0, 30, 32),
    pin_box!("dout", M4, 10, 0, 14, 8),
    pin_box!("en", M3, 14, 14, 18, 18),
];

const WRITE: &[PinBox] = &[
    pin_box!("din", M4, 2, 0, 6, 8),
    pin_box!("bl", M2, 2, 20, 6, 32),
    pin_box!("br", M2, 26, 20, 30, 32),
    pin_box!("en", M4, 18, 0, 22, 8),
];

const ROW_NAND2: &[PinBox] = &[
    pin_box!("a", M3, 2, 2, 6, 6),
    pin_box!("b", M3, 2, 10, 6, 14),
    pin_box!("z", M1, 20, 14, 32, 18),
];

const ROW_NAND3: &[PinBox] = &[
    pin_box!("a", M3, 2, 2, 6, 6),
    pin_box!("b", M3, 2, 10, 6, 14),
    pin_box!("c", M3, 2, 18, 6, 22),
    pin_box!("z", M1, 20, 14, 32, 18),
];

const DRIVER: &[PinBox] = &[
    pin_box!("a", M1, 0, 14, 12, 18),
    pin_box!("en", M3, 2, 26, 6, 30),
    pin_box!("z", M1, 20, 14, 32, 18),
];

const NAND2: &[PinBox] = &[
    pin_box!("a", M2, 2, 20, 6, 32),
    pin_box!("b", M2, 10, 20, 14, 32),
    pin_box!("z", M2, 18, 20, 22, 32),
];

const NAND3: &[PinBox] = &[
    pin_box!("a", M2, 2, 20, 6, 32),
    pin_box!("b", M2, 10, 20, 14, 32),
    pin_box!("c", M2, 18, 20, 22, 32),
    pin_box!("z", M2, 26, 20, 30, 32),
];

const DFF: &[PinBox] = &[
    pin_box!("d", M2, 2, 20, 6, 32),
    pin_box!("clk", M2, 10, 20, 14, 32),
    pin_box!("q", M2, 18, 20, 22, 32),
];

const INVERTER: &[PinBox] = &[
    pin_box!("a", M2, 2, 20, 6, 32),
    pin_box!("z", M2, 10, 20, 14, 32),
];

/// The pins besides the supplies.
pub fn signals(role: Role) -> &'static [PinBox]
    ensures { map drawn result.now ≡ spec.signal_pins role }
{
    match role {
        Role::Bitcell => BITCELL,
        Role::Precharge => PRECHARGE,
        Role::Mux => MUX,
        Role::Tie => TIE,
        Role::Sense => SENSE,
        Role::Write => WRITE,
        Role::RowNand2 => ROW_NAND2,
        Role::RowNand3 => ROW_NAND3,
        Role::Driver => DRIVER,
        Role::Nand2 => NAND2,
        Role::Nand3 => NAND3,
        Role::Dff => DFF,
        Role::Inv | Role::Delay => INVERTER,
    }
}

/// The boxes that no pin names: in the tie the bit lines go from metal 2 to metal 4.
pub fn inner_boxes(role: Role) -> &'static [CellBox]
    ensures { result.now ≡ spec.inner_boxes role }
{
    match role {
        Role::Tie => &[
            cell_box!(M3, 2, 12, 6, 16),
            cell_box!(M3, 26, 12, 30, 16),
            cell_box!(Via2, 3, 13, 5, 15),
            cell_box!(Via3, 3, 13, 5, 15),
            cell_box!(Via2, 27, 13, 29, 15),
            cell_box!(Via3, 27, 13, 29, 15),
        ],
        _ => &[],
    }
}
