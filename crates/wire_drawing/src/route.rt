ghost use Rattle.std.specs.Prelude.{◌<◌, length};
ghost use Rattle.tech_rules.specs.Facts.{AreSizes};
ghost use Rattle.wire_drawing.specs.Drawing.{IsVia, LeavesRoom};
ghost use Rattle.wire_drawing.specs.Spacing.{AreNearNumbers, IsFirstClose};

use or_geom::{Memory, Rect, Shape};
use std::error::Error;
use std::fmt;
use tech_rules::{Wire, margin};

/// A place where a wire joins a vertical rail: the rail's place, from 0, in the list of rails, the lower edge of the
/// wire, and the x at which the wire ends on the right.
#[derive(Clone, Copy, Debug)]
pub struct Tap {
    pub rail: u32,
    pub y: i64,
    pub end: i64,
}

/// Why wires can't be drawn.
#[derive(Debug, Drop)]
pub enum RouteFault {
    /// Two pins of one side of a channel (0 is the top, 1 the bottom) are nearer to each other than the pitch: their x.
    Close { side: u8, first: i64, second: i64 },
    /// Two taps of rails are nearer to each other than the pitch: their y.
    TapsClose { first: i64, second: i64 },
    /// Want of memory.
    Memory,
}

impl fmt::Display for RouteFault {
    fn fmt<W: fmt::Write>(&self, f: &mut fmt::Formatter<W>) -> fmt::Result {
        match self {
            RouteFault::Close {
                side,
                first,
                second,
            } => {
                let side = if *side == 0 { "top" } else { "bottom" };
                write!(
                    f,
                    "pins at {first} and {second} of the {side} are nearer than the pitch"
                )
            }
            RouteFault::TapsClose { first, second } => {
                write!(f, "taps at {first} and {second} are nearer than the pitch")
            }
            RouteFault::Memory => write!(f, "out of memory"),
        }
    }
}

impl Error for RouteFault {}

impl From<Memory> for RouteFault {
    ghost use Rattle.std.specs.Prelude.{◌≡◌};
    ghost use Rattle.wire_drawing.specs.declared.route.RouteFault.TheVariants as route_fault;

    ghost from_gives = { λ _ e. e ≡ route_fault.Memory };

    fn from(_: Memory) -> Self {
        RouteFault::Memory
    }
}

/// The cut between two metals, in the middle of the square of a wire's width with its lower left corner at (`x`, `y`).
/// The cut at place `cut`, from 0, joins the metal at that place and the next.
pub fn via(wire: &Wire, cut: usize, x: i64, y: i64) -> Shape
    requires sizes { AreSizes wire.now }
    requires three { cut < length wire.now.cuts }
    requires room_x { LeavesRoom x }
    requires room_y { LeavesRoom y }
    ensures { IsVia wire.now cut x y result }
{
    let margin = margin(wire);
    let x1 = x + margin;
    let y1 = y + margin;
    Shape {
        layer: wire.cuts[cut],
        rect: Rect {
            x1,
            y1,
            x2: x1 + wire.cut,
            y2: y1 + wire.cut,
        },
    }
}

/// The lowest two of the numbers that are nearer to each other than the pitch, if there are such.
pub fn first_close(mut numbers: Vec<i64>, pitch: i64) -> Option<(i64, i64)>
    requires { AreNearNumbers numbers.items }
    ensures { IsFirstClose pitch numbers.items result }
{
    numbers.sort_unstable();
    for k in 1..numbers.len() {
        let first = numbers[k - 1];
        let second = numbers[k];
        if second - first < pitch {
            return Some((first, second));
        }
    }
    None
}
