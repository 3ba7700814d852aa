ghost use Rattle.std.specs.Prelude.{◌≡◌, ◌<◌, ◌≤◌, ◌+◌, ◌*◌, pos, ◌*ℤ◌};
ghost use Rattle.tech_rules.specs.Facts.{AreSizes};
ghost use Rattle.wire_drawing.specs.Drawing.{pitch};
ghost use Rattle.channel_router.specs.Wires.{channel_height};
ghost use Rattle.sram_netlist.specs.Numbers.{ArePlanNumbers};
ghost use Rattle.sram_plan.specs.PlanNumbers.{numbers_of, organization};
ghost use Rattle.macro_layout.specs.Floorplan.{choice_count, rail_count};

use port_lists::lines_of;
use sram_plan::Plan;
use tech_rules::Wire;

/// How many lines so many bits have: none where there are no bits.
pub fn choices(bits: u32) -> u32
    requires { bits ≤ 3 }
    ensures value { result ≡ choice_count bits }
    ensures few { result ≤ 8 }
{
    if bits == 0 { 0 } else { lines_of(bits) }
}

/// How many rails a bank has.
pub(crate) fn rail_count(plan: &Plan) -> u32
    requires { ArePlanNumbers (numbers_of plan.now) }
    ensures value { result ≡ rail_count (organization plan.now) }
    ensures few { result ≤ 35 }
{
    let lines = choices(plan.groups[0]) + choices(plan.groups[1]) + choices(plan.groups[2]);
    lines + 3 + choices(plan.col_bits)
}

/// The distance from a wire's edge to the same edge of the next wire.
fn pitch(wire: &Wire) -> u64
    requires { AreSizes wire.now }
    ensures value { pos result ≡ pitch wire.now }
    ensures few { result ≤ 131072 }
{
    (wire.width + wire.space) as u64
}

/// So many pitches, in nanometres.
pub fn pitches(count: u32, wire: &Wire) -> u64
    requires sizes { AreSizes wire.now }
    requires few { count ≤ 4096 }
    ensures value { pos result ≡ pos count *ℤ pitch wire.now }
    ensures few { result ≤ count * 131072 }
{
    count as u64 * pitch(wire)
}

/// The height of a channel with so many tracks.
pub(crate) fn channel_height(tracks: u32, wire: &Wire) -> u64
    requires sizes { AreSizes wire.now }
    requires few { tracks ≤ 4096 }
    ensures value { pos result ≡ channel_height wire.now tracks }
    ensures few { result ≤ 65536 + tracks * 131072 }
{
    wire.space as u64 + pitches(tracks, wire)
}

/// So many sides of a cell.
pub(crate) fn extent(count: u32, side: u32) -> u64
    requires few { count ≤ 256 }
    requires side { side ≤ 65536 }
    ensures value { result ≡ count * side }
    ensures few { result ≤ 16777216 }
    ensures some { 0 < count → 0 < side → 0 < result }
{
    count as u64 * side as u64
}
