ghost use Rattle.std.specs.Prelude.{◌≡◌};
ghost use Rattle.leaf_tables.specs.Kits.{IsKit};
ghost use Rattle.sram_netlist.specs.Numbers.{ArePlanNumbers};
ghost use Rattle.sram_plan.specs.PlanNumbers.{numbers_of, organization};
ghost use Rattle.floorplan.specs.LayoutOfKit.{layout_kit};
ghost use Rattle.port_data.specs.Pins.{columns_in, AreFewColumns};

use cell_roles::Role;
use floorplan::{choices, leaf_width};
use leaf_tables::Kit;
use sram_plan::Plan;

/// The columns of a bank: how many there are, and how wide each is, in nanometres.
#[derive(Clone, Copy, Debug)]
pub struct Columns {
    /// Bits of a word, and words of a row.
    pub bits: u32,
    pub words: u32,
    /// Columns: one for each bit of each word of a row.
    pub count: u32,
    /// Nets that choose a word of a row: none where a row has one word.
    pub choices: u32,
    pub width: u32,
}

/// The columns of a plan's bank.
pub fn columns_in(kit: &Kit, plan: &Plan) -> Columns
    requires kit { IsKit kit.now }
    requires plan { ArePlanNumbers (numbers_of plan.now) }
    ensures is { result ≡ columns_in (organization plan.now) (layout_kit kit.now) }
    ensures few { AreFewColumns result }
{
    Columns {
        bits: plan.word_size,
        words: plan.wpr,
        count: plan.columns,
        choices: choices(plan.col_bits),
        width: leaf_width(kit, Role::Bitcell),
    }
}
