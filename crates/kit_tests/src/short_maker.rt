use gds_library::Library;
use kit_check::Maker;
use leaf_tables::{Kit, PartFault};
use macro_maker::Assembler;
use netlist::Deck;
use or_geom::Name;
use sram_plan::Plan;
use std::alloc::Global;

/// The most rows of a bank for which `ShortMaker` makes a macro.
const MOST_ROWS: u32 = 32;

/// Makes macros of at most 32 rows as a build does, and says of larger ones that their sense cells are too wide: so
/// that all small macros are looked at in the time of a test.
pub struct ShortMaker;

impl Maker for ShortMaker {
    ghost use Rattle.kit_tests.specs.Short.{IsShortAnswer, one_short_answer};

    ghost answers = { λ maker kit plan name answer. IsShortAnswer kit plan name answer };

    ghost one = { λ maker kit plan name a b is p q. one_short_answer kit plan name a b is p q };

    fn make(
        &self,
        alloc: Global,
        kit: &Kit,
        plan: &Plan,
        name: &Name,
    ) -> Result<(Library, Deck), PartFault> {
        if MOST_ROWS < plan.rows {
            let role = Name::from_bytes(alloc, b"sense")?;
            return Err(PartFault::SliceTooNarrow { role });
        }
        Assembler.make(alloc, kit, plan, name)
    }
}
