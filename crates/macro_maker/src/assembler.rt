use gds_library::Library;
use kit_check::Maker;
use leaf_tables::{Kit, PartFault};
use netlist::Deck;
use or_geom::Name;
use sram_macro::{Macro, assemble};
use sram_plan::Plan;
use std::alloc::Global;

/// Makes macros as a build does. It gives up their views and their tracks.
pub struct Assembler;

impl Maker for Assembler {
    ghost use Rattle.macro_maker.specs.Assembled.{IsAssembled};
    ghost use Rattle.macro_maker.specs.OneAssembled.{one_assembled};

    ghost answers = { λ maker kit plan name answer. IsAssembled kit plan name answer };

    ghost one = { λ maker kit plan name a b is p q. one_assembled kit plan name a b is p q };

    fn make(
        &self,
        alloc: Global,
        kit: &Kit,
        plan: &Plan,
        name: &Name,
    ) -> Result<(Library, Deck), PartFault> {
        let Macro { lib, deck, .. } = assemble(alloc, kit, plan, name)?;
        Ok((lib, deck))
    }
}
