use gds_library::Library;
use leaf_tables::{Kit, PartFault};
use netlist::Deck;
use or_geom::Name;
use sram_plan::Plan;
use std::alloc::Global;

/// Makes the macro of a plan from the leaf cells of a kit: its library, whose structure of this name is the macro, and
/// the subcircuits behind those of the leaf cells; or tells why a part can't be built. Contracts see what it answers,
/// want of memory aside, as a relation, under which there is one answer.
pub trait Maker {
    ghost use Rattle.std.specs.Prelude.{◌≡◌, ◌≢◌, ℕ, List, Result, Ok, Err, IfOk, IfErr, IsTrue};
    ghost use Rattle.gds_library.specs.declared.library.Library.{Library};
    ghost use Rattle.netlist.specs.declared.deck.Deck.{Deck};
    ghost use Rattle.leaf_tables.specs.declared.kit.Kit.{Kit};
    ghost use Rattle.leaf_tables.specs.declared.part.PartFault.{PartFault};
    ghost use Rattle.leaf_tables.specs.declared.part.PartFault.TheVariants as part_fault;
    ghost use Rattle.leaf_tables.specs.Kits.{IsKit};
    ghost use Rattle.sram_netlist.specs.Numbers.{ArePlanNumbers};
    ghost use Rattle.sram_plan.specs.declared.numbers.Plan.{Plan};
    ghost use Rattle.sram_plan.specs.Config.{is_output_name};
    ghost use Rattle.sram_plan.specs.PlanNumbers.{numbers_of};

    ghost answers: { Self → Kit → Plan → List ℕ → Result (Library × Deck) PartFault → Type 0 };

    fn make(
        &self,
        alloc: Global,
        kit: &Kit,
        plan: &Plan,
        name: &Name,
    ) -> Result<(Library, Deck), PartFault>
        requires kit { IsKit kit.now }
        requires plan { ArePlanNumbers (numbers_of plan.now) }
        requires name { IsTrue (is_output_name name.now) }
        ensures made { IfOk result (λ made. answers self.now kit.now plan.now name.now (Ok made)) }
        ensures fault { IfErr result (λ fault. fault ≢ part_fault.Memory
            → answers self.now kit.now plan.now name.now (Err fault)) };

    ghost one: { (maker : Self) (kit : Kit) (plan : Plan) (name : List ℕ) (a b : Result (Library × Deck) PartFault)
        → IsKit kit → answers maker kit plan name a → answers maker kit plan name b → a ≡ b };
}
