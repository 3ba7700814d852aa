ghost use Rattle.std.specs.Prelude.{◌≡◌, ◌*◌, IfOk, IfErr, ◌<◌};
ghost use Rattle.cell_roles.specs.declared.role.Role.TheVariants.{Bitcell, Sense, Write};
ghost use Rattle.cell_roles.specs.Roles.{role_name};
ghost use Rattle.leaf_tables.specs.Kits.{IsKit};
ghost use Rattle.sram_netlist.specs.Organization.{words_per_row};
ghost use Rattle.sram_netlist.specs.Numbers.{ArePlanNumbers};
ghost use Rattle.sram_plan.specs.PlanNumbers.{numbers_of, organization};
ghost use Rattle.floorplan.specs.LayoutOfKit.{layout_kit};
ghost use Rattle.port_data.specs.Column.{IsNarrowFault, AreWideSlices};

use cell_roles::Role;
use floorplan::leaf_width;
use leaf_tables::{Kit, PartFault};
use or_geom::{Memory, Name};
use sram_plan::Plan;
use std::alloc::Global;

/// The width of the columns of a bit.
fn slice_width(kit: &Kit, plan: &Plan) -> u32
    requires kit { IsKit kit.now }
    requires plan { ArePlanNumbers (numbers_of plan.now) }
    ensures { result ≡ words_per_row (organization plan.now) * (layout_kit kit.now).width Bitcell }
{
    plan.wpr * leaf_width(kit, Role::Bitcell)
}

/// A role's name.
fn name_of(alloc: Global, role: Role) -> Result<Name, Memory>
    ensures { IfOk result (λ name. name ≡ role_name role) }
{
    Ok(Name::from_bytes(alloc, role.name().as_bytes())?)
}

/// Refuses a sense cell that is wider than the columns of a bit, or else, where something is written, such a write
/// cell, by the role's name.
pub fn refuse_narrow_slices(alloc: Global, kit: &Kit, plan: &Plan) -> Result<(), PartFault>
    requires kit { IsKit kit.now }
    requires plan { ArePlanNumbers (numbers_of plan.now) }
    ensures fits { IfOk result (λ _. AreWideSlices (organization plan.now) (layout_kit kit.now)) }
    ensures fault { IfErr result (IsNarrowFault (organization plan.now) (layout_kit kit.now)) }
{
    let width = slice_width(kit, plan);
    if leaf_width(kit, Role::Sense) > width {
        let role = name_of(alloc, Role::Sense)?;
        return Err(PartFault::SliceTooNarrow { role });
    }
    if plan.write_size > 0 && leaf_width(kit, Role::Write) > width {
        let role = name_of(alloc, Role::Write)?;
        return Err(PartFault::SliceTooNarrow { role });
    }
    Ok(())
}
