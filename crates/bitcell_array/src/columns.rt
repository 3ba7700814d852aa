ghost use Rattle.std.specs.Prelude.{◌≡◌, ◌≤◌, ◌+◌, ◌*◌, ◌++◌, ℕ, pos, ◌+ℤ◌, IfOk, OnOk};
ghost use Rattle.or_geom.specs.Distance.{IsReachable};
ghost use Rattle.leaf_tables.specs.Kits.{IsKit};
ghost use Rattle.leaf_tables.specs.declared.part.Edge.{Edge};
ghost use Rattle.sram_netlist.specs.InstanceList.{tabulate_lists};
ghost use Rattle.sram_netlist.specs.Numbers.{ArePlanNumbers};
ghost use Rattle.sram_netlist.specs.Organization.{columns_of};
ghost use Rattle.sram_plan.specs.PlanNumbers.{numbers_of, organization};
ghost use Rattle.port_lists.specs.Spelled.{spelled};
ghost use Rattle.floorplan.specs.Sides.{AreLeafSides, AreSidesOf};
ghost use Rattle.floorplan.specs.LayoutOfKit.{layout_kit};
ghost use Rattle.part_edges.specs.PartPins.{edge_at};
ghost use Rattle.bitcell_array.specs.Columns.{column_edges, AreColumnEdges};

use cell_roles::Role;
use floorplan::{LeafSides, column_x};
use leaf_tables::{Edge, Kit, LeafPin, leaf_of};
use or_geom::{Items, Memory};
use part_edges::{edge_at, sorted_edges};
use port_lists::{Spelling, spell};
use sram_plan::Plan;
use std::alloc::Global;

/// The edges of the columns, at one side of the array.
pub fn column_edges(
    alloc: Global,
    kit: &Kit,
    plan: &Plan,
    sides: &LeafSides,
) -> Result<Items<Edge>, Memory>
    requires kit { IsKit kit.now }
    requires plan { ArePlanNumbers (numbers_of plan.now) }
    requires sides { AreLeafSides sides.now }
    requires of { AreSidesOf (organization plan.now) (layout_kit kit.now) sides.now }
    ensures { IfOk result (AreColumnEdges kit.now (organization plan.now)) }
{
    let pins = leaf_of(kit, Role::Bitcell).pins.as_slice();
    let left = &pins[0];
    let right = &pins[1];
    let from = sides.gate_width + sides.driver_width;
    let mut edges = Vec::new(alloc);
    add_columns(alloc, plan, from, sides.bit_width, left, right, &mut edges)?;
    Ok(sorted_edges(edges))
}

/// Adds the edges of the columns, of which the first begins at `from`. `left` and `right` are the bit lines of the
/// bitcell.
fn add_columns(
    alloc: Global,
    plan: &Plan,
    from: u32,
    width: u32,
    left: &LeafPin,
    right: &LeafPin,
    edges: &mut Vec<Edge>,
) -> Result<(), Memory>
    requires plan { ArePlanNumbers (numbers_of plan.now) }
    requires from { from ≤ 131072 }
    requires width { width ≤ 65536 }
    requires left { IsReachable left.now.rect }
    requires right { IsReachable right.now.rect }
    ensures { OnOk result (edges.new.items ≡ edges.old.items ++ tabulate_lists (columns_of (organization plan.now))
        (column_edges from width left.now.rect.x1 right.now.rect.x1)) }
{
    for column in 0..plan.columns {
        add_column(
            alloc,
            column,
            column_x(from, column, width),
            left,
            right,
            edges,
        )?;
    }
    Ok(())
}

/// Adds the edges of a column that begins at `x`.
fn add_column(
    alloc: Global,
    column: u32,
    x: u32,
    left: &LeafPin,
    right: &LeafPin,
    edges: &mut Vec<Edge>,
) -> Result<(), Memory>
    requires left { IsReachable left.now.rect }
    requires right { IsReachable right.now.rect }
    ensures { OnOk result ((from width : ℕ) → x ≡ from + column * width
        → edges.new.items ≡ edges.old.items ++ column_edges from width left.now.rect.x1 right.now.rect.x1 column) }
{
    edges.push(line_edge(alloc, Spelling::Numbered(b"bl", column), x, left)?)?;
    edges.push(line_edge(alloc, Spelling::Numbered(b"br", column), x, right)?)?;
    Ok(())
}

/// The edge of a bit line of a bitcell that begins at `x`.
fn line_edge(alloc: Global, net: Spelling, x: u32, line: &LeafPin) -> Result<Edge, Memory>
    requires { IsReachable line.now.rect }
    ensures { IfOk result (λ edge. edge ≡ edge_at (spelled net) (pos x +ℤ line.now.rect.x1)) }
{
    Ok(edge_at(spell(alloc, net)?, i64::from(x) + line.rect.x1))
}
