ghost use Rattle.std.specs.Prelude.{◌≡◌, ◌↔◌, ◌≤ℤ◌, ◌+ℤ◌, ◌-ℤ◌, IsTrue, Some};
ghost use Rattle.cell_roles.specs.declared.role.Role.TheVariants.{Inv, Nand2, Nand3};
ghost use Rattle.tech_rules.specs.declared.tech.Wire.{Wire};
ghost use Rattle.tech_rules.specs.Facts.{AreSizes};
ghost use Rattle.leaf_tables.specs.declared.kit.Leaf.{Leaf};
ghost use Rattle.leaf_tables.specs.Alignment.{leaf_in};
ghost use Rattle.leaf_tables.specs.Kits.{IsKit};
ghost use Rattle.kit_rules.specs.Reach.{IsAsWideAs, IsNearLength, IsNearReach, IsShortReach, greatest_minimum};
ghost use Rattle.kit_rules.specs.Reach.{minimum_of, reach_with};

use leaf_tables::{Kit, Role, leaf_of, wire_of};
use tech_rules::{Rule, Wire};

fn minimum_of(rule: &Rule) -> i64
    ensures { result ≡ minimum_of rule.now }
{
    match rule {
        Rule::Width { min, .. } => *min,
        Rule::Space { min, .. } => *min,
        Rule::Enclose { min, .. } => *min,
    }
}

/// The greatest minimum of a rule, 1 where there is none.
fn greatest_minimum(rules: &[Rule]) -> i64
    ensures { result ≡ greatest_minimum rules.now }
{
    match rules.split_first() {
        None => 1,
        Some((rule, others)) => {
            let min = minimum_of(rule);
            let greatest = greatest_minimum(others);
            if min < greatest { greatest } else { min }
        }
    }
}

/// How far leaf cells can be felt that pass their outlines so far, in nanometres: the greatest minimum of a rule, and
/// the overhang on both sides.
pub fn reach_with(kit: &Kit, overhang: i64) -> i64
    requires kit { IsKit kit.now }
    requires overhang { IsNearLength overhang }
    ensures is { result ≡ reach_with kit.now overhang }
    ensures near { IsNearReach result }
{
    greatest_minimum(kit.tech.rules.as_slice()) + overhang + overhang
}

/// Whether the role's leaf cell has at least this width.
fn is_as_wide_as(kit: &Kit, role: Role, least: i64) -> bool
    requires { IsKit kit.now }
    ensures { IsTrue result ↔ IsAsWideAs kit.now role least }
{
    least <= leaf_of(kit, role).width
}

/// Whether the length is at most the space between wires.
fn is_inside(wire: &Wire, overhang: i64) -> bool
    ensures { IsTrue result ↔ (overhang ≤ℤ wire.now.space) }
{
    overhang <= wire.space
}

/// The space and the pitch of wires.
fn space_and_pitch(wire: &Wire) -> i64
    requires { AreSizes wire.now }
    ensures is { result ≡ wire.now.space +ℤ (wire.now.width +ℤ wire.now.space) }
    ensures near { IsNearLength result }
{
    wire.space + (wire.width + wire.space)
}

/// Whether the first length is at most the second.
fn is_at_most(a: i64, b: i64) -> bool
    ensures { IsTrue result ↔ (a ≤ℤ b) }
{
    a <= b
}

/// Whether the length is at most the space and the pitch of wires.
fn is_below_wires(wire: &Wire, reach: i64) -> bool
    requires sizes { AreSizes wire.now }
    requires reach { IsNearReach reach }
    ensures { IsTrue result ↔ (reach ≤ℤ (wire.now.space +ℤ (wire.now.width +ℤ wire.now.space))) }
{
    is_at_most(reach, space_and_pitch(wire))
}

/// Whether the inverter and each gate beside it have together at least this width.
fn are_gates_as_wide_as(kit: &Kit, reach: i64) -> bool
    requires kit { IsKit kit.now }
    requires reach { IsNearReach reach }
    ensures { IsTrue result ↔ ((inv : Leaf) → leaf_in kit.now.leaves Inv ≡ Some inv
        → (IsAsWideAs kit.now Nand2 (reach -ℤ inv.width) × IsAsWideAs kit.now Nand3 (reach -ℤ inv.width))) }
{
    let rest = reach - leaf_of(kit, Role::Inv).width;
    if !is_as_wide_as(kit, Role::Nand2, rest) {
        return false;
    }
    is_as_wide_as(kit, Role::Nand3, rest)
}

/// Whether leaf cells that pass their outlines so far are felt by their neighbours alone.
pub fn is_short_reach(kit: &Kit, overhang: i64) -> bool
    requires kit { IsKit kit.now }
    requires overhang { IsNearLength overhang }
    ensures { (wire : Wire) → kit.now.tech.wire ≡ Some wire → IsTrue result ↔ IsShortReach kit.now wire overhang }
{
    let wire = wire_of(kit);
    let reach = reach_with(kit, overhang);
    if !is_inside(wire, overhang) {
        return false;
    }
    if !is_below_wires(wire, reach) {
        return false;
    }
    if !is_as_wide_as(kit, Role::Bitcell, reach) {
        return false;
    }
    if !is_as_wide_as(kit, Role::Dff, reach) {
        return false;
    }
    are_gates_as_wide_as(kit, reach)
}
