ghost use Rattle.std.specs.Prelude.{◌≡◌, ◌<◌, IfOk, Some, length, slice_get};
ghost use Rattle.std.specs.Int.{int_max};
ghost use Rattle.or_geom.specs.Distance.{IsReachable};
ghost use Rattle.or_geom.specs.Reachable.{AreReachable};
ghost use Rattle.leaf_tables.specs.Kits.{IsKit};
ghost use Rattle.leaf_tables.specs.NearLeaf.{IsLeafLength};
ghost use Rattle.kit_rules.specs.Reach.{IsGreatest, IsNearLength, IsOverhang, IsOverhangWith, passed_by};

use crate::layout::{cell_of, leaf_layout};
use bumpalo::Bump;
use leaf_tables::{Kit, Role, leaf_of};
use or_geom::{Memory, Rect, Shape};
use std::alloc::Global;

/// The greater of two lengths.
fn greater(a: i64, b: i64) -> i64
    ensures { result ≡ int_max a b }
{
    if a < b { b } else { a }
}

/// How far the rectangle passes the outline from the origin with these sides, where it passes it most.
fn passed_by(width: i64, height: i64, rect: Rect) -> i64
    requires width { IsLeafLength width }
    requires height { IsLeafLength height }
    requires rect { IsReachable rect }
    ensures is { result ≡ passed_by width height rect }
    ensures near { IsNearLength result }
{
    let low = greater(0 - rect.x1, 0 - rect.y1);
    let high = greater(rect.x2 - width, rect.y2 - height);
    greater(0, greater(low, high))
}

/// The greatest of the distance and of those by which the shapes pass the outline.
fn greatest_passed(width: i64, height: i64, shapes: &[Shape], least: i64) -> i64
    requires width { IsLeafLength width }
    requires height { IsLeafLength height }
    requires reach { AreReachable shapes.now }
    requires least { IsNearLength least }
    ensures is { IsGreatest width height shapes.now least result }
    ensures near { IsNearLength result }
{
    let mut greatest = least;
    for shape in shapes {
        greatest = greater(greatest, passed_by(width, height, shape.rect));
    }
    greatest
}

/// The greatest of the distance and of those by which shapes of the role's leaf cell pass its outline.
fn overhang_of(alloc: Global, kit: &Kit, role: Role, least: i64) -> Result<i64, Memory>
    requires kit { IsKit kit.now }
    requires least { IsNearLength least }
    ensures is { IfOk result (IsOverhangWith kit.now role least) }
    ensures near { IfOk result IsNearLength }
{
    let bump = Bump::new(alloc);
    let flat = leaf_layout(alloc, &bump, kit, role, cell_of(kit, role))?;
    let leaf = leaf_of(kit, role);
    Ok(greatest_passed(leaf.width, leaf.height, flat.shapes, least))
}

/// The role at an index.
fn role_at(all: &[Role], index: usize) -> Role
    requires { index < length all.now }
    ensures { slice_get all.now index ≡ Some result }
{
    all[index]
}

/// The greatest distance, in nanometres, by which a shape of a leaf cell passes its outline; 0 where none does.
pub fn overhang(alloc: Global, kit: &Kit) -> Result<i64, Memory>
    requires { IsKit kit.now }
    ensures is { IfOk result (IsOverhang kit.now) }
    ensures near { IfOk result IsNearLength }
{
    let all = Role::all();
    let mut greatest = 0;
    for index in 0..all.len() {
        greatest = overhang_of(alloc, kit, role_at(&all, index), greatest)?;
    }
    Ok(greatest)
}
