ghost use Rattle.std.specs.Prelude.{◌↔◌, IfOk, OnOk, Contains};
ghost use Rattle.tile_checker.specs.declared.violation.Violation.{Violation};
ghost use Rattle.tile_checker.specs.Share.{HasOk, IsThere, AreThere, IsUnion};
ghost use Rattle.or_geom.specs.Adds.{Adds};
ghost use Rattle.or_geom.specs.Gathering.{SomeGives};

use crate::violation::Violation;
use or_geom::{Memory, sort_distinct};
use std::alloc::Global;

/// Adds a list. One that found no memory is answered.
fn add_list(list: &Result<Vec<Violation>, Memory>, all: &mut Vec<Violation>) -> Result<(), Memory>
    ensures adds { OnOk result (Adds all.old.items all.new.items (HasOk list.now)) }
    ensures there { OnOk result (IsThere list.now) }
{
    match list {
        Ok(list) => Ok(all.extend_from_slice(list)?),
        Err(memory) => Err(*memory),
    }
}

/// All that the lists hold, one after another.
fn joined(alloc: Global, lists: &[Result<Vec<Violation>, Memory>]) -> Result<Vec<Violation>, Memory>
    ensures holds { IfOk result (λ all. (v : Violation) → Contains all.items v ↔ SomeGives HasOk lists.now v) }
    ensures there { IfOk result (λ all. AreThere lists.now) }
{
    let mut all = Vec::new(alloc);
    for list in lists {
        add_list(list, &mut all)?;
    }
    Ok(all)
}

/// All that the lists hold, in order and once. One that found no memory makes the whole answer that.
pub fn union_of(
    alloc: Global,
    lists: &[Result<Vec<Violation>, Memory>],
) -> Result<Vec<Violation>, Memory>
    ensures { IfOk result (λ all. IsUnion lists.now all.items) }
{
    let mut all = joined(alloc, lists)?;
    sort_distinct(&mut all);
    Ok(all)
}
