ghost use Rattle.std.specs.Prelude.{◌≡◌, ◌↔◌, ◌++◌, map, IfOk, IsTrue, OnOk};
ghost use Rattle.device_lvs.specs.Sorted.{AreNamesSorted, by_name, by_net, name_first, net_first};

use drawn_devices::NetName;
use or_geom::Memory;
use std::alloc::Global;

/// Whether two names are the same.
pub fn are_same(one: &[u8], other: &[u8]) -> bool
    ensures { IsTrue result ↔ (one.now ≡ other.now) }
{
    one == other
}

/// Adds the names, each with its net.
fn add_names<'a>(names: &'a [NetName], sorted: &mut Vec<(&'a [u8], u32)>) -> Result<(), Memory>
    ensures { OnOk result (map name_first sorted.new.items ≡ map name_first sorted.old.items ++ names.now) }
{
    let mut rest = names;
    while let Some((first, others)) = rest.split_first() {
        sorted.push((first.name.as_bytes(), first.net))?;
        rest = others;
    }
    Ok(())
}

/// The names in order, each with its net; those of one name by their nets.
pub fn names_in_order<'a>(
    alloc: Global,
    names: &'a [NetName],
) -> Result<Vec<(&'a [u8], u32)>, Memory>
    ensures { IfOk result (λ sorted. AreNamesSorted by_name names.now (map name_first sorted.items)) }
{
    let mut sorted = Vec::new(alloc);
    add_names(names, &mut sorted)?;
    sorted.sort_unstable();
    Ok(sorted)
}

/// Adds the nets, each with its name.
fn add_nets<'a>(names: &'a [NetName], sorted: &mut Vec<(u32, &'a [u8])>) -> Result<(), Memory>
    ensures { OnOk result (map net_first sorted.new.items ≡ map net_first sorted.old.items ++ names.now) }
{
    let mut rest = names;
    while let Some((first, others)) = rest.split_first() {
        sorted.push((first.net, first.name.as_bytes()))?;
        rest = others;
    }
    Ok(())
}

/// The nets in order, each with its name; those of one net by their names.
pub fn nets_in_order<'a>(
    alloc: Global,
    names: &'a [NetName],
) -> Result<Vec<(u32, &'a [u8])>, Memory>
    ensures { IfOk result (λ sorted. AreNamesSorted by_net names.now (map net_first sorted.items)) }
{
    let mut sorted = Vec::new(alloc);
    add_nets(names, &mut sorted)?;
    sorted.sort_unstable();
    Ok(sorted)
}
