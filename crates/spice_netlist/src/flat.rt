ghost use Rattle.std.specs.Prelude.{◌≡◌, ◌<◌, ◌≤◌, ◌+◌, None, IfOk, IfErr, MatchResult, length};
ghost use Rattle.reference_graph.specs.Reaches.{AreWithin};
ghost use Rattle.reference_graph.specs.BottomUp.{IsOrder};
ghost use Rattle.spice_netlist.specs.Limits.{most_pins};
ghost use Rattle.spice_netlist.specs.Resolved.{graph};
ghost use Rattle.spice_netlist.specs.Walk.{walk_at, first_bad};
ghost use Rattle.spice_netlist.specs.Pins.{named_rows};
ghost use Rattle.spice_netlist.specs.Tables.{IsSubcktOrder};
ghost use Rattle.spice_netlist.specs.LowerCase.{AreLow};
ghost use Rattle.spice_netlist.specs.Descent.{AreSubcktSizes};
ghost use Rattle.spice_netlist.specs.Numbers.{AreNumberedRows};
ghost use Rattle.spice_netlist.specs.Faults.{AreAllThere, IsHierarchy, IsFaultAt, AreRowsAt, IsSmall, AreFlatRows};
ghost use Rattle.spice_netlist.specs.Faults.{IsFlatFault};

use crate::cycle::least_cyclic;
use crate::fault::FlatFault;
use crate::graph::graph_of;
use crate::lower::lower_name;
use crate::ports::bad_path;
use crate::resolve::resolve;
use crate::resolved::ResolvedSubckt;
use crate::rows::{RowList, add_port_rows};
use crate::size::{MOST_LEAVES, MOST_PINS, Size, sizes};
use crate::table::{entry, ports_of};
use crate::unknown::least_unknown;
use crate::walk::add_rows_below;
use netlist::{Deck, RowPin, Rows};
use or_geom::{Items, Memory, Name};
use reference_graph::{order, paths_are_short, reached};
use std::alloc::Global;

/// Err where a name isn't there that is referred to from what the top reaches.
fn check_names(
    alloc: Global,
    subckts: &[ResolvedSubckt],
    references: &[Items<usize>],
    top: usize,
) -> Result<(), FlatFault>
    requires graph { references.now ≡ graph subckts.now }
    requires within { AreWithin references.now }
    requires inside { top < length references.now }
    ensures { MatchResult result (λ _. AreAllThere subckts.now top) (IsFaultAt subckts.now top) }
{
    let marks = reached(alloc, references, top)?;
    if let Some(name) = least_unknown(alloc, subckts, top, &marks)? {
        return Err(FlatFault::UnknownSubckt { name });
    }
    Ok(())
}

/// What the top reaches, each after all that it refers to. Err where one of them reaches itself.
fn order_of(
    alloc: Global,
    subckts: &[ResolvedSubckt],
    references: &[Items<usize>],
    top: usize,
) -> Result<Vec<usize>, FlatFault>
    requires graph { references.now ≡ graph subckts.now }
    requires within { AreWithin references.now }
    requires inside { top < length references.now }
    ensures { MatchResult result (λ order. IsHierarchy subckts.now top × IsOrder references.now top order.items)
        (IsFaultAt subckts.now top) }
{
    check_names(alloc, subckts, references, top)?;
    if let Some(order) = order(alloc, references, top)? {
        return Ok(order);
    }
    match least_cyclic(alloc, subckts, references, top)? {
        Some(name) => Err(FlatFault::Cycle { name }),
        None => unreachable!(),
    }
}

/// Err where an instance has not as many nodes as its subcircuit has ports.
fn check_ports(
    alloc: Global,
    subckts: &[ResolvedSubckt],
    order: &[usize],
    top: usize,
) -> Result<(), FlatFault>
    requires hierarchy { IsHierarchy subckts.now top }
    requires order { IsOrder (graph subckts.now) top order.now }
    requires upward { IsSubcktOrder subckts.now order.now }
    ensures { MatchResult result (λ _. first_bad subckts.now (walk_at subckts.now top) ≡ None)
        (IsFaultAt subckts.now top) }
{
    match bad_path(alloc, subckts, order, top)? {
        Some(path) => Err(FlatFault::PortCount {
            path: Name::from_bytes(alloc, path.as_slice())?,
        }),
        None => Ok(()),
    }
}

/// How many leaf instances and pins there are below each subcircuit of the order. Err where there are too many below
/// the top.
fn check_size(
    alloc: Global,
    subckts: &[ResolvedSubckt],
    order: &[usize],
    top: usize,
) -> Result<Vec<Size>, FlatFault>
    requires hierarchy { IsHierarchy subckts.now top }
    requires good { first_bad subckts.now (walk_at subckts.now top) ≡ None }
    requires order { IsOrder (graph subckts.now) top order.now }
    requires upward { IsSubcktOrder subckts.now order.now }
    ensures { MatchResult result (λ sizes. IsSmall subckts.now top × AreSubcktSizes subckts.now top sizes.items)
        (IsFaultAt subckts.now top) }
{
    let sizes = sizes(alloc, subckts, order)?;
    let size = *entry(&sizes, top);
    if size.leaves > MOST_LEAVES {
        return Err(FlatFault::TooMany {
            count: MOST_LEAVES + 1,
        });
    }
    let ports = ports_of(subckts, top).len() as u64;
    if size.pins.saturating_add(ports) > MOST_PINS {
        return Err(FlatFault::TooMany {
            count: MOST_PINS + 1,
        });
    }
    Ok(sizes)
}

/// The rows of the top, of which there are not too many.
fn rows_of(
    alloc: Global,
    subckts: &[ResolvedSubckt],
    sizes: &[Size],
    top: usize,
) -> Result<Vec<RowPin>, Memory>
    requires within { AreWithin (graph subckts.now) }
    requires inside { top < length subckts.now }
    requires hierarchy { IsHierarchy subckts.now top }
    requires good { first_bad subckts.now (walk_at subckts.now top) ≡ None }
    requires low { AreLow subckts.now }
    requires sizes { AreSubcktSizes subckts.now top sizes.now }
    requires small { length (named_rows subckts.now top) ≤ most_pins }
    ensures { IfOk result (λ rows. AreNumberedRows (named_rows subckts.now top) rows.items) }
{
    paths_are_short();
    let mut rows = RowList::new(alloc);
    let ports = ports_of(subckts, top);
    add_port_rows(alloc, ports, &mut rows)?;
    add_rows_below(alloc, subckts, sizes, top, &mut rows)?;
    Ok(rows.into_rows())
}

/// The rows of the top at this index.
fn rows_at(alloc: Global, subckts: &[ResolvedSubckt], top: usize) -> Result<Vec<RowPin>, FlatFault>
    requires within { AreWithin (graph subckts.now) }
    requires inside { top < length subckts.now }
    requires low { AreLow subckts.now }
    ensures { MatchResult result (λ rows. AreRowsAt subckts.now top rows.items) (IsFaultAt subckts.now top) }
{
    let references = graph_of(alloc, subckts)?;
    let order = order_of(alloc, subckts, &references, top)?;
    paths_are_short();
    check_ports(alloc, subckts, &order, top)?;
    let sizes = check_size(alloc, subckts, &order, top)?;
    Ok(rows_of(alloc, subckts, &sizes, top)?)
}

/// The flat rows of the top: first its ports, and then the pins of the leaf instances below it, in the order of a
/// depth-first walk. Nets are numbered from 0 by first appearance.
///
/// A subcircuit other than the top is a leaf where it is named in `leaves` or has no instances. Names are compared
/// without regard to ASCII case, and rows have them in lower case. Of several subcircuits, or several ports of one,
/// that have one name the first counts.
pub fn flat_rows(alloc: Global, deck: &Deck, top: &Name, leaves: &[Name]) -> Result<Rows, FlatFault>
    ensures rows { IfOk result (λ rows. AreFlatRows deck.now.subckts top.now leaves.now rows.pins) }
    ensures fault { IfErr result (IsFlatFault deck.now.subckts top.now leaves.now) }
{
    let top = lower_name(alloc, top)?;
    let design = resolve(alloc, deck.subckts.as_slice(), &top, leaves)?;
    let Some(index) = design.top else {
        return Err(FlatFault::UnknownSubckt { name: top });
    };
    let pins = rows_at(alloc, design.subckts.as_slice(), index)?;
    Ok(Rows {
        pins: Items::from_vec(pins),
    })
}
