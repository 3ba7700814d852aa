ghost use Rattle.std.specs.Prelude.{◌≡◌, ◌<◌, ◌≤◌, ◌^◌, length, map, false, IfOk};
ghost use Rattle.std.specs.List.Sorted.{IsStrictlySortedBy};
ghost use Rattle.or_geom.specs.Reachable.{AreReachable};
ghost use Rattle.or_geom.specs.ShapeOrder.{shape_order};
ghost use Rattle.cell_hierarchy.specs.Plain.{lists_of};
ghost use Rattle.tech_rules.specs.Facts.{IsTech};
ghost use Rattle.tile_checker.specs.RuleReport.{IsReport};
ghost use Rattle.openram_cli.specs.Answer.{AreFlatListsIn, AreFlatShapesIn, AreLeafRows, AreNetsOf, IsCheckAnswer};
ghost use Rattle.openram_cli.specs.Answer.{IsNetsAnswer, IsCompareAnswer, IsReplyTo};
ghost use Rattle.net_extractor.specs.PlainNets.{plain_net};
ghost use Rattle.openram_cli.specs.Inputs.{AreSound, IsReadLayout};
ghost use Rattle.command_steps.specs.Outcome.{UnlessMemory, is_read_failed, is_usage_outcome};

use crate::inputs::{Inputs, LayoutInput};
use bumpalo::Bump;
use cell_hierarchy::{Flat, Sorter, flatten_by, flatten_shapes_by};
use device_command::answer_devices;
use kit_command::answer_kit;
use net_extractor::Nets;
use netlist::{Deck, Rows};
use or_geom::{Memory, Name};
use parallel_nets::{compare_by, extract_by};
use parallel_sort::WorkerSorter;
use reply_lines::{Refusal, Reply, comparison_reply, nets_reply, report_of};
use shape_bins::index_by;
use spice_netlist::flat_rows;
use std::alloc::Global;
use std::thread::Threads;
use tech_rules::{RoleName, Tech};
use tile_checker::{Gate, Violation, check_all};

/// `nets` and `compare` are not told how many workers they have: a few threads share the nets, and lists are sorted by
/// as many threads as there are processors.
const NET_WORKERS: u8 = 2;

/// What sorts and shares the work of `nets` and `compare`.
fn net_sorter<R: Threads>(rt: &R) -> WorkerSorter<'_, R> {
    WorkerSorter {
        rt,
        workers: NET_WORKERS,
    }
}

/// The flat shapes and labels of the structure, in the arena.
fn flat_of<'b, S: Sorter>(
    sorter: &S,
    alloc: Global,
    bump: &'b Bump,
    layout: &LayoutInput,
) -> Result<Flat<'b>, Refusal>
    requires ready { S.ready sorter.now }
    requires read { IsReadLayout layout.now }
    ensures flat { UnlessMemory (AreFlatListsIn layout.now) result }
    ensures rises { IfOk result (λ flat. IsStrictlySortedBy shape_order flat.shapes.now) }
    ensures few { IfOk result (λ flat. length flat.shapes.now ≤ 16777216) }
    ensures few_labels { IfOk result (λ flat. length flat.labels.now ≤ 2 ^ 22) }
    ensures read { is_read_failed result ≡ false }
    ensures words { is_usage_outcome result ≡ false }
{
    let flat = flatten_by(sorter, alloc, bump, &layout.lib, &layout.tech, &layout.top);
    flat.map_err(Refusal::Flatten)
}

/// The flat shapes of the structure alone, in the arena.
fn shapes_of<'b, S: Sorter>(
    sorter: &S,
    alloc: Global,
    bump: &'b Bump,
    layout: &LayoutInput,
) -> Result<Flat<'b>, Refusal>
    requires ready { S.ready sorter.now }
    requires read { IsReadLayout layout.now }
    ensures flat { UnlessMemory (AreFlatShapesIn layout.now) result }
    ensures rises { IfOk result (λ flat. IsStrictlySortedBy shape_order flat.shapes.now) }
    ensures reach { IfOk result (λ flat. AreReachable flat.shapes.now) }
    ensures few { IfOk result (λ flat. length flat.shapes.now ≤ 16777216) }
    ensures read { is_read_failed result ≡ false }
    ensures words { is_usage_outcome result ≡ false }
{
    let flat = flatten_shapes_by(sorter, alloc, bump, &layout.lib, &layout.tech, &layout.top);
    flat.map_err(Refusal::Flatten)
}

/// The labels of a flat layout with their nets.
fn nets_of<'b, R: Threads + Sync>(
    sorter: &WorkerSorter<'_, R>,
    alloc: Global,
    bump: &'b Bump,
    tech: &Tech,
    flat: &Flat<'b>,
) -> Result<Nets<'b>, Memory>
    requires rises { IsStrictlySortedBy shape_order flat.now.shapes.now }
    requires few { length flat.now.shapes.now ≤ 16777216 }
    requires few_labels { length flat.now.labels.now ≤ 2 ^ 22 }
    ensures { IfOk result (λ nets. AreNetsOf tech.now (lists_of flat.now) (map plain_net nets.labels)) }
{
    let bins = index_by(sorter, alloc, bump, flat)?;
    extract_by(sorter.rt, alloc, tech, flat, &bins, sorter.workers)
}

/// The violations of the rules over a flat layout, by as many workers.
fn violations_of<'b, R: Threads + Sync, G: Gate + Sync>(
    rt: &R,
    alloc: Global,
    gate: &G,
    bump: &'b Bump,
    tech: &Tech,
    flat: &Flat<'b>,
    workers: u8,
) -> Result<Vec<Violation>, Memory>
    requires tech { IsTech tech.now }
    requires rises { IsStrictlySortedBy shape_order flat.now.shapes.now }
    requires reach { AreReachable flat.now.shapes.now }
    requires few { length flat.now.shapes.now ≤ 16777216 }
    requires some { 0 < workers }
    requires at_most { workers ≤ 64 }
    ensures { IfOk result (λ list. IsReport tech.now.rules flat.now.shapes.now list.items) }
{
    let bins = index_by(&WorkerSorter { rt, workers }, alloc, bump, flat)?;
    check_all(rt, alloc, gate, tech, flat, &bins, workers)
}

/// The cells of roles.
fn cells_of(alloc: Global, roles: &[RoleName]) -> Result<Vec<Name>, Memory>
    ensures { IfOk result (λ cells. cells.items ≡ map (λ r. r.cell) roles.now) }
{
    let mut cells = Vec::new(alloc);
    for role in roles {
        cells.push(Name::from_bytes(alloc, role.cell.as_bytes())?)?;
    }
    Ok(cells)
}

/// The flat rows of the subcircuit that has the structure's name. The cells of the technology's roles are its leaves.
fn rows_of(alloc: Global, layout: &LayoutInput, deck: &Deck) -> Result<Rows, Refusal>
    ensures rows { UnlessMemory (AreLeafRows layout.now deck.now) result }
    ensures read { is_read_failed result ≡ false }
    ensures words { is_usage_outcome result ≡ false }
{
    let leaves = cells_of(alloc, layout.tech.roles.as_slice())?;
    flat_rows(alloc, deck, &layout.top, &leaves).map_err(Refusal::Rows)
}

/// The report of the rules over the structure. Its labels play no part in it.
fn answer_check<R: Threads + Sync, G: Gate + Sync>(
    rt: &R,
    alloc: Global,
    gate: &G,
    layout: LayoutInput,
    workers: u8,
) -> Result<Reply, Refusal>
    requires sound { IsReadLayout layout }
    requires some { 0 < workers }
    requires at_most { workers ≤ 64 }
    ensures answer { UnlessMemory (IsCheckAnswer layout) result }
    ensures small { IfOk result (λ reply. reply.status < 2) }
    ensures read { is_read_failed result ≡ false }
    ensures words { is_usage_outcome result ≡ false }
{
    let bump = Bump::new(alloc);
    let flat = shapes_of(&WorkerSorter { rt, workers }, alloc, &bump, &layout)?;
    let violations = violations_of(rt, alloc, gate, &bump, &layout.tech, &flat, workers)?;
    let LayoutInput { tech, .. } = layout;
    Ok(report_of(tech.layers, violations))
}

/// The labels of the structure with their nets.
fn answer_nets<R: Threads + Sync>(
    rt: &R,
    alloc: Global,
    layout: &LayoutInput,
) -> Result<Reply, Refusal>
    requires { IsReadLayout layout.now }
    ensures answer { UnlessMemory (IsNetsAnswer layout.now) result }
    ensures small { IfOk result (λ reply. reply.status < 2) }
    ensures read { is_read_failed result ≡ false }
    ensures words { is_usage_outcome result ≡ false }
{
    let bump = Bump::new(alloc);
    let sorter = net_sorter(rt);
    let flat = flat_of(&sorter, alloc, &bump, layout)?;
    let nets = nets_of(&sorter, alloc, &bump, &layout.tech, &flat)?;
    Ok(nets_reply(alloc, layout.tech.layers.as_slice(), nets.labels.as_slice())?)
}

/// The first difference of the structure's nets from the subcircuit's, if there is one.
fn answer_compare<R: Threads + Sync>(
    rt: &R,
    alloc: Global,
    layout: &LayoutInput,
    deck: &Deck,
) -> Result<Reply, Refusal>
    requires { IsReadLayout layout.now }
    ensures answer { UnlessMemory (IsCompareAnswer layout.now deck.now) result }
    ensures small { IfOk result (λ reply. reply.status < 2) }
    ensures read { is_read_failed result ≡ false }
    ensures words { is_usage_outcome result ≡ false }
{
    let bump = Bump::new(alloc);
    let sorter = net_sorter(rt);
    let flat = flat_of(&sorter, alloc, &bump, layout)?;
    let rows = rows_of(alloc, layout, deck)?;
    let nets = nets_of(&sorter, alloc, &bump, &layout.tech, &flat)?;
    let difference = compare_by(rt, alloc, &nets, &rows, NET_WORKERS)?;
    Ok(comparison_reply(alloc, &difference)?)
}

/// What the inputs of a command lead to. It looks at nothing else, and the answer is the same for each number of
/// workers.
pub fn answer<R: Threads + Sync, G: Gate + Sync>(
    rt: &R,
    alloc: Global,
    gate: &G,
    inputs: Inputs,
    workers: u8,
) -> Result<Reply, Refusal>
    requires sound { AreSound inputs }
    requires some { 0 < workers }
    requires at_most { workers ≤ 64 }
    ensures answer { UnlessMemory (IsReplyTo inputs) result }
    ensures small { IfOk result (λ reply. reply.status < 2) }
    ensures read { is_read_failed result ≡ false }
    ensures words { is_usage_outcome result ≡ false }
{
    match inputs {
        Inputs::Check(layout) => answer_check(rt, alloc, gate, layout, workers),
        Inputs::Nets(layout) => answer_nets(rt, alloc, &layout),
        Inputs::Compare { layout, deck } => answer_compare(rt, alloc, &layout, &deck),
        Inputs::Devices(cells) => answer_devices(alloc, &cells.tech, &cells.lib, &cells.deck),
        Inputs::Kit(kit) => answer_kit(rt, alloc, &kit, workers),
    }
}
