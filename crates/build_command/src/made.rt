ghost use Rattle.std.specs.Prelude.{◌≡◌, ◌++◌, ◌<◌, ◌≤◌, false, IfOk};
ghost use Rattle.command_steps.specs.Outcome.{UnlessMemory, is_read_failed, is_usage_outcome};
ghost use Rattle.command_steps.specs.Writing.{HaveAsciiNames};
ghost use Rattle.leaf_tables.specs.Kits.{IsKit};
ghost use Rattle.macro_build.specs.Memory.{FitsPlan};
ghost use Rattle.port_lists.specs.Held.{held_of};
ghost use Rattle.sram_macro.specs.Leaves.{HasCellsFor};
ghost use Rattle.sram_netlist.specs.Numbers.{ArePlanNumbers};
ghost use Rattle.sram_plan.specs.Config.{IsConfig};
ghost use Rattle.sram_plan.specs.PlanNumbers.{numbers_of};
ghost use Rattle.build_command.specs.Design.{IsGoodDesign};
ghost use Rattle.build_command.specs.RomDesign.{IsGoodRom};
ghost use Rattle.build_command.specs.Made.{view_name, views, success_reply, made_of, refusal_in, ordered, order_of};
ghost use Rattle.build_command.specs.Made.{order_of_rom, IsOrderMade};

use crate::design::Design;
use crate::rom_design::RomDesign;
use crate::success::success_line;
use macro_build::{BuildFault, Built, Order, build};
use or_geom::{Items, Memory, Name};
use or_host::MemFile;
use port_lists::Contents;
use reply_lines::{Refusal, Reply, ReplyLines};
use sram_plan::{Config, Plan, read_only};
use std::alloc::Global;
use std::thread::Threads;
use tech_rules::Layer;
use tile_checker::Gate;

/// What is made of a design: the views under the names of their files, in the order in which they are written, and the
/// answer.
#[derive(Drop)]
pub struct Made {
    pub views: Items<MemFile>,
    pub reply: Reply,
}

/// The path of the views without an ending: folder, `/` and output name, or the output name alone.
fn view_name(alloc: Global, config: &Config) -> Result<Vec<u8>, Memory>
    ensures { IfOk result (λ name. name.items ≡ view_name config.now) }
{
    let Some(folder) = &config.output_path else {
        return Ok(Vec::from_slice(alloc, config.output_name.as_bytes())?);
    };
    let mut name = Vec::from_slice(alloc, folder.as_bytes())?;
    name.push(b'/')?;
    name.extend_from_slice(config.output_name.as_bytes())?;
    Ok(name)
}

/// A view as a file, whose name is this one with the ending.
fn view(alloc: Global, name: &[u8], ending: &str, bytes: Vec<u8>) -> Result<MemFile, Memory>
    ensures name { IfOk result (λ file. file.name ≡ name.now ++ ending.now) }
    ensures bytes { IfOk result (λ file. file.bytes ≡ bytes.items) }
{
    let mut name = Vec::from_slice(alloc, name)?;
    name.extend_from_slice(ending.as_bytes())?;
    Ok(MemFile {
        name: Name::from_vec(name),
        bytes: Items::from_vec(bytes),
    })
}

/// The four views under their names.
fn views_of(alloc: Global, config: &Config, built: Built) -> Result<Items<MemFile>, Memory>
    ensures { IfOk result (λ files. files ≡ views config.now built) }
{
    let name = view_name(alloc, config)?;
    let mut files = Items::new(alloc);
    files.push(view(alloc, &name, ".sp", built.spice)?)?;
    files.push(view(alloc, &name, ".gds", built.gds)?)?;
    files.push(view(alloc, &name, ".lef", built.lef)?)?;
    files.push(view(alloc, &name, ".v", built.verilog)?)?;
    Ok(files)
}

/// The answer to a build that is done.
fn success_reply(
    alloc: Global,
    config: &Config,
    plan: &Plan,
    built: &Built,
) -> Result<Reply, Memory>
    ensures { IfOk result (λ reply. reply ≡ success_reply config.now.output_name plan.now built.now) }
{
    let mut lines = Items::new(alloc);
    lines.push(success_line(alloc, &config.output_name, plan, built)?)?;
    Ok(Reply {
        status: 0,
        lines: ReplyLines::made(lines),
    })
}

/// All that is written and printed of what was built.
fn made_of(alloc: Global, config: &Config, plan: &Plan, built: Built) -> Result<Made, Memory>
    ensures { IfOk result (λ made. made ≡ made_of config.now plan.now built) }
{
    let reply = success_reply(alloc, config, plan, &built)?;
    let views = views_of(alloc, config, built)?;
    Ok(Made { views, reply })
}

/// The refusal of a fault. The line of a broken rule names layers.
fn refusal_in(layers: Items<Layer>, fault: BuildFault) -> Refusal
    ensures { result ≡ refusal_in layers fault }
{
    match fault {
        BuildFault::Part(fault) => Refusal::Part(fault),
        BuildFault::Flatten(fault) => Refusal::Flatten(fault),
        BuildFault::RuleBroken(violation) => Refusal::RuleBroken { layers, violation },
        BuildFault::NetsDiffer(difference) => Refusal::NetsDiffer(difference),
        BuildFault::Memory => Refusal::Memory,
    }
}

/// Builds the memory of a design that holds these contents, and makes all that is written and printed of it.
fn make_ordered<R: Threads + Sync, G: Gate + Sync>(
    rt: &R,
    alloc: Global,
    gate: &G,
    design: Design,
    contents: Contents<'_>,
    workers: u8,
) -> Result<Made, Refusal>
    requires config { IsConfig design.config }
    requires kit { IsKit design.kit }
    requires plan { ArePlanNumbers (numbers_of design.plan) }
    requires held { FitsPlan design.plan (held_of contents) }
    requires cells { HasCellsFor design.kit (held_of contents) }
    requires some { 0 < workers }
    requires at_most { workers ≤ 64 }
    ensures made { UnlessMemory (IsOrderMade
        (ordered design.config design.kit design.plan (held_of contents.entry))) result }
    ensures names { IfOk result (λ made. HaveAsciiNames made.views) }
    ensures done { IfOk result (λ made. made.reply.status ≡ 0) }
    ensures read { is_read_failed result ≡ false }
    ensures words { is_usage_outcome result ≡ false }
{
    let Design { config, plan, kit } = design;
    let order = Order {
        kit: &kit,
        plan: &plan,
        name: &config.output_name,
        contents,
    };
    match build(rt, alloc, gate, &order, workers) {
        Ok(built) => Ok(made_of(alloc, &config, &plan, built)?),
        Err(fault) => {
            let tech = kit.tech;
            Err(refusal_in(tech.layers, fault))
        }
    }
}

/// Builds the memory of a design, which is written and read.
pub fn make_design<R: Threads + Sync, G: Gate + Sync>(
    rt: &R,
    alloc: Global,
    gate: &G,
    design: Design,
    workers: u8,
) -> Result<Made, Refusal>
    requires good { IsGoodDesign design }
    requires some { 0 < workers }
    requires at_most { workers ≤ 64 }
    ensures made { UnlessMemory (IsOrderMade (order_of design)) result }
    ensures names { IfOk result (λ made. HaveAsciiNames made.views) }
    ensures done { IfOk result (λ made. made.reply.status ≡ 0) }
    ensures read { is_read_failed result ≡ false }
    ensures words { is_usage_outcome result ≡ false }
{
    make_ordered(rt, alloc, gate, design, Contents::Stored, workers)
}

/// Builds the read-only memory of a design and words.
pub fn make_rom<R: Threads + Sync, G: Gate + Sync>(
    rt: &R,
    alloc: Global,
    gate: &G,
    rom: RomDesign,
    workers: u8,
) -> Result<Made, Refusal>
    requires good { IsGoodRom rom }
    requires some { 0 < workers }
    requires at_most { workers ≤ 64 }
    ensures made { UnlessMemory (IsOrderMade (order_of_rom rom)) result }
    ensures names { IfOk result (λ made. HaveAsciiNames made.views) }
    ensures done { IfOk result (λ made. made.reply.status ≡ 0) }
    ensures read { is_read_failed result ≡ false }
    ensures words { is_usage_outcome result ≡ false }
{
    let RomDesign { design, words } = rom;
    let Design { config, plan, kit } = design;
    let plan = read_only(&plan);
    let design = Design { config, plan, kit };
    let contents = Contents::Fixed(words.as_slice());
    make_ordered(rt, alloc, gate, design, contents, workers)
}
