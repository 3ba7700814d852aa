ghost use Rattle.std.specs.Prelude.{◌≡◌, ◌++◌, codes, false, IfOk};
ghost use Rattle.gds_library.specs.Writable.{IsWritable};
ghost use Rattle.sram_plan.specs.Config.{IsConfig};
ghost use Rattle.tech_rules.specs.Facts.{IsTech};
ghost use Rattle.command_steps.specs.File.{IsFile};
ghost use Rattle.command_steps.specs.Outcome.{is_usage_outcome};
ghost use Rattle.command_steps.specs.Reading.{HasRead};
ghost use Rattle.build_command.specs.Design.{IsConfigFile, IsLeafLibraryFile, IsKitOverLibrary, IsKitWith, IsKitUnder};
ghost use Rattle.build_command.specs.Design.{IsDesignWith, IsDesignOf, IsDesign, IsGoodDesign};
ghost use Rattle.leaf_tables.specs.Kits.{IsKit};

use command_steps::{file_text, read_file, read_technology_under, with_ending};
use gds_library::{Library, read_gds};
use leaf_tables::{Kit, kit_of};
use or_geom::Items;
use or_host::Store;
use reply_lines::Refusal;
use sram_plan::{Config, Plan, plan, read_config};
use std::alloc::Global;
use tech_rules::Tech;

/// All that a memory is built of: a configuration, its plan, and the kit that it names.
#[derive(Drop)]
pub struct Design {
    pub config: Config,
    pub plan: Plan,
    pub kit: Kit,
}

/// The configuration in the file of this name.
pub fn read_configuration<S: Store>(
    alloc: Global,
    name: &str,
    store: &mut S,
) -> Result<Config, Refusal>
    ensures read { HasRead (λ files. IsConfigFile files name.now) result (S.state store.old) (S.state store.new) }
    ensures good { IfOk result IsConfig }
    ensures words { is_usage_outcome result ≡ false }
{
    let bytes = read_file(alloc, name, store)?;
    read_config(alloc, bytes.as_slice()).map_err(Refusal::Config)
}

/// The bytes of the file of this name and ending.
fn read_under<S: Store>(
    alloc: Global,
    name: &str,
    ending: &str,
    store: &mut S,
) -> Result<Items<u8>, Refusal>
    ensures read { HasRead (λ files. IsFile files (name.now ++ ending.now)) result (S.state store.old)
        (S.state store.new) }
    ensures words { is_usage_outcome result ≡ false }
{
    let file = with_ending(alloc, name, ending)?;
    read_file(alloc, file.as_str(), store)
}

/// The library of the GDSII file of this name.
fn read_leaf_layout<S: Store>(alloc: Global, name: &str, store: &mut S) -> Result<Library, Refusal>
    ensures read { HasRead (λ files. IsLeafLibraryFile files (name.now ++ codes ".gds")) result (S.state store.old)
        (S.state store.new) }
    ensures writable { IfOk result IsWritable }
    ensures words { is_usage_outcome result ≡ false }
{
    let bytes = read_under(alloc, name, ".gds", store)?;
    read_gds(alloc, bytes.as_slice()).map_err(Refusal::Gds)
}

/// The kit of a technology, the leaf cells' library and the SPICE file of this name.
fn read_kit_over<S: Store>(
    alloc: Global,
    name: &str,
    tech: Tech,
    lib: Library,
    store: &mut S,
) -> Result<Kit, Refusal>
    requires tech { IsTech tech }
    requires writable { IsWritable lib }
    ensures read { HasRead (λ files. IsKitOverLibrary files name.now tech lib) result (S.state store.old)
        (S.state store.new) }
    ensures good { IfOk result IsKit }
    ensures words { is_usage_outcome result ≡ false }
{
    let text = read_under(alloc, name, ".sp", store)?;
    kit_of(alloc, tech, lib, text).map_err(Refusal::Kit)
}

/// The kit of a technology and of the files of this name. The layout is decoded before the subcircuits are read.
fn read_kit_with<S: Store>(
    alloc: Global,
    name: &str,
    tech: Tech,
    store: &mut S,
) -> Result<Kit, Refusal>
    requires { IsTech tech }
    ensures read { HasRead (λ files. IsKitWith files name.now tech) result (S.state store.old) (S.state store.new) }
    ensures good { IfOk result IsKit }
    ensures words { is_usage_outcome result ≡ false }
{
    let lib = read_leaf_layout(alloc, name, store)?;
    read_kit_over(alloc, name, tech, lib, store)
}

/// Reads the kit of this name: the technology, the leaf cells' layouts and their subcircuits, each decoded before the
/// next is read.
pub fn read_kit_under<S: Store>(alloc: Global, name: &str, store: &mut S) -> Result<Kit, Refusal>
    ensures read { HasRead (λ files. IsKitUnder files name.now) result (S.state store.old) (S.state store.new) }
    ensures good { IfOk result IsKit }
    ensures words { is_usage_outcome result ≡ false }
{
    let tech = read_technology_under(alloc, name, store)?;
    read_kit_with(alloc, name, tech, store)
}

/// The design of a configuration with its plan.
fn design_with<S: Store>(
    alloc: Global,
    config: Config,
    plan: Plan,
    store: &mut S,
) -> Result<Design, Refusal>
    requires config { IsConfig config }
    ensures read { HasRead (λ files. IsDesignWith files config plan) result (S.state store.old) (S.state store.new) }
    ensures parts { IfOk result (λ design. (design.config ≡ config) × (design.plan ≡ plan)) }
    ensures good { IfOk result (λ design. IsKit design.kit) }
    ensures words { is_usage_outcome result ≡ false }
{
    let kit = read_kit_under(alloc, file_text(&config.tech_name), store)?;
    Ok(Design { config, plan, kit })
}

/// The design of a configuration.
pub fn design_of<S: Store>(alloc: Global, config: Config, store: &mut S) -> Result<Design, Refusal>
    requires { IsConfig config }
    ensures read { HasRead (λ files. IsDesignOf files config) result (S.state store.old) (S.state store.new) }
    ensures config { IfOk result (λ design. design.config ≡ config) }
    ensures good { IfOk result IsGoodDesign }
    ensures words { is_usage_outcome result ≡ false }
{
    let plan = plan(&config).map_err(Refusal::Plan)?;
    design_with(alloc, config, plan, store)
}

/// Reads the configuration, and then the files that it names: the technology, the leaf cells' layouts and their
/// subcircuits, each decoded before the next is read.
pub fn read_design<S: Store>(alloc: Global, name: &str, store: &mut S) -> Result<Design, Refusal>
    ensures read { HasRead (λ files. IsDesign files name.now) result (S.state store.old) (S.state store.new) }
    ensures good { IfOk result IsGoodDesign }
    ensures words { is_usage_outcome result ≡ false }
{
    let config = read_configuration(alloc, name, store)?;
    design_of(alloc, config, store)
}
