//! Demonstration kit 0 is good, as far as macros of at most 32 rows are made.

ghost use Rattle.std.specs.Prelude.{IfOk};
ghost use Rattle.leaf_tables.specs.Kits.{IsKit};

use crate::short_maker::ShortMaker;
use demo_kit::demo;
use gds_library::read_gds;
use kit_check::weakness;
use leaf_tables::{Kit, kit_of};
use macro_facts::{macros_are_whole, macros_have_rows, unused_names_are_free};
use std::alloc::Global;
use std::test::Fail;
use tech_rules::read_tech;

/// Demonstration kit 0.
fn kit(alloc: Global) -> Result<Kit, Fail>
    ensures { IfOk result IsKit }
{
    let files = demo(alloc, 0)?;
    let Ok(tech) = read_tech(alloc, &files.tech) else {
        return Err("no technology".into());
    };
    let Ok(lib) = read_gds(alloc, &files.gds) else {
        return Err("no library".into());
    };
    let Ok(kit) = kit_of(alloc, tech, lib, files.sp) else {
        return Err("no kit".into());
    };
    Ok(kit)
}

#[test]
fn demonstration_kit_0_is_good(rt: HostRuntime) -> Result<(), Fail> {
    // What is asked of a maker follows by these laws.
    macros_are_whole();
    macros_have_rows();
    unused_names_are_free();
    let alloc = rt.alloc();
    let kit = kit(alloc)?;
    let found = weakness(&rt, alloc, &kit, &ShortMaker, 4)?;
    assert!(rt; found.is_none());
    Ok(())
}
