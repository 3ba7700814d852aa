//! A read-only macro of 16 words of 2 bits, over demonstration kit 0, whose bitcell serves for both fixed bits.

ghost use Rattle.std.specs.Prelude.{◌≡◌, IfOk};
ghost use Rattle.leaf_tables.specs.Kits.{IsKit};

use demo_kit::demo;
use gds_library::read_gds;
use leaf_tables::{Kit, kit_of};
use rom_macro::{rom_assemble, rom_leaves, rom_words};
use sram_plan::{plan, read_config};
use std::alloc::Global;
use std::test::Fail;
use tech_rules::read_tech;

const ROLES: &str = "rom0 = \"demo_bitcell\"\nrom1 = \"demo_bitcell\"\n";

const TABLES: &str =
    "rom0 = [\"0/ = zz//\", \"1/ = lz//\"]\nrom1 = [\"0/ = zz//\", \"1/ = zl//\"]\n";

/// The word at each address is the address modulo 4, in a byte.
const WORDS: [u8; 16] = [0, 1, 2, 3, 0, 1, 2, 3, 0, 1, 2, 3, 0, 1, 2, 3];

const CONFIGURATION: &[u8] =
    b"word_size = 2\nnum_words = 16\ntech_name = \"demo_tech\"\noutput_name = \"demo\"\n";

/// Demonstration kit 0 with the two roles.
fn kit_with_fixed_cells(alloc: Global) -> Result<Kit, Fail>
    ensures { IfOk result IsKit }
{
    let files = demo(alloc, 0)?;
    let text = str::from_utf8(&files.tech)?;
    let (head, behind) = text.split_once("[role]\n").ok_or("no roles")?;
    let (roles, tables) = behind.split_once("[table]\n").ok_or("no tables")?;
    let text = format!(in alloc; "{head}[role]\n{ROLES}{roles}[table]\n{TABLES}{tables}")?;
    let Ok(tech) = read_tech(alloc, text.as_bytes()) else {
        return Err("no technology".into());
    };
    let Ok(lib) = read_gds(alloc, &files.gds) else {
        return Err("no library".into());
    };
    let Ok(kit) = kit_of(alloc, tech, lib, files.sp) else {
        return Err("no kit".into());
    };
    Ok(kit)
}

#[test]
fn a_read_only_macro(rt: HostRuntime) -> Result<(), Fail> {
    let alloc = rt.alloc();
    let kit = kit_with_fixed_cells(alloc)?;
    let Ok(()) = rom_leaves(alloc, &kit) else {
        return Err("no cells of fixed bits".into());
    };
    let config = read_config(alloc, CONFIGURATION)?;
    let Ok(plan) = plan(&config) else {
        return Err("no plan".into());
    };
    if plan.bank_bits != 0 || plan.masks != 0 {
        return Err("not one bank of whole words".into());
    }
    let words = rom_words(alloc, &plan, &WORDS)?;
    let Ok(made) = rom_assemble(alloc, &kit, &plan, &config.output_name, &words) else {
        return Err("no macro".into());
    };
    assert_eq!(rt; made.tracks, 19);
    assert_eq!(rt; made.view.width, 660);
    Ok(())
}
