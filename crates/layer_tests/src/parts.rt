//! The parts of a memory of 16 words of 2 bits, each built by itself of demonstration kit 0.

ghost use Rattle.std.specs.Prelude.{◌≡◌, [], IfOk};
ghost use Rattle.leaf_tables.specs.Kits.{IsKit};
ghost use Rattle.sram_netlist.specs.Numbers.{ArePlanNumbers};
ghost use Rattle.sram_plan.specs.PlanNumbers.{numbers_of};

use cell_builder::Cells;
use demo_kit::demo;
use gds_library::read_gds;
use leaf_tables::{Kit, kit_of};
use netlist::Deck;
use or_geom::Name;
use spice_netlist::flat_rows;
use spice_text::read_spice;
use sram_plan::{Plan, plan, read_config};
use std::alloc::Global;
use std::process::Abort;
use std::test::Fail;
use tech_rules::read_tech;

/// What a part is built of: a kit, a plan and a name; and what it is added to: no cells but those of the kit, and the
/// kit's subcircuits.
#[derive(Drop)]
struct Trial {
    kit: Kit,
    plan: Plan,
    name: Name,
    cells: Cells,
    deck: Deck,
}

fn begin(alloc: Global) -> Result<Trial, Fail>
    ensures kit { IfOk result (λ on. IsKit on.kit) }
    ensures plan { IfOk result (λ on. ArePlanNumbers (numbers_of on.plan)) }
    ensures cells { IfOk result (λ on. on.cells.cells ≡ []) }
{
    let files = demo(alloc, 0)?;
    let Ok(config) = read_config(alloc, &files.config) else {
        return Err("no configuration".into());
    };
    let Ok(plan) = plan(&config) else {
        return Err("no plan".into());
    };
    let Ok(tech) = read_tech(alloc, &files.tech) else {
        return Err("no technology".into());
    };
    let Ok(deck) = read_spice(alloc, &files.sp) else {
        return Err("no subcircuits".into());
    };
    let Ok(lib) = read_gds(alloc, &files.gds) else {
        return Err("no library".into());
    };
    let Ok(kit) = kit_of(alloc, tech, lib, files.sp) else {
        return Err("no kit".into());
    };
    let mut cells = Cells::new(alloc)?;
    cells.adopt(&kit.lib)?;
    Ok(Trial {
        kit,
        plan,
        name: config.output_name,
        cells,
        deck,
    })
}

/// How many leaf instances this subcircuit of the deck has, with those in its parts: each has one pin on vdd.
fn leaf_count(alloc: Global, deck: &Deck, top: &str) -> Result<u32, Fail> {
    let top = Name::from_bytes(alloc, top.as_bytes())?;
    let Ok(rows) = flat_rows(alloc, deck, &top, &[]) else {
        return Err("no rows".into());
    };
    let mut count = 0u32;
    for row in rows.pins.as_slice() {
        if row.pin.is(b"vdd") && !row.path.is(b"") {
            count = count.saturating_add(1);
        }
    }
    Ok(count)
}

/// Whether the deck has these subcircuits, in this order, behind the fourteen of the kit.
fn check_names(rt: &impl Abort, deck: &Deck, names: &[&str]) {
    let subckts = deck.subckts.as_slice();
    assert_eq!(rt; subckts.len(), 14 + names.len());
    for (subckt, name) in subckts.iter().skip(14).zip(names.iter()) {
        assert!(rt; subckt.name.is(name.as_bytes()));
    }
}

/// Whether the subcircuits of these names have so many leaf instances.
fn check_counts(
    rt: &impl Abort,
    alloc: Global,
    deck: &Deck,
    counts: &[(&str, u32)],
) -> Result<(), Fail> {
    for (name, count) in counts {
        assert_eq!(rt; leaf_count(alloc, deck, name)?, *count, "of {name}");
    }
    Ok(())
}

/// The kit's subcircuits and those of the array.
fn array_deck(alloc: Global) -> Result<Deck, Fail> {
    let Trial {
        kit,
        plan,
        name,
        mut cells,
        mut deck,
    } = begin(alloc)?;
    match bitcell_array::build(alloc, &kit, &plan, &name, &mut cells, &mut deck) {
        Ok(_) => Ok(deck),
        Err(_) => Err("no array".into()),
    }
}

/// 16 rows of a gate, a driver and two bitcells, and two precharge cells.
#[test]
fn the_array(rt: HostRuntime) -> Result<(), Fail> {
    let deck = array_deck(rt.alloc())?;
    check_names(&rt, &deck, &["demo_row", "demo_array", "demo_pre"]);
    let counts = [("demo_row", 4), ("demo_array", 64), ("demo_pre", 2)];
    check_counts(&rt, rt.alloc(), &deck, &counts)
}

/// The kit's subcircuits and that of the logic row.
fn logic_deck(alloc: Global) -> Result<Deck, Fail> {
    let Trial {
        kit,
        plan,
        name,
        mut cells,
        mut deck,
    } = begin(alloc)?;
    match control_logic::build(alloc, &kit, &plan, &name, &mut cells, &mut deck) {
        Ok(_) => Ok(deck),
        Err(_) => Err("no logic row".into()),
    }
}

#[test]
fn the_logic_row(rt: HostRuntime) -> Result<(), Fail> {
    let deck = logic_deck(rt.alloc())?;
    check_names(&rt, &deck, &["demo_logic"]);
    check_counts(&rt, rt.alloc(), &deck, &[("demo_logic", 40)])
}

/// The kit's subcircuits and those of the bank, whose width and height these are.
fn bank_deck(alloc: Global, width: i64, height: i64) -> Result<Deck, Fail> {
    let Trial {
        kit,
        plan,
        name,
        mut cells,
        mut deck,
    } = begin(alloc)?;
    let Ok(edges) = bank_layout::build(alloc, &kit, &plan, &name, &mut cells, &mut deck) else {
        return Err("no bank".into());
    };
    if edges.width != width || edges.height != height {
        return Err("another size".into());
    }
    Ok(deck)
}

/// The array, the precharge cells, and a write cell, a sense cell and a tie for each of the two bits.
#[test]
fn the_bank(rt: HostRuntime) -> Result<(), Fail> {
    let deck = bank_deck(rt.alloc(), 224, 652)?;
    let names = [
        "demo_row",
        "demo_array",
        "demo_pre",
        "demo_data",
        "demo_bank",
    ];
    check_names(&rt, &deck, &names);
    check_counts(&rt, rt.alloc(), &deck, &[("demo_bank", 72)])
}

/// Two ties and two sense cells, whose lines stand one above the other.
#[test]
fn the_column_channel(rt: HostRuntime) -> Result<(), Fail> {
    let alloc = rt.alloc();
    let on = begin(alloc)?;
    let Ok(routed) = port_data::channel(alloc, &on.kit, &on.plan) else {
        return Err("no channel".into());
    };
    assert_eq!(rt; routed.tracks, 1);
    Ok(())
}
