//! Files of leaf cells: kits of the first numbers, and changes of kit 0.

ghost use Rattle.std.specs.Prelude.{◌≤◌};

use demo_kit::demo;
use gds_library::read_gds;
use leaf_tables::{KitFault, kit_of};
use or_geom::Items;
use role_tables::TableFault;
use std::alloc::Global;
use std::process::Abort;
use std::test::Fail;
use tech_rules::read_tech;

/// Where the inverter's structure lies in the GDSII file of kit 0.
const INVERTER: usize = 8088;

const AFTER_INVERTER: usize = 8608;
/// The last byte of the x of its label `a`.
const LABEL_OF_A: usize = 8519;

/// What the files of a kit are: a kit, or the fault with its fields.
fn answer(alloc: Global, tech: &[u8], gds: &[u8], sp: &[u8]) -> Result<String, Fail> {
    let Ok(tech) = read_tech(alloc, tech) else {
        return Err("no technology".into());
    };
    let Ok(lib) = read_gds(alloc, gds) else {
        return Err("no library".into());
    };
    let text = Items::from_vec(Vec::from_slice(alloc, sp)?);
    match kit_of(alloc, tech, lib, text) {
        Ok(_) => Ok(format!(in alloc; "a kit")?),
        Err(fault) => fault_text(alloc, &fault),
    }
}

fn fault_text(alloc: Global, fault: &KitFault) -> Result<String, Fail> {
    let text = match fault {
        KitFault::NoWire => format!(in alloc; "NoWire"),
        KitFault::Table(fault) => return table_text(alloc, fault),
        KitFault::PortsDiffer { role } => format!(in alloc; "PortsDiffer {role}"),
        KitFault::PinMissing { role, pin } => format!(in alloc; "PinMissing {role} {pin}"),
        KitFault::HeightDiffers { role } => format!(in alloc; "HeightDiffers {role}"),
        _ => format!(in alloc; "another fault"),
    };
    Ok(text?)
}

fn table_text(alloc: Global, fault: &TableFault) -> Result<String, Fail> {
    let text = match fault {
        TableFault::Differs { role, point } => format!(in alloc; "Differs {role} {point}"),
        _ => format!(in alloc; "another fault"),
    };
    Ok(text?)
}

/// The text with the first `old` in it replaced.
fn replaced(alloc: Global, text: &[u8], old: &str, new: &str) -> Result<String, Fail> {
    let text = str::from_utf8(text)?;
    let Some((before, after)) = text.split_once(old) else {
        return Err("nothing to replace".into());
    };
    Ok(format!(in alloc; "{before}{new}{after}")?)
}

/// The text without what stands from `first` up to `last`.
fn without(alloc: Global, text: &[u8], first: &str, last: &str) -> Result<String, Fail> {
    let text = str::from_utf8(text)?;
    let Some((before, rest)) = text.split_once(first) else {
        return Err("no beginning".into());
    };
    let Some((_, after)) = rest.split_once(last) else {
        return Err("no end".into());
    };
    Ok(format!(in alloc; "{before}{last}{after}")?)
}

/// The file with the inverter's coordinates of 28 and 32 greater by one: a cell of 33 whose upper rail and pins end
/// there.
fn with_a_higher_inverter(alloc: Global, gds: &[u8]) -> Result<Vec<u8>, Fail> {
    let mut bytes = Vec::new(alloc);
    let mut zeros = 0u32;
    for index in 0..gds.len() {
        let byte = gds[index];
        let inside = INVERTER <= index && index < AFTER_INVERTER;
        let is_end = zeros >= 3 && (byte == 28 || byte == 32);
        bytes.push(if inside && is_end { byte + 1 } else { byte })?;
        zeros = if byte == 0 {
            zeros.saturating_add(1)
        } else {
            0
        };
    }
    Ok(bytes)
}

fn check(
    rt: &impl Abort,
    alloc: Global,
    tech: &[u8],
    gds: &[u8],
    sp: &[u8],
    wanted: &str,
) -> Result<(), Fail> {
    let given = answer(alloc, tech, gds, sp)?;
    assert_eq!(rt; given.as_str(), wanted);
    Ok(())
}

#[test]
fn the_first_kits_are_kits(rt: HostRuntime) -> Result<(), Fail> {
    let alloc = rt.alloc();
    for number in 0..4 {
        let files = demo(alloc, number)?;
        check(&rt, alloc, &files.tech, &files.gds, &files.sp, "a kit")?;
    }
    Ok(())
}

#[test]
fn kits_without_wires(rt: HostRuntime) -> Result<(), Fail> {
    let alloc = rt.alloc();
    let files = demo(alloc, 0)?;
    let tech = without(alloc, &files.tech, "[wire]", "[role]")?;
    check(&rt, alloc, tech.as_bytes(), &files.gds, &files.sp, "NoWire")
}

#[test]
fn tables_that_differ(rt: HostRuntime) -> Result<(), Fail> {
    let alloc = rt.alloc();
    let files = demo(alloc, 0)?;
    let tech = replaced(alloc, &files.tech, "11/x0 = 1//11", "11/x0 = 0//01")?;
    check(
        &rt,
        alloc,
        tech.as_bytes(),
        &files.gds,
        &files.sp,
        "Differs dff 11/00",
    )
}

#[test]
fn ports_in_another_order(rt: HostRuntime) -> Result<(), Fail> {
    let alloc = rt.alloc();
    let files = demo(alloc, 0)?;
    let sp = replaced(
        alloc,
        &files.sp,
        "demo_inv a z vdd gnd",
        "demo_inv z a vdd gnd",
    )?;
    check(
        &rt,
        alloc,
        &files.tech,
        &files.gds,
        sp.as_bytes(),
        "PortsDiffer inv",
    )
}

#[test]
fn an_inverter_that_is_higher(rt: HostRuntime) -> Result<(), Fail> {
    let alloc = rt.alloc();
    let files = demo(alloc, 0)?;
    let gds = with_a_higher_inverter(alloc, &files.gds)?;
    check(
        &rt,
        alloc,
        &files.tech,
        &gds,
        &files.sp,
        "HeightDiffers inv",
    )
}

/// The label of pin a at 7 22 in place of 4 22.
#[test]
fn a_label_beside_its_pin(rt: HostRuntime) -> Result<(), Fail> {
    let alloc = rt.alloc();
    let files = demo(alloc, 0)?;
    let mut gds = Vec::from_slice(alloc, &files.gds)?;
    let Some(byte) = gds.get_mut(LABEL_OF_A) else {
        return Err("a short file".into());
    };
    *byte = 7;
    check(&rt, alloc, &files.tech, &gds, &files.sp, "PinMissing inv a")
}
