//! Demonstration kits: kit 0 is the one of examples/kit, and is read; and configurations.

ghost use Rattle.std.specs.Prelude.{◌≤◌};

use demo_kit::demo;
use gds_stream::read_gds;
use spice_text::read_spice;
use std::alloc::Global;
use std::process::Abort;
use std::test::Fail;

/// How many bytes there are, and their sum.
fn measure(bytes: &[u8]) -> (usize, u64) {
    let mut sum = 0u64;
    for byte in bytes {
        sum = sum.wrapping_add(u64::from(*byte));
    }
    (bytes.len(), sum)
}

/// The numbers are those of the files in examples/kit, which a program of its own wrote alike.
#[test]
fn kit_0_is_the_one_of_the_examples(rt: HostRuntime) -> Result<(), Fail> {
    let files = demo(rt.alloc(), 0)?;
    assert_eq!(rt; measure(&files.tech), (2875, 196_906));
    assert_eq!(rt; measure(&files.gds), (9726, 78_413));
    assert_eq!(rt; measure(&files.sp), (750, 62_688));
    Ok(())
}

/// How many structures a GDSII file has.
fn structure_count(alloc: Global, gds: &[u8]) -> Result<usize, Fail> {
    let library = read_gds(alloc, gds).ok().ok_or("refused")?;
    Ok(library.structs.as_slice().len())
}

/// How many subcircuits a SPICE file has.
fn subckt_count(alloc: Global, sp: &[u8]) -> Result<usize, Fail> {
    let deck = read_spice(alloc, sp).ok().ok_or("refused")?;
    Ok(deck.subckts.as_slice().len())
}

#[test]
fn kit_0_is_read(rt: HostRuntime) -> Result<(), Fail> {
    let files = demo(rt.alloc(), 0)?;
    assert_eq!(rt; structure_count(rt.alloc(), &files.gds)?, 14);
    assert_eq!(rt; subckt_count(rt.alloc(), &files.sp)?, 14);
    Ok(())
}

fn check(rt: &impl Abort, alloc: Global, n: u32, numbers: &str) -> Result<(), Fail>
    requires { n ≤ 65535 }
{
    let wanted = format!(in alloc; "{numbers}tech_name = \"demo_tech\"\noutput_name = \"demo\"\n")?;
    let files = demo(alloc, n)?;
    assert_eq!(rt; files.config.as_slice(), wanted.as_bytes());
    Ok(())
}

/// The fewest bits and words, the most, and the greatest number.
#[test]
fn configurations(rt: HostRuntime) -> Result<(), Fail> {
    let alloc = rt.alloc();
    check(&rt, alloc, 0, "word_size = 2\nnum_words = 16\n")?;
    check(&rt, alloc, 359, "word_size = 16\nnum_words = 512\n")?;
    check(&rt, alloc, 65535, "word_size = 5\nnum_words = 16\n")
}
