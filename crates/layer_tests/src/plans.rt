ghost use Rattle.sram_plan.specs.Config.{IsConfig};

use sram_plan::{Config, plan, read_config};
use std::alloc::Global;
use std::process::Abort;
use std::test::Fail;

/// The names that every configuration here ends with.
const NAMES: &str = "tech_name = \"demo_tech\"\noutput_name = \"demo\"\n";

/// What a configuration's plan is, or the fault.
fn answer(alloc: Global, text: &str) -> Result<String, Fail> {
    match read_config(alloc, text.as_bytes()) {
        Ok(config) => plan_text(alloc, &config),
        Err(fault) => Ok(format!(in alloc; "{fault}")?),
    }
}

fn plan_text(alloc: Global, config: &Config) -> Result<String, Fail>
    requires { IsConfig config.now }
{
    let Ok(plan) = plan(config) else {
        return Ok(format!(in alloc; "no plan")?);
    };
    let [low, middle, high] = plan.groups;
    let (wpr, rows, columns) = (plan.wpr, plan.rows, plan.columns);
    let (banks, masks, bits) = (plan.banks, plan.masks, plan.addr_bits);
    Ok(format!(in alloc;
        "{wpr} words in each of {rows} rows, {columns} columns, {low}+{middle}+{high}, {banks} banks, {masks} masks, {bits} bits"
    )?)
}

fn check(rt: &impl Abort, alloc: Global, lines: &str, wanted: &str) -> Result<(), Fail> {
    let text = format!(in alloc; "{lines}\n{NAMES}")?;
    let given = answer(alloc, text.as_str())?;
    assert_eq!(rt; given.as_str(), wanted, "of {lines}");
    Ok(())
}

/// Two counts of words in a row are as good as one another: the smaller is taken.
#[test]
fn ties(rt: HostRuntime) -> Result<(), Fail> {
    let cases = [
        (
            "word_size = 32\nnum_words = 256",
            "2 words in each of 128 rows, 64 columns, 2+2+3, 1 banks, 0 masks, 8 bits",
        ),
        (
            "word_size = 8\nnum_words = 512\nnum_banks = 2",
            "4 words in each of 64 rows, 32 columns, 3+3+0, 2 banks, 0 masks, 9 bits",
        ),
    ];
    for (lines, wanted) in cases {
        check(&rt, rt.alloc(), lines, wanted)?;
    }
    Ok(())
}

#[test]
fn plans(rt: HostRuntime) -> Result<(), Fail> {
    let cases = [
        (
            "word_size = 8\nnum_words = 2048",
            "8 words in each of 256 rows, 64 columns, 2+3+3, 1 banks, 0 masks, 11 bits",
        ),
        (
            "word_size = 2\nnum_words = 32\nnum_banks = 2\nwrite_size = 1",
            "1 words in each of 16 rows, 2 columns, 2+2+0, 2 banks, 2 masks, 5 bits",
        ),
    ];
    for (lines, wanted) in cases {
        check(&rt, rt.alloc(), lines, wanted)?;
    }
    Ok(())
}

#[test]
fn configurations_without_a_plan(rt: HostRuntime) -> Result<(), Fail> {
    let cases = [
        "word_size = 64\nnum_words = 16\nwords_per_row = 8",
        "word_size = 2\nnum_words = 16\nnum_banks = 2",
        "word_size = 2\nnum_words = 4096",
        "word_size = 2\nnum_words = 8192\nnum_banks = 1",
    ];
    for lines in cases {
        check(&rt, rt.alloc(), lines, "no plan")?;
    }
    Ok(())
}

#[test]
fn keys_that_are_refused(rt: HostRuntime) -> Result<(), Fail> {
    let cases = [
        (
            "word_size = 4\nnum_words = 16\nnum_banks = 3",
            "num_banks is out of range",
        ),
        (
            "word_size = 4\nnum_words = 16\nwrite_size = 3",
            "write_size is out of range",
        ),
        (
            "word_size = 4\nnum_words = 16\nnum_r_ports = 1",
            "num_r_ports is out of range",
        ),
        (
            "word_size = \"4\"\nnum_words = 16\nnum_spare_rows = 1",
            "num_spare_rows is no key of a configuration",
        ),
    ];
    for (lines, wanted) in cases {
        check(&rt, rt.alloc(), lines, wanted)?;
    }
    Ok(())
}

/// Of a configuration without a technology, which is missing.
fn check_without_technology(rt: &impl Abort, alloc: Global) -> Result<(), Fail> {
    let lines = "word_size = 2\nnum_words = 16\noutput_name = \"demo\"\n";
    let given = answer(alloc, lines)?;
    assert_eq!(rt; given.as_str(), "tech_name is missing");
    Ok(())
}

#[test]
fn first_faults(rt: HostRuntime) -> Result<(), Fail> {
    let cases = [
        ("word_size = 2\nnum_words = 24", "num_words is out of range"),
        (
            "word_size = \"8\"\nnum_words = 16",
            "word_size is of another kind",
        ),
        ("num_words = 24", "word_size is missing"),
        ("word_size", "the configuration is no TOML document"),
    ];
    for (lines, wanted) in cases {
        check(&rt, rt.alloc(), lines, wanted)?;
    }
    check_without_technology(&rt, rt.alloc())
}

/// The plan of 16 words of two bits.
const SMALL: &str = "1 words in each of 16 rows, 2 columns, 2+2+0, 1 banks, 0 masks, 4 bits";

#[test]
fn keys_without_a_meaning(rt: HostRuntime) -> Result<(), Fail> {
    let lines = "word_size = 2\nnum_words = 16\nnum_rw_ports = 1\nnominal_corner_only = true";
    check(&rt, rt.alloc(), lines, SMALL)
}

/// What comes of a small memory of this name.
fn check_name(rt: &impl Abort, alloc: Global, name: &str, wanted: &str) -> Result<(), Fail> {
    let text = format!(in alloc;
        "word_size = 2\nnum_words = 16\ntech_name = \"demo_tech\"\noutput_name = \"{name}\"\n"
    )?;
    let given = answer(alloc, text.as_str())?;
    assert_eq!(rt; given.as_str(), wanted, "of {name}");
    Ok(())
}

/// No memory has a keyword of Verilog for its name, of which a contract has the list; in other letters, or longer, it
/// is a name.
#[test]
fn keywords_of_verilog(rt: HostRuntime) -> Result<(), Fail> {
    for word in ["always", "endmodule", "reg", "supply0", "xor"] {
        check_name(&rt, rt.alloc(), word, "output_name is out of range")?;
    }
    for name in ["sram", "Reg", "REG", "reg_", "regs", "logic", "do"] {
        check_name(&rt, rt.alloc(), name, SMALL)?;
    }
    Ok(())
}
