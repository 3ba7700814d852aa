use role_tables::{TableFault, read_tables};
use std::alloc::Global;
use std::process::Abort;
use std::test::Fail;
use tech_rules::read_tech;

/// The roles and tables of the demonstration technology, with the one layer that a technology has to have.
const TECHNOLOGY: &str = r#"outline = "outline"

[[layer]]
name = "outline"
gds = [1, 0]

[role]
bitcell = "demo_bitcell"
precharge = "demo_precharge"
mux = "demo_mux"
tie = "demo_tie"
sense = "demo_sense"
write = "demo_write"
rownand2 = "demo_rownand2"
rownand3 = "demo_rownand3"
driver = "demo_driver"
nand2 = "demo_nand2"
nand3 = "demo_nand3"
inv = "demo_inv"
dff = "demo_dff"
delay = "demo_delay"

[table]
bitcell = [
  "0xx/x = zz//=", "100/0 = lz//0", "100/1 = zl//1", "101/0 = lz//0", "101/1 = zl//0",
  "110/0 = lz//1", "110/1 = zl//1", "111/0 = lz//0", "111/1 = zl//1",
]
precharge = ["0/ = 11//", "1/ = zz//"]
mux = ["0/ = /--/", "1/ = /jj/"]
tie = ["/ = //"]
sense = ["0xx/ = z//", "100/ = z//", "101/ = 0//", "110/ = 1//", "111/ = z//"]
write = ["0x/ = zz//", "10/ = 01//", "11/ = 10//"]
rownand2 = ["0x/ = 1//", "10/ = 1//", "11/ = 0//"]
rownand3 = ["0xx/ = 1//", "10x/ = 1//", "110/ = 1//", "111/ = 0//"]
driver = ["x0/ = 0//", "01/ = 1//", "11/ = 0//"]
nand2 = ["0x/ = 1//", "10/ = 1//", "11/ = 0//"]
nand3 = ["0xx/ = 1//", "10x/ = 1//", "110/ = 1//", "111/ = 0//"]
inv = ["0/ = 1//", "1/ = 0//"]
dff = ["01/x0 = 0//01", "11/x0 = 1//11", "x1/01 = 0//01", "x1/11 = 1//11", "x0/0x = 0//00", "x0/1x = 1//10"]
delay = ["0/0 = 0//0", "1/0 = 0//1", "0/1 = 1//0", "1/1 = 1//1"]
"#;

/// The text with the first `old` in it replaced.
fn replaced(alloc: Global, text: &str, old: &str, new: &str) -> Result<String, Fail> {
    let Some((before, after)) = text.split_once(old) else {
        return Err("nothing to replace".into());
    };
    Ok(format!(in alloc; "{before}{new}{after}")?)
}

/// What the tables of a technology are: good, or the fault with its fields.
fn answer(alloc: Global, text: &str) -> Result<String, Fail> {
    let Ok(tech) = read_tech(alloc, text.as_bytes()) else {
        return Err("no technology".into());
    };
    let line = match read_tables(alloc, &tech) {
        Ok(()) => format!(in alloc; "good"),
        Err(TableFault::MissingRole { role }) => format!(in alloc; "MissingRole {role}"),
        Err(TableFault::BadRow { role, row }) => format!(in alloc; "BadRow {role} {row}"),
        Err(TableFault::Differs { role, point }) => format!(in alloc; "Differs {role} {point}"),
        Err(TableFault::Memory) => format!(in alloc; "out of memory"),
    };
    Ok(line?)
}

fn check(rt: &impl Abort, alloc: Global, old: &str, new: &str, wanted: &str) -> Result<(), Fail> {
    let text = replaced(alloc, TECHNOLOGY, old, new)?;
    let given = answer(alloc, text.as_str())?;
    assert_eq!(rt; given.as_str(), wanted, "where {old} is {new}");
    Ok(())
}

#[test]
fn demonstration_tables_are_good(rt: HostRuntime) -> Result<(), Fail> {
    let given = answer(rt.alloc(), TECHNOLOGY)?;
    assert_eq!(rt; given.as_str(), "good");
    Ok(())
}

#[test]
fn roles_that_are_missing(rt: HostRuntime) -> Result<(), Fail> {
    let cases = [
        ("sense = \"demo_sense\"", "", "MissingRole sense"),
        ("tie = [\"/ = //\"]", "", "MissingRole tie"),
        ("tie = [\"/ = //\"]", "tie = []", "MissingRole tie"),
    ];
    for (old, new, wanted) in cases {
        check(&rt, rt.alloc(), old, new, wanted)?;
    }
    Ok(())
}

#[test]
fn rows_that_are_bad(rt: HostRuntime) -> Result<(), Fail> {
    let cases = [
        // Two spaces before the sign of equality, a value that no stored bit has, and a row that is too short.
        ("\"1/ = zz//\"", "\"1/  = zz//\"", "BadRow precharge 1"),
        ("\"111/1 = zl//1\"", "\"111/1 = zl//2\"", "BadRow bitcell 8"),
        ("\"11/ = 10//\"", "\"11/ = 1//\"", "BadRow write 2"),
        // Rows that overlap an earlier one, which says something else or the same.
        ("\"1/ = /jj/\"", "\"x/ = /jj/\"", "BadRow mux 1"),
        ("\"/ = //\"", "\"/ = //\", \"/ = //\"", "BadRow tie 1"),
    ];
    for (old, new, wanted) in cases {
        check(&rt, rt.alloc(), old, new, wanted)?;
    }
    Ok(())
}

#[test]
fn points_that_differ(rt: HostRuntime) -> Result<(), Fail> {
    let cases = [
        (
            "\"11/x0 = 1//11\"",
            "\"11/x0 = 0//01\"",
            "Differs dff 11/00",
        ),
        (
            "\"0xx/x = zz//=\"",
            "\"0xx/x = zz//0\"",
            "Differs bitcell 000/1",
        ),
        (
            "\"100/0 = lz//0\"",
            "\"100/0 = 0z//0\"",
            "Differs bitcell 100/0",
        ),
        ("\"101/ = 0//\"", "\"101/ = 1//\"", "Differs sense 101/"),
        (
            "inv = [\"0/ = 1//\", \"1/ = 0//\"]",
            "inv = [\"1/ = 0//\"]",
            "Differs inv 0/",
        ),
    ];
    for (old, new, wanted) in cases {
        check(&rt, rt.alloc(), old, new, wanted)?;
    }
    Ok(())
}

/// The answer where the bitcell's first row differs and another row is bad.
fn check_two(
    rt: &impl Abort,
    alloc: Global,
    old: &str,
    new: &str,
    wanted: &str,
) -> Result<(), Fail> {
    let differs = replaced(alloc, TECHNOLOGY, "\"0xx/x = zz//=\"", "\"0xx/x = zz//0\"")?;
    let text = replaced(alloc, differs.as_str(), old, new)?;
    let given = answer(alloc, text.as_str())?;
    assert_eq!(rt; given.as_str(), wanted, "where {old} is {new}");
    Ok(())
}

/// Of a role all rows are looked at before the first point, and a role before the next.
#[test]
fn the_first_of_two_faults(rt: HostRuntime) -> Result<(), Fail> {
    let cases = [
        ("\"111/1 = zl//1\"", "\"111/1 = zl/1\"", "BadRow bitcell 8"),
        ("\"/ = //\"", "\"/ =//\"", "Differs bitcell 000/1"),
    ];
    for (old, new, wanted) in cases {
        check_two(&rt, rt.alloc(), old, new, wanted)?;
    }
    Ok(())
}
