//! One row for each command, over the kit of demonstration 0, and calls that fail while a command reads or prints. More
//! rows stand in examples/rows, which need only a program.

use crate::run::run;
use demo_kit::demo;
use or_geom::{Items, Name};
use or_host::{MemFile, MemSink, MemStore};
use std::alloc::Global;
use std::test::Fail;
use std::thread::Threads;

pub const BUILD: [&str; 3] = ["build", "demo.toml", "1"];

pub const ROM: [&str; 4] = ["rom", "demo.toml", "rom.bin", "1"];

pub const DEMO: [&str; 3] = ["demo", "0", "1"];

const CHECK: [&str; 5] = ["check", "demo_tech.toml", "demo_tech.gds", "demo_inv", "1"];

/// What `build` and `demo` print, and what `rom` prints.
pub const DEMO_LINE: &str = "demo rows 16 columns 2 tracks 24 leaves 112 size 844 880\n";

pub const ROM_LINE: &str = "demo rows 16 columns 2 tracks 19 leaves 102 size 660 808\n";

/// A change of a file: behind the first of the first texts, the first of the second becomes the third.
pub type Change = (&'static str, &'static [u8], &'static [u8], &'static [u8]);

/// Two rules that the outline of an inverter breaks, and the report.
pub const BROKEN: Change = (
    "demo_tech.toml",
    b"",
    b"[[connect]]\n",
    b"[[rule]]\nkind = \"width\"\nlayer = \"outline\"\nmin = 17\n\n[[rule]]\nkind = \"width\"\nlayer = \"outline\"\nmin = 18\n\n[[connect]]\n",
);

pub const REPORT: &str = "20 outline 0 0 16 32\n21 outline 0 0 16 32\n";

/// The roles of the cells that hold a fixed bit, which are drawn and wired as the bitcell.
pub const FIXED_BITS: Change = (
    "demo_tech.toml",
    b"",
    b"\n[table]\n",
    b"rom0 = \"demo_bitcell\"\nrom1 = \"demo_bitcell\"\n\n[table]\nrom0 = [\"0/ = zz//\", \"1/ = lz//\"]\nrom1 = [\"0/ = zz//\", \"1/ = zl//\"]\n",
);

/// Another name of a pin.
const RENAMED: Change = ("demo_tech.sp", b"demo_inv ", b"a", b"b");

/// A kind of transistors, of which the layout has none, and one in a subcircuit.
const TRANSISTOR: [Change; 2] = [
    (
        "demo_tech.toml",
        b"",
        b"[wire]\n",
        b"[[device]]\nmodel = \"n\"\ngate = \"m1\"\nactive = \"m3\"\nby = \"m2\"\n\n[wire]\n",
    ),
    (
        "demo_tech.sp",
        b"demo_inv a z vdd gnd\n",
        b"",
        b"m1 z a gnd gnd n\n",
    ),
];

/// A rule between two metals.
const TWO_METALS: Change = (
    "demo_tech.toml",
    b"",
    b"[[connect]]\n",
    b"[[rule]]\nkind = \"space\"\nlayer = \"m1\"\nother = \"m2\"\nmin = 1\n\n[[connect]]\n",
);

/// The word at each address of a read-only memory is the address modulo 4, in a byte.
const WORDS: &[u8] = &[0, 1, 2, 3, 0, 1, 2, 3, 0, 1, 2, 3, 0, 1, 2, 3];

/// What stands before the first such part, and what behind it.
fn parted<'a>(bytes: &'a [u8], part: &[u8]) -> Option<(&'a [u8], &'a [u8])> {
    for i in 0..=bytes.len() {
        let (before, rest) = bytes.split_at(i);
        if let Some(behind) = rest.strip_prefix(part) {
            return Some((before, behind));
        }
    }
    None
}

pub fn file(alloc: Global, name: &[u8], bytes: Vec<u8>) -> Result<MemFile, Fail> {
    Ok(MemFile {
        name: Name::from_bytes(alloc, name)?,
        bytes: Items::from_vec(bytes),
    })
}

/// The file with the changes that are its own.
fn changed(alloc: Global, name: &str, bytes: &[u8], changes: &[Change]) -> Result<MemFile, Fail> {
    let mut bytes = Vec::from_slice(alloc, bytes)?;
    for (changed, after, old, new) in changes {
        if *changed == name {
            let (head, rest) = parted(&bytes, after).ok_or("no such place")?;
            let (middle, tail) = parted(rest, old).ok_or("nothing to change")?;
            let mut out = Vec::from_slice(alloc, head)?;
            for part in [*after, middle, *new, tail] {
                out.extend_from_slice(part)?;
            }
            bytes = out;
        }
    }
    file(alloc, name.as_bytes(), bytes)
}

/// What demonstration 0 is built of, with these changes, and the data file of a read-only memory.
pub fn inputs_with(alloc: Global, changes: &[Change]) -> Result<Vec<MemFile>, Fail> {
    let kit = demo(alloc, 0)?;
    Ok(vec![in alloc;
        changed(alloc, "demo.toml", &kit.config, changes)?,
        changed(alloc, "demo_tech.toml", &kit.tech, changes)?,
        changed(alloc, "demo_tech.gds", &kit.gds, changes)?,
        changed(alloc, "demo_tech.sp", &kit.sp, changes)?,
        file(alloc, b"rom.bin", WORDS.to_vec(alloc)?)?,
    ]?)
}

/// Which calls of the store and of the sink fail, counted from 1.
#[derive(Clone, Copy)]
pub struct Failing {
    pub store: u64,
    pub sink: u64,
}

pub const NONE: Failing = Failing { store: 0, sink: 0 };

/// How a run ended: its status, the files, and the text.
#[derive(Drop)]
pub struct Ended {
    pub status: u8,
    pub store: MemStore,
    pub out: MemSink,
}

pub fn list_of(alloc: Global, words: &[&str]) -> Result<Vec<String>, Fail> {
    let mut list = Vec::new(alloc);
    for word in words {
        list.push(String::from_str(alloc, word)?)?;
    }
    Ok(list)
}

/// Runs the words on files.
pub fn run_on<R: Threads + Sync>(
    rt: &R,
    alloc: Global,
    words: &[&str],
    files: Vec<MemFile>,
    failing: Failing,
) -> Result<Ended, Fail> {
    let list = list_of(alloc, words)?;
    let mut store = MemStore::with(alloc, files, vec![in alloc; failing.store]?);
    let mut out = MemSink::with(alloc, vec![in alloc; failing.sink]?);
    let status = run(rt, alloc, &list, &mut store, &mut out);
    Ok(Ended { status, store, out })
}

/// A status, and what is printed.
type Reply = (u8, &'static str);

/// Whether words on changed files, of which calls fail, end so.
fn ends_as<R: Threads + Sync>(
    rt: &R,
    alloc: Global,
    words: &[&str],
    changes: &[Change],
    failing: Failing,
    reply: Reply,
) -> Result<bool, Fail> {
    let ended = run_on(rt, alloc, words, inputs_with(alloc, changes)?, failing)?;
    let (status, text) = reply;
    Ok(ended.status == status && ended.out.written() == text.as_bytes())
}

/// Words, changes of the files, and the reply.
type Row = (&'static [&'static str], &'static [Change], Reply);

const ROWS: [Row; 8] = [
    (&CHECK, &[BROKEN], (1, REPORT)),
    (
        &["nets", "demo_tech.toml", "demo_tech.gds", "demo_inv"],
        &[],
        (0, "0 m2 a\n1 m1 gnd\n2 m1 vdd\n3 m2 z\n"),
    ),
    (
        &[
            "compare",
            "demo_tech.toml",
            "demo_tech.gds",
            "demo_tech.sp",
            "demo_inv",
        ],
        &[RENAMED],
        (1, "Unlabelled b\n"),
    ),
    (
        &["devices", "demo_tech"],
        &TRANSISTOR,
        (1, "Absent inv n a gnd z\n"),
    ),
    (
        &["kit", "demo_tech", "1"],
        &[TWO_METALS],
        (1, "Weak Layer 20\n"),
    ),
    (&BUILD, &[], (0, DEMO_LINE)),
    (&ROM, &[FIXED_BITS], (0, ROM_LINE)),
    (&DEMO, &[], (0, DEMO_LINE)),
];

#[test]
fn each_command(rt: HostRuntime) -> Result<(), Fail> {
    let alloc = rt.alloc();
    for (words, changes, reply) in ROWS {
        assert!(rt; ends_as(&rt, alloc, words, changes, NONE, reply)?);
    }
    Ok(())
}

/// Which call of the store fails, which of the sink, and what is printed. A sink that fails prints the first half.
type Failure = (u64, u64, &'static str);

const FAILURES: [Failure; 4] = [
    (1, 0, "openram: 91 ReadFailed demo_tech.toml\n"),
    (2, 0, "openram: 91 ReadFailed demo_tech.gds\n"),
    (0, 1, "20 outline"),
    (1, 1, "openram: 91 ReadFai"),
];

#[test]
fn calls_that_fail(rt: HostRuntime) -> Result<(), Fail> {
    let alloc = rt.alloc();
    for (store, sink, text) in FAILURES {
        let failing = Failing { store, sink };
        assert!(rt; ends_as(&rt, alloc, &CHECK, &[BROKEN], failing, (4, text))?);
    }
    Ok(())
}

/// Of two lines the second put fails, and so the second line alone is cut.
#[test]
fn each_line_is_one_put(rt: HostRuntime) -> Result<(), Fail> {
    let failing = Failing { store: 0, sink: 2 };
    let text = "20 outline 0 0 16 32\n21 outline";
    assert!(rt; ends_as(&rt, rt.alloc(), &CHECK, &[BROKEN], failing, (4, text))?);
    Ok(())
}
