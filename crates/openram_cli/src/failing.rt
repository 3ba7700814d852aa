//! Each call of the store and of the sink that a build, a read-only memory or a demonstration makes fails in turn.

use crate::run::run;
use crate::tests::{
    BUILD, Change, DEMO, DEMO_LINE, FIXED_BITS, Failing, NONE, ROM, ROM_LINE, file, inputs_with,
    list_of, run_on,
};
use or_host::{MemFile, MemSink, MemStore};
use std::alloc::Global;
use std::process::Abort;
use std::test::Fail;
use std::thread::Threads;

/// The files of a memory: those that it is built of, in the order in which they are read, and the views.
const FILES: [&str; 8] = [
    "demo.toml",
    "demo_tech.toml",
    "demo_tech.gds",
    "demo_tech.sp",
    "demo.sp",
    "demo.gds",
    "demo.lef",
    "demo.v",
];

/// Those of a read-only memory.
const ROM_FILES: [&str; 9] = [
    "demo.toml",
    "demo_tech.toml",
    "demo_tech.gds",
    "demo_tech.sp",
    "rom.bin",
    "demo.sp",
    "demo.gds",
    "demo.lef",
    "demo.v",
];

/// The first of `files` are read, so many, and then the others are written: one call of the store for each. The line is
/// the one that is printed where no call fails.
#[derive(Clone, Copy)]
struct Command {
    words: &'static [&'static str],
    changes: &'static [Change],
    files: &'static [&'static str],
    reads: u64,
    line: &'static str,
}

const COMMANDS: [Command; 3] = [
    Command {
        words: &BUILD,
        changes: &[],
        files: &FILES,
        reads: 4,
        line: DEMO_LINE,
    },
    Command {
        words: &ROM,
        changes: &[FIXED_BITS],
        files: &ROM_FILES,
        reads: 5,
        line: ROM_LINE,
    },
    Command {
        words: &DEMO,
        changes: &[],
        files: &FILES,
        reads: 0,
        line: DEMO_LINE,
    },
];

/// The files that it reads.
fn inputs_of(alloc: Global, command: Command) -> Result<Vec<MemFile>, Fail> {
    if command.reads == 0 {
        return Ok(Vec::new(alloc));
    }
    inputs_with(alloc, command.changes)
}

/// The files that are read, and old ones under the names of those that are written.
fn files_before(alloc: Global, command: Command) -> Result<Vec<MemFile>, Fail> {
    let mut files = Vec::new(alloc);
    for (name, number) in command.files.iter().zip(1..=9) {
        if number > command.reads {
            files.push(file(alloc, name.as_bytes(), b"old".to_vec(alloc)?)?)?;
        }
    }
    for input in inputs_of(alloc, command)? {
        files.push(input)?;
    }
    Ok(files)
}

fn half(bytes: &[u8]) -> &[u8] {
    &bytes[..bytes.len() / 2]
}

/// The line of a command whose call of the store with this number fails, if there is one.
fn line_of(alloc: Global, command: Command, failing: u64) -> Result<String, Fail> {
    for (name, number) in command.files.iter().zip(1..=9) {
        if number == failing && number <= command.reads {
            return Ok(format!(in alloc; "openram: 91 ReadFailed {name}\n")?);
        }
        if number == failing {
            return Ok(format!(in alloc; "openram: 92 WriteFailed {name}\n")?);
        }
    }
    Ok(String::from_str(alloc, command.line)?)
}

/// What the file of a call holds after the call with the number `failing`, from what it held before and when all is
/// done.
fn state_after<'a>(number: u64, failing: u64, before: &'a [u8], done: &'a [u8]) -> &'a [u8] {
    if number < failing {
        return done;
    }
    if number == failing {
        return half(done);
    }
    before
}

/// The calls before the failing one are done, that one leaves the first half, and the later ones nothing.
fn expect_files(
    rt: &impl Abort,
    command: Command,
    failing: u64,
    before: &MemStore,
    done: &MemStore,
    now: &MemStore,
) -> Result<(), Fail> {
    for (name, number) in command.files.iter().zip(1..=9) {
        let before = before.contents(name).ok_or("no file before")?;
        let done = done.contents(name).ok_or("no file when done")?;
        let state = if number <= command.reads {
            before
        } else {
            state_after(number, failing, before, done)
        };
        assert_eq!(rt; now.contents(name), Some(state), "{name} at {failing}");
    }
    Ok(())
}

/// Status, line and files of a command whose calls with these numbers fail.
fn expect_failing<R: Threads + Sync + Abort>(
    rt: &R,
    alloc: Global,
    command: Command,
    failing: Failing,
    before: &MemStore,
    done: &MemStore,
) -> Result<(), Fail> {
    let files = files_before(alloc, command)?;
    let ended = run_on(rt, alloc, command.words, files, failing)?;
    let fails = failing.store <= command.files.len() as u64 || failing.sink == 1;
    assert_eq!(rt; ended.status, if fails { 4 } else { 0 });
    let line = line_of(alloc, command, failing.store)?;
    let text = line.as_bytes();
    let text = if failing.sink == 1 { half(text) } else { text };
    assert_eq!(rt; ended.out.written(), text);
    expect_files(rt, command, failing.store, before, done, &ended.store)
}

/// The calls of the store from the first to the last, and one that is never made; each with and without the put of the
/// line.
#[test]
fn each_call_fails(rt: HostRuntime) -> Result<(), Fail> {
    let alloc = rt.alloc();
    for command in COMMANDS {
        let before = MemStore::with(alloc, files_before(alloc, command)?, Vec::new(alloc));
        let files = files_before(alloc, command)?;
        let done = run_on(&rt, alloc, command.words, files, NONE)?.store;
        for store in 1..=10 {
            for sink in 0..=1 {
                let failing = Failing { store, sink };
                expect_failing(&rt, alloc, command, failing, &before, &done)?;
            }
        }
    }
    Ok(())
}

/// A fault of an earlier run is none of a later one over the same store.
#[test]
fn a_fault_that_is_over(rt: HostRuntime) -> Result<(), Fail> {
    let alloc = rt.alloc();
    let words = list_of(alloc, &BUILD)?;
    let mut store = MemStore::with(alloc, inputs_with(alloc, &[])?, vec![in alloc; 1]?);
    let mut out = MemSink::with(alloc, Vec::new(alloc));
    assert_eq!(rt; run(&rt, alloc, &words, &mut store, &mut out), 4);
    assert_eq!(rt; run(&rt, alloc, &words, &mut store, &mut out), 0);
    let text = format!(in alloc; "openram: 91 ReadFailed demo.toml\n{DEMO_LINE}")?;
    assert_eq!(rt; out.written(), text.as_bytes());
    Ok(())
}
