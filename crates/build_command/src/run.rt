ghost use Rattle.std.specs.Prelude.{◌≡◌, ◌<◌, ◌≤◌, false, IfOk, codes};
ghost use Rattle.or_host.specs.FileList.{files_of};
ghost use Rattle.command_steps.specs.Outcome.{UnlessMemory, is_read_failed, is_usage_outcome};
ghost use Rattle.command_steps.specs.Outside.{outside_at};
ghost use Rattle.command_steps.specs.Reading.{HasRead};
ghost use Rattle.command_steps.specs.Writing.{HaveAsciiNames};
ghost use Rattle.build_command.specs.Made.{IsRomWork, IsWork};
ghost use Rattle.build_command.specs.Run.{IsMakingRun, IsPutOut, IsDemoBuilt, IsDemoWritten};
ghost use Rattle.build_command.specs.Words.{HasMakingWorkers, told_making};
ghost use Rattle.build_command.specs.Words.Making.{build, demo, rom};

use crate::demo_files::demo_files;
use crate::design::read_design;
use crate::made::{Made, make_design, make_rom};
use crate::rom_design::read_rom;
use crate::words::{BuildKind, Making, RomFiles};
use command_steps::{finish, finish_unwritten, no_memory, refuse, write_files};
use or_host::{MemFile, Sink, Store, SureStore};
use reply_lines::Refusal;
use std::alloc::Global;
use std::thread::Threads;
use tile_checker::Gate;

/// The memory that the configuration's file asks for.
fn work_on<R: Threads + Sync, G: Gate + Sync, S: Store>(
    rt: &R,
    alloc: Global,
    gate: &G,
    config: &str,
    workers: u8,
    store: &mut S,
) -> Result<Made, Refusal>
    requires some { 0 < workers }
    requires at_most { workers ≤ 64 }
    ensures read { HasRead (λ files. IsWork files config.now) result (S.state store.old) (S.state store.new) }
    ensures names { IfOk result (λ made. HaveAsciiNames made.views) }
    ensures done { IfOk result (λ made. made.reply.status ≡ 0) }
    ensures words { is_usage_outcome result ≡ false }
{
    let design = read_design(alloc, config, store)?;
    make_design(rt, alloc, gate, design, workers)
}

/// The read-only memory that the files of a configuration and of words ask for.
fn work_on_rom<R: Threads + Sync, G: Gate + Sync, S: Store>(
    rt: &R,
    alloc: Global,
    gate: &G,
    asked: RomFiles<'_>,
    workers: u8,
    store: &mut S,
) -> Result<Made, Refusal>
    requires some { 0 < workers }
    requires at_most { workers ≤ 64 }
    ensures read { HasRead (λ files. IsRomWork files asked.entry.config.now asked.entry.content.now) result
        (S.state store.old) (S.state store.new) }
    ensures names { IfOk result (λ made. HaveAsciiNames made.views) }
    ensures done { IfOk result (λ made. made.reply.status ≡ 0) }
    ensures words { is_usage_outcome result ≡ false }
{
    let memory = read_rom(alloc, asked.config, asked.content, store)?;
    make_rom(rt, alloc, gate, memory, workers)
}

/// The memory that the files of a demonstration ask for, which are looked at themselves.
fn work_on_demo<R: Threads + Sync, G: Gate + Sync>(
    rt: &R,
    alloc: Global,
    gate: &G,
    files: Vec<MemFile>,
    workers: u8,
) -> Result<Made, Refusal>
    requires some { 0 < workers }
    requires at_most { workers ≤ 64 }
    ensures work { UnlessMemory (IsWork (files_of files.items) (codes "demo.toml")) result }
    ensures names { IfOk result (λ made. HaveAsciiNames made.views) }
    ensures done { IfOk result (λ made. made.reply.status ≡ 0) }
    ensures read { is_read_failed result ≡ false }
    ensures words { is_usage_outcome result ≡ false }
{
    let mut source = SureStore::with(alloc, files);
    work_on(rt, alloc, gate, "demo.toml", workers, &mut source)
}

/// Writes the views, and prints the line of success.
fn put_out<S: Store, K: Sink>(alloc: Global, made: &Made, store: &mut S, out: &mut K) -> u8
    requires { HaveAsciiNames made.now.views }
    ensures { IsPutOut made.now result (outside_at (S.state store.old) (K.state out.old))
        (outside_at (S.state store.new) (K.state out.new)) }
{
    match write_files(made.views.as_slice(), store) {
        Ok(()) => finish(alloc, &made.reply, out),
        Err(unwritten) => finish_unwritten(alloc, &unwritten, out),
    }
}

/// Builds the memory of a configuration's file.
fn build_from<R: Threads + Sync, G: Gate + Sync, S: Store, K: Sink>(
    rt: &R,
    alloc: Global,
    gate: &G,
    config: &str,
    workers: u8,
    store: &mut S,
    out: &mut K,
) -> u8
    requires some { 0 < workers }
    requires at_most { workers ≤ 64 }
    ensures { IsMakingRun (build config.now) result (outside_at (S.state store.old) (K.state out.old))
        (outside_at (S.state store.new) (K.state out.new)) }
{
    match work_on(rt, alloc, gate, config, workers, store) {
        Ok(made) => put_out(alloc, &made, store, out),
        Err(refusal) => refuse(alloc, &refusal, out),
    }
}

/// Builds the read-only memory of the files of a configuration and of words.
fn build_rom<R: Threads + Sync, G: Gate + Sync, S: Store, K: Sink>(
    rt: &R,
    alloc: Global,
    gate: &G,
    asked: RomFiles<'_>,
    workers: u8,
    store: &mut S,
    out: &mut K,
) -> u8
    requires some { 0 < workers }
    requires at_most { workers ≤ 64 }
    ensures { IsMakingRun (rom asked.entry.config.now asked.entry.content.now) result
        (outside_at (S.state store.old) (K.state out.old)) (outside_at (S.state store.new) (K.state out.new)) }
{
    match work_on_rom(rt, alloc, gate, asked, workers, store) {
        Ok(made) => put_out(alloc, &made, store, out),
        Err(refusal) => refuse(alloc, &refusal, out),
    }
}

/// Builds the memory of a demonstration whose files are written.
fn build_demo<R: Threads + Sync, G: Gate + Sync, S: Store, K: Sink>(
    rt: &R,
    alloc: Global,
    gate: &G,
    files: Vec<MemFile>,
    workers: u8,
    store: &mut S,
    out: &mut K,
) -> u8
    requires some { 0 < workers }
    requires at_most { workers ≤ 64 }
    ensures { IsDemoBuilt files.items result (outside_at (S.state store.old) (K.state out.old))
        (outside_at (S.state store.new) (K.state out.new)) }
{
    match work_on_demo(rt, alloc, gate, files, workers) {
        Ok(made) => put_out(alloc, &made, store, out),
        Err(refusal) => refuse(alloc, &refusal, out),
    }
}

/// Writes the files of a demonstration, and builds the memory that they ask for.
fn write_and_build<R: Threads + Sync, G: Gate + Sync, S: Store, K: Sink>(
    rt: &R,
    alloc: Global,
    gate: &G,
    files: Vec<MemFile>,
    workers: u8,
    store: &mut S,
    out: &mut K,
) -> u8
    requires some { 0 < workers }
    requires at_most { workers ≤ 64 }
    requires names { HaveAsciiNames files.items }
    ensures { IsDemoWritten files.items result (outside_at (S.state store.old) (K.state out.old))
        (outside_at (S.state store.new) (K.state out.new)) }
{
    match write_files(&files, store) {
        Ok(()) => build_demo(rt, alloc, gate, files, workers, store, out),
        Err(unwritten) => finish_unwritten(alloc, &unwritten, out),
    }
}

/// Makes and writes the files of a demonstration, and builds the memory that they ask for.
fn demonstrate<R: Threads + Sync, G: Gate + Sync, S: Store, K: Sink>(
    rt: &R,
    alloc: Global,
    gate: &G,
    number: u16,
    workers: u8,
    store: &mut S,
    out: &mut K,
) -> u8
    requires some { 0 < workers }
    requires at_most { workers ≤ 64 }
    ensures { IsMakingRun (demo number) result (outside_at (S.state store.old) (K.state out.old))
        (outside_at (S.state store.new) (K.state out.new)) }
{
    let Ok(files) = demo_files(alloc, number) else {
        return no_memory(out);
    };
    write_and_build(rt, alloc, gate, files, workers, store, out)
}

/// Builds a memory, a read-only memory or a demonstration: it reads what the memory is built of, writes the four views,
/// and prints the line of success, or that of the first refusal. Nothing is written before all that is to be written
/// and printed is made, but for the files of a demonstration, which are written first. It answers the exit status, as
/// `run` does.
pub fn make<R: Threads + Sync, G: Gate + Sync, S: Store, K: Sink>(
    rt: &R,
    alloc: Global,
    gate: &G,
    making: Making<'_>,
    store: &mut S,
    out: &mut K,
) -> u8
    requires { HasMakingWorkers making }
    ensures { IsMakingRun (told_making making.entry) result (outside_at (S.state store.old) (K.state out.old))
        (outside_at (S.state store.new) (K.state out.new)) }
{
    match making.asked {
        BuildKind::Build { config } => build_from(
            rt,
            alloc,
            gate,
            config,
            making.workers,
            store,
            out,
        ),
        BuildKind::Demo { number } => demonstrate(
            rt,
            alloc,
            gate,
            number,
            making.workers,
            store,
            out,
        ),
        BuildKind::Rom(files) => build_rom(rt, alloc, gate, files, making.workers, store, out),
    }
}
