//! A memory of 1,024 words of 64 bits: a macro of 66,834 leaf cells, whose bitcells alone give 393,216 shapes.

use crate::tests::{Change, Ended, NONE, inputs_with, run_on};
use std::alloc::Global;
use std::process::Abort;
use std::test::Fail;
use std::thread::Threads;

const LARGE: Change = (
    "demo.toml",
    b"",
    b"word_size = 2\nnum_words = 16\n",
    b"word_size = 64\nnum_words = 1024\nwords_per_row = 4\n",
);

/// A view, how many bytes it has, and their sum. A program of its own wrote the same files.
const VIEWS: [(&str, usize, u64); 4] = [
    ("demo.sp", 836_379, 56_044_707),
    ("demo.gds", 475_790, 11_083_762),
    ("demo.lef", 20_814, 1_140_219),
    ("demo.v", 771, 57_034),
];

fn sum(bytes: &[u8]) -> u64 {
    let mut sum = 0u64;
    for byte in bytes {
        sum = sum.wrapping_add(u64::from(*byte));
    }
    sum
}

/// Builds the memory by so many workers.
fn large<R: Threads + Sync>(rt: &R, alloc: Global, workers: &str) -> Result<Ended, Fail> {
    let words = ["build", "demo.toml", workers];
    run_on(rt, alloc, &words, inputs_with(alloc, &[LARGE])?, NONE)
}

fn expect_large(rt: &impl Abort, ended: &Ended) -> Result<(), Fail> {
    let line = "demo rows 256 columns 256 tracks 175 leaves 66834 size 8500 9808\n";
    assert_eq!(rt; ended.status, 0);
    assert_eq!(rt; ended.out.written(), line.as_bytes());
    for (name, length, total) in VIEWS {
        let view = ended.store.contents(name).ok_or("no view")?;
        assert_eq!(rt; (view.len(), sum(view)), (length, total));
    }
    Ok(())
}

#[test]
fn a_large_memory_by_one_worker(rt: HostRuntime) -> Result<(), Fail> {
    expect_large(&rt, &large(&rt, rt.alloc(), "1")?)
}

#[test]
fn a_large_memory_by_64_workers(rt: HostRuntime) -> Result<(), Fail> {
    expect_large(&rt, &large(&rt, rt.alloc(), "64")?)
}
