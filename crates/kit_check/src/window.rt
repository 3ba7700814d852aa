ghost use Rattle.std.specs.Prelude.{◌≡◌, ◌++◌, ◌<◌, IfOk, OnOk, Contains, Some, length, slice_get};
ghost use Rattle.kit_check.specs.Windows.{all_windows, bits_of_count, bits_of_rows, plan_of, windows_of_rows};
ghost use Rattle.kit_check.specs.Windows.{windows_of_size, windows_of_words};
ghost use Rattle.sram_plan.specs.Plan.{row_groups};

use or_geom::Memory;
use sram_plan::Plan;
use std::alloc::Global;

/// Bits of a word, and bits that one mask bit lets a write change.
#[derive(Clone, Copy, Debug)]
pub struct WordSizes {
    pub word_size: u32,
    pub write_size: u32,
}

/// The numbers of a small macro.
#[derive(Clone, Copy, Debug)]
pub struct Window {
    pub word_size: u32,
    pub write_size: u32,
    pub wpr: u32,
    pub rows: u32,
    pub banks: u32,
}

const SIZES: [WordSizes; 9] = [
    WordSizes {
        word_size: 1,
        write_size: 1,
    },
    WordSizes {
        word_size: 2,
        write_size: 1,
    },
    WordSizes {
        word_size: 2,
        write_size: 2,
    },
    WordSizes {
        word_size: 3,
        write_size: 1,
    },
    WordSizes {
        word_size: 3,
        write_size: 3,
    },
    WordSizes {
        word_size: 4,
        write_size: 1,
    },
    WordSizes {
        word_size: 4,
        write_size: 4,
    },
    WordSizes {
        word_size: 5,
        write_size: 1,
    },
    WordSizes {
        word_size: 5,
        write_size: 5,
    },
];

/// Adds the windows with these words and rows, one for each count of banks.
fn add_windows_of_rows(
    size: WordSizes,
    wpr: u32,
    rows: u32,
    out: &mut Vec<Window>,
) -> Result<(), Memory>
    ensures { OnOk result (out.new.items ≡ out.old.items ++ windows_of_rows size wpr rows) }
{
    for banks in [1, 2, 4] {
        out.push(Window {
            word_size: size.word_size,
            write_size: size.write_size,
            wpr,
            rows,
            banks,
        })?;
    }
    Ok(())
}

/// Adds the windows with these words.
fn add_windows_of_words(size: WordSizes, wpr: u32, out: &mut Vec<Window>) -> Result<(), Memory>
    ensures { OnOk result (out.new.items ≡ out.old.items ++ windows_of_words size wpr) }
{
    for rows in [16, 32, 64, 128, 256] {
        add_windows_of_rows(size, wpr, rows, out)?;
    }
    Ok(())
}

/// Adds the windows with these sizes of words.
fn add_windows_of_size(size: WordSizes, out: &mut Vec<Window>) -> Result<(), Memory>
    ensures { OnOk result (out.new.items ≡ out.old.items ++ windows_of_size size) }
{
    for wpr in [1, 2, 4, 8] {
        add_windows_of_words(size, wpr, out)?;
    }
    Ok(())
}

/// The sizes at an index.
fn sizes_at(all: &[WordSizes], index: usize) -> WordSizes
    requires { index < length all.now }
    ensures { slice_get all.now index ≡ Some result }
{
    all[index]
}

/// All 540 windows, in the rising order of their numbers.
pub fn windows(alloc: Global) -> Result<Vec<Window>, Memory>
    ensures are { IfOk result (λ list. list.items ≡ all_windows) }
    ensures count { IfOk result (λ list. length list.items ≡ 540) }
{
    let mut list = Vec::new(alloc);
    for index in 0..SIZES.len() {
        add_windows_of_size(sizes_at(&SIZES, index), &mut list)?;
    }
    Ok(list)
}

/// The window at an index.
pub fn window_at(windows: &[Window], index: usize) -> Window
    requires { index < length windows.now }
    ensures { slice_get windows.now index ≡ Some result }
{
    windows[index]
}

/// How many bits choose one of so many.
fn bits_of_count(count: u32) -> u32
    ensures { result ≡ bits_of_count count }
{
    match count {
        1 => 0,
        2 => 1,
        4 => 2,
        _ => 3,
    }
}

/// How many bits choose a row.
fn bits_of_rows(rows: u32) -> u32
    ensures { result ≡ bits_of_rows rows }
{
    match rows {
        16 => 4,
        32 => 5,
        64 => 6,
        128 => 7,
        _ => 8,
    }
}

/// How the bits of a row's number are cut into groups, low bits first.
fn groups_of_rows(rows: u32) -> [u32; 3]
    ensures { result ≡ row_groups rows }
{
    match rows {
        16 => [2, 2, 0],
        32 => [2, 3, 0],
        64 => [3, 3, 0],
        128 => [2, 2, 3],
        _ => [2, 3, 3],
    }
}

/// The plan of a window.
pub fn plan_of(w: &Window) -> Plan
    requires { Contains all_windows w.now }
    ensures { result ≡ plan_of w.now }
{
    let masks = if w.write_size == w.word_size {
        0
    } else {
        w.word_size / w.write_size
    };
    Plan {
        word_size: w.word_size,
        write_size: w.write_size,
        masks,
        banks: w.banks,
        num_words: w.banks * (w.rows * w.wpr),
        wpr: w.wpr,
        rows: w.rows,
        columns: w.word_size * w.wpr,
        addr_bits: bits_of_count(w.wpr) + bits_of_rows(w.rows) + bits_of_count(w.banks),
        col_bits: bits_of_count(w.wpr),
        bank_bits: bits_of_count(w.banks),
        groups: groups_of_rows(w.rows),
    }
}
