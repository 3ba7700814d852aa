ghost use Rattle.std.specs.Prelude.{◌≡◌, ◌*◌, ◌<◌, ◌≤◌, ◌↔◌, length, IfErr, IfOk, IsTrue};
ghost use Rattle.rom_data.specs.Words.{bytes_per_word, data_length, little_endian, FitsWord, AreWordsOf};
ghost use Rattle.rom_data.specs.Words.{IsRomFault};

use crate::fault::RomFault;
use or_geom::Items;
use sram_plan::Plan;
use std::alloc::Global;

/// The words of a read-only macro, by address. The bytes are those of the words in order, each word's lowest byte
/// first, and a word has no bit at or above the plan's word size.
pub fn rom_words(alloc: Global, plan: &Plan, bytes: &[u8]) -> Result<Vec<u64>, RomFault>
    requires { plan.now.word_size ≤ 64 }
    ensures words { IfOk result (λ words. AreWordsOf plan.now bytes.now words.items) }
    ensures fault { IfErr result (IsRomFault plan.now bytes.now) }
{
    let size = bytes_per_word(plan.word_size);
    if bytes.len() != plan.num_words as usize * size {
        return Err(RomFault::DataLength {
            length: bytes.len() as u64,
        });
    }
    split_words(alloc, plan, bytes)
}

/// How many bytes hold a word of so many bits.
fn bytes_per_word(word_size: u32) -> usize
    requires { word_size ≤ 64 }
    ensures { result ≡ bytes_per_word word_size }
{
    (word_size as usize + 7) / 8
}

/// Splits a data file of the right length into words, or tells the address of the first word that has a bit at or above
/// the word size.
fn split_words(alloc: Global, plan: &Plan, bytes: &[u8]) -> Result<Vec<u64>, RomFault>
    requires bits { plan.now.word_size ≤ 64 }
    requires whole { length bytes.now ≡ data_length plan.now }
    ensures words { IfOk result (λ words. AreWordsOf plan.now bytes.now words.items) }
    ensures fault { IfErr result (IsRomFault plan.now bytes.now) }
{
    let size = bytes_per_word(plan.word_size);
    let mut words = Items::new(alloc);
    for address in 0..plan.num_words as usize {
        let start = address * size;
        let word = little_endian(&bytes[start..start + size]);
        if !fits_word(word, plan.word_size) {
            return Err(RomFault::DataBits {
                word: address as u64,
            });
        }
        words.push(word)?;
    }
    Ok(words.into_vec())
}

/// The number whose bytes these are, the lowest first.
fn little_endian(bytes: &[u8]) -> u64
    requires { length bytes.now ≤ 8 }
    ensures { result ≡ little_endian bytes.now }
{
    let mut number = 0;
    for index in (0..bytes.len()).rev() {
        number = number * 256 + u64::from(bytes[index]);
    }
    number
}

/// Whether a word has no bit at or above `word_size`.
fn fits_word(word: u64, word_size: u32) -> bool
    requires { word_size ≤ 64 }
    ensures { IsTrue result ↔ FitsWord word_size word }
{
    word_size == 64 || word >> word_size == 0
}
