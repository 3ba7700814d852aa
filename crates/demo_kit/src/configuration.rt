ghost use Rattle.std.specs.Prelude.{◌≡◌, IfOk};
ghost use Rattle.demo_kit.specs.Configuration.{demo_configuration};
ghost use Rattle.demo_kit.specs.Numbers.{demo_num_words, demo_word_size};

use crate::lines::{write_number, write_text};
use or_geom::Memory;
use std::alloc::Global;

#[tactic(auto, unfolding(crate::specs::Numbers::demo_word_size))]
fn word_size(n: u32) -> u32
    ensures { result ≡ demo_word_size n }
{
    2 + n / 4 % 15
}

#[tactic(auto, unfolding(crate::specs::Numbers::demo_num_words))]
fn num_words(n: u32) -> u32
    ensures { result ≡ demo_num_words n }
{
    16 << (n / 60 % 6)
}

/// The configuration of a demonstration: 2 to 16 bits in a word, and 16 to 512 words.
#[tactic(auto, unfolding(crate::specs::Configuration::demo_configuration))]
pub fn configuration(alloc: Global, n: u32) -> Result<Vec<u8>, Memory>
    ensures { IfOk result (λ text. text.items ≡ demo_configuration n) }
{
    let mut out = Vec::new(alloc);
    write_number(&mut out, "word_size", word_size(n))?;
    write_number(&mut out, "num_words", num_words(n))?;
    write_text(&mut out, "tech_name", "demo_tech")?;
    write_text(&mut out, "output_name", "demo")?;
    Ok(out)
}
