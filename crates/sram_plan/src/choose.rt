ghost use Rattle.std.specs.Prelude.{◌≡◌, ℕ, ◌+◌, ◌*◌, ◌<◌, ◌≤◌, ◌^◌, ◌↔◌, List, [], ◌∷◌, ◌++◌, IfOk, IfErr, IfSome};
ghost use Rattle.std.specs.Prelude.{IfNone, IsTrue};
ghost use Rattle.sram_netlist.specs.Membership.{IsOneOf};
ghost use Rattle.sram_netlist.specs.Numbers.{ArePlanNumbers};
ghost use Rattle.sram_plan.specs.Config.{IsConfig};
ghost use Rattle.sram_plan.specs.Plan.{FitsBank, distance, candidates, NearestAmong, AreSmaller, IsWordsPerRow};
ghost use Rattle.sram_plan.specs.Plan.{IsPlanWith, IsPlanOf, masks_of, row_groups};
ghost use Rattle.sram_plan.specs.PlanNumbers.{numbers_of};

use crate::config::Config;
use crate::numbers::{Plan, PlanFault};

/// The plan of a configuration: a bank has 16 to 256 rows and at most 256 columns. Where the configuration gives no
/// count of words in a row, it is the one that makes rows and columns as near each other as can be, the smaller of two
/// that do.
pub fn plan(config: &Config) -> Result<Plan, PlanFault>
    requires { IsConfig config.now }
    ensures planned { IfOk result (IsPlanOf config.now) }
    ensures numbers { IfOk result (λ p. ArePlanNumbers (numbers_of p)) }
    ensures refused { IfErr result (λ _. (wpr : ℕ) → ¬ IsWordsPerRow config.now wpr) }
{
    match words_per_row(config) {
        Some(wpr) => Ok(plan_with(config, wpr)),
        None => Err(PlanFault::Shape),
    }
}

/// The count of words in a row: the given one where it fits, or else the nearest.
fn words_per_row(config: &Config) -> Option<u32>
    requires { IsConfig config.now }
    ensures some { IfSome result (λ wpr. IsWordsPerRow config.now wpr) }
    ensures none { IfNone result ((wpr : ℕ) → ¬ IsWordsPerRow config.now wpr) }
{
    match config.words_per_row {
        Some(wpr) => { if fits(config, wpr) { Some(wpr) } else { None } }
        None => nearest(config),
    }
}

/// Of the counts of words that a row may have, the one that fits and makes rows and columns as near each other as can
/// be.
fn nearest(config: &Config) -> Option<u32>
    requires { IsConfig config.now }
    ensures { NearestAmong config.now candidates result }
{
    let nearest = nearer(config, None, 1);
    let nearest = nearer(config, nearest, 2);
    let nearest = nearer(config, nearest, 4);
    nearer(config, nearest, 8)
}

/// The nearest of some smaller counts, or this one where it fits and is nearer.
fn nearer(config: &Config, nearest: Option<u32>, wpr: u32) -> Option<u32>
    requires config { IsConfig config.now }
    requires wpr { IsOneOf wpr candidates }
    requires nearest { IfSome nearest (λ w. IsOneOf w candidates) }
    ensures among { IfSome result (λ w. IsOneOf w candidates) }
    ensures nearest { (ws : List ℕ) → AreSmaller ws wpr → NearestAmong config.now ws nearest
        → NearestAmong config.now (ws ++ wpr ∷ []) result }
{
    if !fits(config, wpr) {
        return nearest;
    }
    match nearest {
        Some(other) => {
            if distance(config, wpr) < distance(config, other) {
                Some(wpr)
            } else {
                nearest
            }
        }
        None => Some(wpr),
    }
}

/// Whether a bank can have so many words in a row.
fn fits(config: &Config, wpr: u32) -> bool
    requires config { IsConfig config.now }
    requires wpr { IsOneOf wpr candidates }
    ensures { IsTrue result ↔ FitsBank config.now wpr }
{
    let divisor = config.num_banks * wpr;
    if config.num_words % divisor != 0 {
        return false;
    }
    let rows = config.num_words / divisor;
    16 <= rows && rows <= 256 && config.word_size * wpr <= 256
}

/// How far the counts of rows and columns are from each other.
fn distance(config: &Config, wpr: u32) -> u32
    requires config { IsConfig config.now }
    requires wpr { IsOneOf wpr candidates }
    ensures { result ≡ distance config.now wpr }
{
    let rows = config.num_words / (config.num_banks * wpr);
    rows.abs_diff(config.word_size * wpr)
}

/// The plan with so many words in a row.
fn plan_with(config: &Config, wpr: u32) -> Plan
    requires config { IsConfig config.now }
    requires wpr { IsOneOf wpr candidates }
    requires fits { FitsBank config.now wpr }
    ensures planned { IsPlanWith config.now wpr result }
    ensures numbers { ArePlanNumbers (numbers_of result) }
{
    let rows = config.num_words / (config.num_banks * wpr);
    Plan {
        word_size: config.word_size,
        write_size: config.write_size,
        masks: masks(config),
        banks: config.num_banks,
        num_words: config.num_words,
        wpr,
        rows,
        columns: config.word_size * wpr,
        addr_bits: config.num_words.ilog2(),
        col_bits: wpr.ilog2(),
        bank_bits: config.num_banks.ilog2(),
        groups: row_groups(rows),
    }
}

/// The count of mask bits.
fn masks(config: &Config) -> u32
    requires { IsConfig config.now }
    ensures { result ≡ masks_of config.now }
{
    if config.write_size == config.word_size {
        0
    } else {
        config.word_size / config.write_size
    }
}

/// How the bits of a row's number are cut into groups, low bits first.
fn row_groups(rows: u32) -> [u32; 3]
    ensures { result ≡ row_groups rows }
{
    match rows {
        16 => [2, 2, 0],
        32 => [2, 3, 0],
        64 => [3, 3, 0],
        128 => [2, 2, 3],
        _ => [2, 3, 3],
    }
}
