ghost use Rattle.std.specs.Prelude.{◌<◌, ◌^◌, ℕ, Contains, IfOk, OnOk};
ghost use Rattle.std.specs.List.Sorted.{IsStrictlySortedBy};
ghost use Rattle.std.specs.Ordering.{nat_cmp};
ghost use Rattle.or_geom.specs.Adds.{Adds};
ghost use Rattle.kit_check.specs.Digits.{IsNumberIn};
ghost use Rattle.kit_check.specs.FreeName.{AreNumbersOf, IsStructNumber, IsSubcktNumber, IsWindowName};

use crate::digits::{number_in, numbered_name};
use gds_library::Structure;
use leaf_tables::Kit;
use netlist::Subckt;
use or_geom::{Memory, Name, sort_distinct};
use std::alloc::Global;

/// Adds the number with which the name begins, if it begins with one.
fn add_number(name: &Name, out: &mut Vec<u64>) -> Result<(), Memory>
    ensures { OnOk result (Adds out.old.items out.new.items (IsNumberIn name.now)) }
{
    let Some(number) = number_in(name.as_bytes()) else {
        return Ok(());
    };
    Ok(out.push(number)?)
}

/// Adds the numbers with which names of structures begin.
fn add_structs(structs: &[Structure], out: &mut Vec<u64>) -> Result<(), Memory>
    ensures { OnOk result (Adds out.old.items out.new.items (IsStructNumber structs.now)) }
{
    for structure in structs {
        add_number(&structure.name, out)?;
    }
    Ok(())
}

/// Adds the numbers with which names of subcircuits begin.
fn add_subckts(subckts: &[Subckt], out: &mut Vec<u64>) -> Result<(), Memory>
    ensures { OnOk result (Adds out.old.items out.new.items (IsSubcktNumber subckts.now)) }
{
    for subckt in subckts {
        add_number(&subckt.name, out)?;
    }
    Ok(())
}

/// The numbers with which names in the leaf cells' files begin, each once, in rising order.
fn taken_numbers(alloc: Global, kit: &Kit) -> Result<Vec<u64>, Memory>
    ensures rises { IfOk result (λ numbers. IsStrictlySortedBy nat_cmp numbers.items) }
    ensures are { IfOk result (λ numbers. AreNumbersOf kit.now numbers.items) }
{
    let mut numbers = Vec::new(alloc);
    add_structs(kit.lib.structs.as_slice(), &mut numbers)?;
    add_subckts(kit.deck.subckts.as_slice(), &mut numbers)?;
    sort_distinct(&mut numbers);
    Ok(numbers)
}

/// The least number that isn't listed. The list rises.
fn least_free(numbers: &[u64]) -> u64
    requires { IsStrictlySortedBy nat_cmp numbers.now }
    ensures free { Contains numbers.now result → ⊥ }
    ensures least { (n : ℕ) → n < result → Contains numbers.now n }
    ensures small { result < 2 ^ 64 }
{
    let mut least = 0;
    for number in numbers {
        if *number != least {
            return least;
        }
        least += 1;
    }
    least
}

/// The name of the windows: `w` and 23 digits, the least such name with which no structure's and no subcircuit's name
/// of the leaf cells begins, without regard to case.
pub fn window_name(alloc: Global, kit: &Kit) -> Result<Name, Memory>
    ensures { IfOk result (IsWindowName kit.now) }
{
    let numbers = taken_numbers(alloc, kit)?;
    numbered_name(alloc, least_free(&numbers))
}
