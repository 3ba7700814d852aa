ghost use Rattle.std.specs.Prelude.{◌≡◌, ◌<◌, ◌≤◌, ◌-◌, ◌++◌, [], length, map, IfOk, OnOk};
ghost use Rattle.std.specs.List.{range_with_len};
ghost use Rattle.std.specs.List.Sorted.{IsPermutation};
ghost use Rattle.shape_bins.specs.Order.{place_of_key, IsOrderAdded};

use crate::curve::curve_at;
use crate::placed::Placed;
use cell_hierarchy::{OneThread, Sorter};
use or_geom::{Memory, Point};
use std::alloc::{Allocator, Global};

/// A place in the lower 32 bits, and above it the number by which it is sorted: one number is compared faster than two.
type Key = u64;

/// So many bits of each coordinate are looked at.
const BITS: u32 = 16;

/// How coordinates are measured before they are compared: from the least ones on, in units of powers of two.
#[derive(Clone, Copy)]
struct Scale {
    left: i64,
    low: i64,
    across: u32,
    upward: u32,
    ghost few_across: { across < 64 },
    ghost few_upward: { upward < 64 },
}

/// Twice the least and the greatest middles of some items.
#[derive(Clone, Copy)]
struct Middles {
    left: i64,
    low: i64,
    right: i64,
    high: i64,
}

/// How many bits of a length are zero before its first one.
fn zeros(length: u64) -> u64 {
    u64::from(length.leading_zeros())
}

/// How many powers of two the one sum is more than the other, on an average.
fn powers(more: u64, less: u64, count: u64) -> u32
    ensures { result < 32 }
{
    if count == 0 || more <= less {
        return 0;
    }
    let mean = (more - less) / count;
    if mean < 32 {
        return mean as u32;
    }
    31
}

/// By how many powers of two a length is to be divided for its first bits to be left.
fn shift_of(length: u64, before: u32) -> u32
    requires { before < 64 }
    ensures { result ≤ 64 }
{
    let bits = 64 - (length >> before).leading_zeros();
    bits.saturating_sub(BITS)
}

/// Twice the least and the greatest middles of the items.
fn middles_of<T: Placed>(items: &[T]) -> Middles {
    let mut all = Middles {
        left: i64::MAX,
        low: i64::MAX,
        right: i64::MIN,
        high: i64::MIN,
    };
    for item in items {
        let middle = item.twice_middle();
        all = Middles {
            left: all.left.min(middle.x),
            low: all.low.min(middle.y),
            right: all.right.max(middle.x),
            high: all.high.max(middle.y),
        };
    }
    all
}

/// A scale by which most of the items are about as wide as tall, so that many long wires come one after another as
/// they lie beside each other, and by which all middles fit the bits that are looked at.
fn scale_of<T: Placed>(items: &[T]) -> Scale {
    let mut wide: u64 = 0;
    let mut tall: u64 = 0;
    for item in items {
        let extent = item.extent();
        wide = wide.wrapping_add(zeros(extent.width));
        tall = tall.wrapping_add(zeros(extent.height));
    }
    let count = items.len() as u64;
    let across = powers(tall, wide, count);
    let upward = powers(wide, tall, count);
    let all = middles_of(items);
    let width = all.right.wrapping_sub(all.left).cast_unsigned();
    let height = all.high.wrapping_sub(all.low).cast_unsigned();
    let more = shift_of(width, across).max(shift_of(height, upward));
    Scale {
        left: all.left,
        low: all.low,
        across: (across + more).min(63),
        upward: (upward + more).min(63),
    }
}

/// The first bits of how far the coordinate lies from the least one.
fn first_bits(at: i64, least: i64, shift: u32) -> u32
    requires { shift < 64 }
{
    ((at.wrapping_sub(least).cast_unsigned() >> shift) & 0xffff) as u32
}

/// The number of a middle, which is given twice, along a curve that fills the plane.
fn curve_of(middle: Point, scale: Scale) -> u32 {
    let x = first_bits(middle.x, scale.left, scale.across);
    let y = first_bits(middle.y, scale.low, scale.upward);
    curve_at(x, y)
}

/// The place with its number.
fn key_of(curve: u32, place: u32) -> Key
    ensures { place_of_key result ≡ place }
{
    (u64::from(curve) << 32) | u64::from(place)
}

/// The place of a key.
fn place_of(key: Key) -> u32
    ensures { result ≡ place_of_key key }
{
    (key & 0xffff_ffff) as u32
}

/// The places with their numbers.
fn keys_of<T: Placed>(
    alloc: Global,
    items: &[T],
    begin: usize,
    end: usize,
    scale: Scale,
) -> Result<Vec<Key>, Memory>
    requires order { begin ≤ end }
    requires within { end ≤ length items.now }
    requires few { end ≤ 4294967295 }
    ensures { IfOk result (λ keys. map place_of_key keys.items ≡ range_with_len begin (end - begin)) }
{
    let mut keys = Vec::with_capacity(alloc, end - begin)?;
    for place in begin..end {
        keys.push(key_of(curve_of(items[place].twice_middle(), scale), place as u32))?;
    }
    Ok(keys)
}

/// Sorts the keys by their numbers.
fn sort_keys<S: Sorter>(sorter: &S, keys: &mut Vec<Key>)
    requires { S.ready sorter.now }
    ensures { IsPermutation keys.old.items keys.new.items }
{
    sorter.sort_numbers(keys.as_mut_slice());
}

/// Adds the places of the keys.
fn add_places<A: Allocator>(keys: &[Key], places: &mut Vec<u32, A>) -> Result<(), Memory>
    ensures { OnOk result (places.new.items ≡ places.old.items ++ map place_of_key keys.now) }
{
    for key in keys {
        places.push(place_of(*key))?;
    }
    Ok(())
}

/// Adds the places from `begin` to `end`, those of near items one after another.
pub fn add_order<T: Placed, A: Allocator, S: Sorter>(
    sorter: &S,
    alloc: Global,
    items: &[T],
    begin: usize,
    end: usize,
    places: &mut Vec<u32, A>,
) -> Result<(), Memory>
    requires ready { S.ready sorter.now }
    requires order { begin ≤ end }
    requires within { end ≤ length items.now }
    requires few { end ≤ 4294967295 }
    ensures { OnOk result (IsOrderAdded begin end places.old.items places.new.items) }
{
    let scale = scale_of(&items[begin..end]);
    let mut keys = keys_of(alloc, items, begin, end, scale)?;
    sort_keys(sorter, &mut keys);
    add_places(&keys, places)
}

/// The places of all items, those of near ones one after another: who looks each up in a tree over the same plane, in
/// this order, mostly finds what it needs in the caches. Nothing is claimed of the order but that each place stands in
/// it.
pub fn near_order<T: Placed>(alloc: Global, items: &[T]) -> Result<Vec<u32>, Memory>
    requires { length items.now ≤ 4294967295 }
    ensures { IfOk result (λ order. IsOrderAdded 0 (length items.now) [] order.items) }
{
    let mut order = Vec::with_capacity(alloc, items.len())?;
    add_order(&OneThread, alloc, items, 0, items.len(), &mut order)?;
    Ok(order)
}
