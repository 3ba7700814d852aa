ghost use Rattle.std.specs.Prelude.{◌≡◌, ◌<◌, length, map, IfOk};
ghost use Rattle.std.specs.List.{range_with_len};
ghost use Rattle.std.specs.List.Sorted.{IsPermutation};
ghost use Rattle.cell_chains.specs.Ordered.{element_index, AreIndices};

use crate::instance::reference_name;
use gds_library::Element;
use or_geom::{Memory, Name};
use std::alloc::Global;

/// An element that refers to a structure: the name of the instance, or of an array what its items' names begin with,
/// and its index among the elements.
#[derive(Drop)]
pub struct NamedElement {
    pub name: Name,
    pub index: usize,
}

/// The element at this index, with the name by which it is sorted: a reference's own, else `#` and the index, with
/// which the names of an array's items begin.
fn named_element(alloc: Global, elements: &[Element], index: usize) -> Result<NamedElement, Memory>
    requires { index < length elements.now }
    ensures { IfOk result (λ element. element_index element ≡ index) }
{
    let name = match &elements[index] {
        Element::Sref { props, .. } => reference_name(alloc, index, props.as_slice())?,
        Element::Aref { .. }
        | Element::Boundary { .. }
        | Element::Path { .. }
        | Element::Text { .. } => reference_name(alloc, index, &[])?,
    };
    Ok(NamedElement { name, index })
}

/// The elements at these indices with their names.
fn named_elements(
    alloc: Global,
    elements: &[Element],
    indices: &[usize],
) -> Result<Vec<NamedElement>, Memory>
    requires { AreIndices elements.now indices.now }
    ensures { IfOk result (λ named. map element_index named.items ≡ indices.now) }
{
    let mut named = Vec::with_capacity(alloc, indices.len())?;
    for index in indices {
        named.push(named_element(alloc, elements, *index)?)?;
    }
    Ok(named)
}

/// Sorts elements by their names. That they come in this order is not promised, only that they are the same elements.
fn sort_by_name(named: &mut Vec<NamedElement>)
    ensures { IsPermutation named.old.items named.new.items }
{
    named.sort_unstable_by(|a, b| a.name.as_bytes().cmp(b.name.as_bytes()));
}

/// The indices of elements.
fn indices_of(alloc: Global, named: &[NamedElement]) -> Result<Vec<usize>, Memory>
    ensures { IfOk result (λ indices. indices.items ≡ map element_index named.now) }
{
    let mut indices = Vec::with_capacity(alloc, named.len())?;
    for element in named {
        indices.push(element.index)?;
    }
    Ok(indices)
}

/// The indices of references and arrays, sorted by the names of their instances: a walk in this order gathers labels
/// mostly in the order of their paths, which then take less time to sort. Nothing is claimed of the order.
pub fn by_name(alloc: Global, elements: &[Element], indices: &[usize]) -> Result<Vec<usize>, Memory>
    requires { AreIndices elements.now indices.now }
    ensures { IfOk result (λ ordered. IsPermutation indices.now ordered.items) }
{
    let mut named = named_elements(alloc, elements, indices)?;
    sort_by_name(&mut named);
    indices_of(alloc, &named)
}

/// The number with zeros behind it up to five digits, and below that how many digits it had: numbers in this order have
/// their decimal texts in order.
fn text_rank(n: u16) -> u32 {
    let n = u32::from(n);
    let (scale, digits) = match n {
        0..=9 => (10_000, 1),
        10..=99 => (1_000, 2),
        100..=999 => (100, 3),
        1_000..=9_999 => (10, 4),
        _ => (1, 5),
    };
    n.wrapping_mul(scale).wrapping_mul(8).wrapping_add(digits)
}

/// The numbers below `count`, from 0 on.
fn counted(alloc: Global, count: u16) -> Result<Vec<u16>, Memory>
    ensures { IfOk result (λ numbers. numbers.items ≡ range_with_len 0 count) }
{
    let mut numbers = Vec::with_capacity(alloc, usize::from(count))?;
    for n in 0..count {
        numbers.push(n)?;
    }
    Ok(numbers)
}

/// Each number below `count` once, for the columns or rows of an array. With `in_text_order` they are sorted by their
/// decimal texts, since the names of an array's items sort by these. Nothing is claimed of the order.
pub fn numbers_below(alloc: Global, count: u16, in_text_order: bool) -> Result<Vec<u16>, Memory>
    ensures { IfOk result (λ numbers. IsPermutation (range_with_len 0 count) numbers.items) }
{
    let mut numbers = counted(alloc, count)?;
    if in_text_order {
        numbers.sort_unstable_by_key(|n| text_rank(*n));
    }
    Ok(numbers)
}
