ghost use Rattle.std.specs.Prelude.{◌≡◌, ◌<◌, List, ℕ, length, Contains, IfOk, IfSome};
ghost use Rattle.cell_chains.specs.Chains.{elements_of};
ghost use Rattle.cell_chains.specs.Numbering.{texts, referred_names, all_referred, first_from, Rises, AreFirsts};
ghost use Rattle.cell_chains.specs.Numbering.{AreReferences, IsGraph, AreNamedNodes};

use crate::names::{node_of, referred, sorted_names};
use gds_library::{Element, Structure};
use or_geom::{Items, Memory, Name};
use std::alloc::Global;

/// The names to which a library's references lead, in the order of their bytes: a node of the graph is the place of its
/// name. A name that no structure has is a node without a structure, which refers to none.
#[derive(Drop)]
pub struct Nodes<'a> {
    pub names: Vec<&'a [u8]>,
    /// The place of the first structure of each name.
    pub firsts: Vec<Option<usize>>,
    /// The nodes to which each node's first structure refers, in the order of its elements.
    pub graph: Vec<Items<usize>>,
    /// The node of the top.
    pub top: usize,
}

/// For each name the place of the first structure of it.
fn first_places(
    alloc: Global,
    structs: &[Structure],
    names: &[&[u8]],
) -> Result<Vec<Option<usize>>, Memory>
    requires { Rises (texts names.now) }
    ensures { IfOk result (λ firsts. AreFirsts structs.now (texts names.now) firsts.items) }
{
    let mut firsts = vec![in alloc; None; names.len()]?;
    for place in 0..structs.len() {
        let Some(node) = node_of(names, structs[place].name.as_bytes()) else {
            continue;
        };
        if firsts[node].is_some() {
            continue;
        }
        firsts[node] = Some(place);
    }
    Ok(firsts)
}

/// The nodes to which the elements refer, in their order.
fn references(alloc: Global, names: &[&[u8]], elements: &[Element]) -> Result<Items<usize>, Memory>
    requires rises { Rises (texts names.now) }
    requires there { (name : List ℕ) → Contains (referred_names elements.now) name → Contains (texts names.now) name }
    ensures { IfOk result (AreReferences (texts names.now) elements.now) }
{
    let mut nodes = Items::new(alloc);
    let mut rest = elements;
    while let Some((first, others)) = rest.split_first() {
        rest = others;
        let Some(name) = referred(first) else {
            continue;
        };
        let Some(node) = node_of(names, name) else {
            unreachable!()
        };
        nodes.push(node)?;
    }
    Ok(nodes)
}

/// The elements of the structure at this place, none where there is no such structure.
pub fn elements_at(structs: &[Structure], first: Option<usize>) -> &[Element]
    requires { IfSome first (λ place. place < length structs.now) }
    ensures { (name : List ℕ) → first ≡ first_from 0 structs.now name → result.now ≡ elements_of structs.now name }
{
    match first {
        Some(place) => structs[place].elements.as_slice(),
        None => &[],
    }
}

/// For each name the nodes to which its first structure refers.
fn graph_of(
    alloc: Global,
    structs: &[Structure],
    names: &[&[u8]],
    firsts: &[Option<usize>],
) -> Result<Vec<Items<usize>>, Memory>
    requires rises { Rises (texts names.now) }
    requires there { (name : List ℕ) → Contains (all_referred structs.now) name → Contains (texts names.now) name }
    requires firsts { AreFirsts structs.now (texts names.now) firsts.now }
    ensures { IfOk result (λ graph. IsGraph structs.now (texts names.now) graph.items) }
{
    let mut graph = Vec::new(alloc);
    for first in firsts {
        graph.push(references(alloc, names, elements_at(structs, *first))?)?;
    }
    Ok(graph)
}

/// The names below a top and who refers to whom.
pub fn nodes_of<'a>(
    alloc: Global,
    structs: &'a [Structure],
    top: &'a Name,
) -> Result<Nodes<'a>, Memory>
    ensures { IfOk result (AreNamedNodes structs.now top.now) }
{
    let names = sorted_names(alloc, structs, top)?;
    let firsts = first_places(alloc, structs, &names)?;
    let graph = graph_of(alloc, structs, &names, &firsts)?;
    let Some(top) = node_of(&names, top.as_bytes()) else {
        unreachable!()
    };
    Ok(Nodes {
        names,
        firsts,
        graph,
        top,
    })
}
