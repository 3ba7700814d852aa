ghost use Rattle.std.specs.Prelude.{◌≡◌, ◌∷◌, ◌++◌, Contains, IfOk, OnOk, IfSome, IfNone, option_copied};
ghost use Rattle.gds_library.specs.declared.library.Structure.{Structure};
ghost use Rattle.cell_chains.specs.Hierarchy.{referred_name};
ghost use Rattle.cell_chains.specs.Numbering.{texts, referred_names, all_referred, Rises, IsNodeNamed, AreNodeNames};

use gds_library::{Element, Structure};
use or_geom::{Memory, Name};
use std::alloc::Global;

/// The name of the structure to which an element refers.
pub fn referred(element: &Element) -> Option<&[u8]>
    ensures { option_copied result ≡ referred_name element.now }
{
    match element {
        Element::Sref { name, .. } | Element::Aref { name, .. } => Some(name.as_bytes()),
        Element::Boundary { .. } | Element::Path { .. } | Element::Text { .. } => None,
    }
}

/// Adds the names to which the elements refer.
fn add_referred<'a>(elements: &'a [Element], names: &mut Vec<&'a [u8]>) -> Result<(), Memory>
    ensures { OnOk result (texts names.new.items ≡ texts names.old.items ++ referred_names elements.now) }
{
    let mut rest = elements;
    while let Some((first, others)) = rest.split_first() {
        if let Some(name) = referred(first) {
            names.push(name)?;
        }
        rest = others;
    }
    Ok(())
}

/// The top's name and those to which structures refer, as they come.
fn all_names<'a>(
    alloc: Global,
    structs: &'a [Structure],
    top: &'a Name,
) -> Result<Vec<&'a [u8]>, Memory>
    ensures { IfOk result (λ names. texts names.items ≡ top.now ∷ all_referred structs.now) }
{
    let mut names = vec![in alloc; top.as_bytes()]?;
    let mut rest = structs;
    while let Some((first, others)) = rest.split_first() {
        add_referred(first.elements.as_slice(), &mut names)?;
        rest = others;
    }
    Ok(names)
}

/// The top's name and those to which structures refer, in the order of their bytes, each once.
pub fn sorted_names<'a>(
    alloc: Global,
    structs: &'a [Structure],
    top: &'a Name,
) -> Result<Vec<&'a [u8]>, Memory>
    ensures { IfOk result (λ names. AreNodeNames structs.now top.now (texts names.items)) }
{
    let mut names = all_names(alloc, structs, top)?;
    names.sort_unstable();
    names.dedup();
    Ok(names)
}

/// The place of a name.
pub fn node_of(names: &[&[u8]], name: &[u8]) -> Option<usize>
    requires { Rises (texts names.now) }
    ensures found { IfSome result (IsNodeNamed (texts names.now) name.now) }
    ensures none { IfNone result (Contains (texts names.now) name.now → ⊥) }
{
    match names.binary_search(&name) {
        Ok(node) => Some(node),
        Err(_) => None,
    }
}
