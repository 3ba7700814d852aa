use or_geom::{Items, Name};

/// A subcircuit whose names are in lower case and resolved.
#[derive(Drop)]
pub struct ResolvedSubckt {
    pub name: Name,
    pub ports: Items<Name>,
    pub leaf: bool,
    /// Its instances. A leaf has none here, since they aren't looked at.
    pub instances: Items<ResolvedInstance>,
}

/// An instance whose names are in lower case and resolved.
#[derive(Drop)]
pub struct ResolvedInstance {
    pub name: Name,
    pub nodes: Items<Name>,
    /// The name of its subcircuit.
    pub of: Name,
    /// The index of its subcircuit in the deck; None where it isn't there.
    pub index: Option<usize>,
}
