ghost use Rattle.std.specs.Prelude.{◌≡◌, ◌<◌, ◌↔◌, ◌⊎◌, ◌+◌, ℕ, IsTrue};
ghost use Rattle.kit_rules.specs.First.{FindsWithout};
ghost use Rattle.leaf_shapes.specs.Outline.{IsWireLayer};
ghost use Rattle.kit_rules.specs.WireRules.{IsEnclosedCut, IsOwnSpace, IsWireRule};

use tech_rules::{Rule, Wire};

/// Whether wires are drawn on the layer.
fn is_wire_layer(wire: &Wire, layer: u16) -> bool
    ensures { IsTrue result ↔ IsWireLayer wire.now layer }
{
    wire.metals.contains(&layer) || wire.cuts.contains(&layer)
}

/// Whether the layer is the wires' cut of this index, and a metal beside it is listed.
fn is_enclosed_at(wire: &Wire, by: &[u16], layer: u16, index: usize) -> bool
    requires { index < 3 }
    ensures { IsTrue result ↔ IsEnclosedCut wire.now by.now layer index }
{
    if wire.cuts[index] != layer {
        return false;
    }
    by.contains(&wire.metals[index]) || by.contains(&wire.metals[index + 1])
}

/// Whether the layer is one of the wires' cuts, and a metal beside it is listed.
fn is_enclosed(wire: &Wire, by: &[u16], layer: u16) -> bool
    ensures { IsTrue result ↔ ((index : ℕ) × IsEnclosedCut wire.now by.now layer index) }
{
    for index in 0..3 {
        if is_enclosed_at(wire, by, layer, index) {
            return true;
        }
    }
    false
}

/// Whether the rule is one of a layer with itself, and for a cut asks for no more than the space between wires.
fn is_own_space(wire: &Wire, layer: u16, other: u16, min: i64) -> bool
    ensures { IsTrue result ↔ IsOwnSpace wire.now layer other min }
{
    if layer != other {
        return false;
    }
    min <= wire.space || !wire.cuts.contains(&layer)
}

/// Whether neither layer is one of wires, or the space rule is one of a layer with itself.
fn is_wire_space(wire: &Wire, layer: u16, other: u16, min: i64) -> bool
    ensures { IsTrue result ↔ (((IsWireLayer wire.now layer → ⊥) × (IsWireLayer wire.now other → ⊥))
        ⊎ IsOwnSpace wire.now layer other min) }
{
    if is_own_space(wire, layer, other, min) {
        return true;
    }
    if is_wire_layer(wire, layer) {
        return false;
    }
    !is_wire_layer(wire, other)
}

/// Whether wires of every macro keep the rule wherever those of the smallest macros do.
fn is_wire_rule(wire: &Wire, rule: &Rule) -> bool
    ensures { IsTrue result ↔ IsWireRule wire.now rule.now }
{
    match rule {
        Rule::Width { .. } => true,
        Rule::Space { layer, other, min } => is_wire_space(wire, *layer, *other, *min),
        Rule::Enclose { layer, by, .. } => {
            if !is_wire_layer(wire, *layer) {
                return true;
            }
            is_enclosed(wire, by.as_slice(), *layer)
        }
    }
}

/// The number of the first rule that says of wires what it may not.
pub fn first_wrong_rule(wire: &Wire, rules: &[Rule]) -> Option<usize>
    ensures { FindsWithout (IsWireRule wire.now) rules.now result }
{
    for index in 0..rules.len() {
        if !is_wire_rule(wire, &rules[index]) {
            return Some(index);
        }
    }
    None
}
