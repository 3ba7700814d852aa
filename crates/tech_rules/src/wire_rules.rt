ghost use Rattle.std.specs.Prelude.{◌≡◌, ◌==◌, find, option_map};
ghost use Rattle.std.specs.List.{list_any};
ghost use Rattle.std.specs.Option.{ForSome};
ghost use Rattle.tech_rules.specs.Facts.{AreSizes};
ghost use Rattle.tech_rules.specs.WireRules.{cut_sizes, margin, forbids, encloses_beyond, joins, has_numbers};
ghost use Rattle.tech_rules.specs.WireRules.{is_hidden, is_bad_metal, breaks_cut_rules, is_bad_cut, first_bad_cut};
ghost use Rattle.tech_rules.specs.WireRules.{first_bad_index, bad_layer};

use crate::tech::{Connect, Layer, Rule, Tech, Wire};

/// The width of shapes, and the space between them.
#[derive(Clone, Copy)]
struct Sizes {
    width: i64,
    space: i64,
}

/// The first layer of the wires, from the lowest metal and then from the lowest cut, on which the technology's rules or
/// connections don't allow them.
pub fn bad_layer(tech: &Tech) -> Option<&Layer>
    requires { ForSome tech.now.wire AreSizes }
    ensures { option_map (λ l. l.now) result ≡ bad_layer tech.now }
{
    let Some(wire) = &tech.wire else {
        return None;
    };
    let index = first_bad_index(tech, wire)?;
    tech.layers.as_slice().get(usize::from(index))
}

fn first_bad_index(tech: &Tech, wire: &Wire) -> Option<u16>
    requires { AreSizes wire.now }
    ensures { result ≡ first_bad_index tech.now wire.now }
{
    match bad_metal(tech, wire) {
        Some(metal) => Some(metal),
        None => bad_cut(tech, wire),
    }
}

fn bad_metal(tech: &Tech, wire: &Wire) -> Option<u16>
    ensures { result ≡ find (is_bad_metal tech.now wire.now) wire.now.metals }
{
    wire.metals
        .iter()
        .copied()
        .find(|metal| is_bad_metal(tech, wire, *metal))
}

fn is_bad_metal(tech: &Tech, wire: &Wire, metal: u16) -> bool
    ensures { result ≡ is_bad_metal tech.now wire.now metal }
{
    let sizes = Sizes {
        width: wire.width,
        space: wire.space,
    };
    are_forbidden(tech.rules.as_slice(), metal, sizes)
}

/// Whether a rule doesn't allow shapes of this width and space on a layer.
fn are_forbidden(rules: &[Rule], index: u16, sizes: Sizes) -> bool
    ensures { result ≡ list_any (forbids index sizes) rules.now }
{
    rules.iter().any(|rule| forbids(rule, index, sizes))
}

fn forbids(rule: &Rule, index: u16, sizes: Sizes) -> bool
    ensures { result ≡ forbids index sizes rule.now }
{
    match rule {
        Rule::Width { layer, min } => *layer == index && sizes.width < *min,
        Rule::Space { layer, other, min } => *layer == index
            && *other == index
            && sizes.space < *min,
        Rule::Enclose { .. } => false,
    }
}

fn bad_cut(tech: &Tech, wire: &Wire) -> Option<u16>
    requires { AreSizes wire.now }
    ensures { result ≡ first_bad_cut tech.now wire.now wire.now.cuts wire.now.metals }
{
    let [m1, m2, m3, m4] = wire.metals;
    let [via1, via2, via3] = wire.cuts;
    if is_bad_cut(tech, wire, via1, m1, m2) {
        return Some(via1);
    }
    if is_bad_cut(tech, wire, via2, m2, m3) {
        return Some(via2);
    }
    if is_bad_cut(tech, wire, via3, m3, m4) {
        return Some(via3);
    }
    None
}

/// Whether the cuts between two metals aren't allowed.
fn is_bad_cut(tech: &Tech, wire: &Wire, cut: u16, low: u16, high: u16) -> bool
    requires { AreSizes wire.now }
    ensures { result ≡ is_bad_cut tech.now wire.now cut low high }
{
    is_hidden(tech.layers.as_slice(), cut)
        || breaks_cut_rules(tech, wire, cut)
        || !are_joined(tech.connects.as_slice(), cut, low, high)
}

/// Whether a rule on a cut's layer asks for more than wires give.
fn breaks_cut_rules(tech: &Tech, wire: &Wire, cut: u16) -> bool
    requires { AreSizes wire.now }
    ensures { result ≡ breaks_cut_rules tech.now wire.now cut }
{
    are_forbidden(tech.rules.as_slice(), cut, cut_sizes(wire))
        || are_enclosed_beyond(tech.rules.as_slice(), cut, wire)
}

/// The side of a cut, and the space to that of a neighbouring wire. Cuts stand as far apart as the wires, and further
/// by what a wire is wider than a cut.
fn cut_sizes(wire: &Wire) -> Sizes
    requires { AreSizes wire.now }
    ensures { result ≡ cut_sizes wire.now }
{
    Sizes {
        width: wire.cut,
        space: wire.width + wire.space - wire.cut,
    }
}

/// How far a wire goes beyond its cuts on each side.
pub fn margin(wire: &Wire) -> i64
    requires { AreSizes wire.now }
    ensures { result ≡ margin wire.now }
{
    (wire.width - wire.cut) / 2
}

/// Whether a rule asks that layers go further beyond a cut than wires do.
fn are_enclosed_beyond(rules: &[Rule], cut: u16, wire: &Wire) -> bool
    requires { AreSizes wire.now }
    ensures { result ≡ list_any (encloses_beyond cut wire.now) rules.now }
{
    rules.iter().any(|rule| encloses_beyond(rule, cut, wire))
}

fn encloses_beyond(rule: &Rule, cut: u16, wire: &Wire) -> bool
    requires { AreSizes wire.now }
    ensures { result ≡ encloses_beyond cut wire.now rule.now }
{
    match rule {
        Rule::Enclose { layer, min, .. } => *layer == cut && margin(wire) < *min,
        _ => false,
    }
}

fn are_joined(connects: &[Connect], cut: u16, low: u16, high: u16) -> bool
    ensures { result ≡ list_any (joins cut low high) connects.now }
{
    connects.iter().any(|connect| {
        connect.cut == cut
            && leads_to(connect.to.as_slice(), low)
            && leads_to(connect.to.as_slice(), high)
    })
}

fn leads_to(indices: &[u16], index: u16) -> bool
    ensures { result ≡ list_any (λ to. to == index) indices.now }
{
    indices.iter().any(|to| *to == index)
}

/// Whether an earlier layer has the numbers of the layer at this index, so that this layer's own shapes count as those
/// of the earlier.
fn is_hidden(layers: &[Layer], index: u16) -> bool
    ensures { result ≡ is_hidden layers.now index }
{
    let index = usize::from(index);
    match layers.get(index) {
        Some(layer) => is_among(&layers[..index], layer),
        None => false,
    }
}

/// Whether one of the layers has the numbers of this layer.
fn is_among(layers: &[Layer], layer: &Layer) -> bool
    ensures { result ≡ list_any (has_numbers layer.now.number layer.now.datatype) layers.now }
{
    layers.iter().any(|other| other.number == layer.number && other.datatype == layer.datatype)
}
