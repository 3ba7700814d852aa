ghost use Rattle.tech_rules.specs.Fault.{tech_faults};
ghost use Rattle.tech_rules.specs.declared.fault.TechFault.TheVariants.{Memory};
ghost use Rattle.tech_rules.specs.Names.{are_different, share_a_name};
ghost use Rattle.std.specs.Prelude.{◌&&◌, not, ◌≡◌, ◌≤◌, ◌≤ℤ◌, [], pos, length, IfOk, IfSome};
ghost use Rattle.std.specs.Bool.{OnTrue};
ghost use Rattle.toml_keys.specs.Fault.{MatchesUnless};
ghost use Rattle.toml_keys.specs.Section.{section_of};
ghost use Rattle.tech_rules.specs.Facts.{AreSizes, IsCentred};
ghost use Rattle.tech_rules.specs.Wires.{size_under, is_centred, cut_under, new_names, wire_in, wire_under};

use crate::fault::TechFault;
use crate::layers::indices_at;
use crate::names::{are_different, share_a_name};
use crate::tech::{Layer, Wire};
use or_geom::{Items, Name};
use toml_keys::KeyTable;

/// The greatest width, space or side of a cut, in nanometres.
const MAX_SIZE: i64 = 65_536;

/// The wires of the document, if it describes any.
pub fn wire_from(
    document: &KeyTable<TechFault>,
    layers: &[Layer],
) -> Result<Option<Wire>, TechFault>
    requires { length layers.now ≤ 64 }
    ensures sizes { IfOk result (λ w. IfSome w AreSizes) }
    ensures given { MatchesUnless Memory result (wire_under layers.now (section_of tech_faults document.now)) }
{
    if !document.has("wire") {
        return Ok(None);
    }
    let section = document.section("wire")?;
    let wire = wire_at(&section, layers)?;
    Ok(Some(wire))
}

#[tactic(auto, unfolding(crate::specs::Wires::wire_in))]
fn wire_at(section: &KeyTable<TechFault>, layers: &[Layer]) -> Result<Wire, TechFault>
    requires { length layers.now ≤ 64 }
    ensures sizes { IfOk result AreSizes }
    ensures given { MatchesUnless Memory result (wire_in layers.now (section_of tech_faults section.now)) }
{
    let width = size(section, "width")?;
    let space = size(section, "space")?;
    let cut = cut_size(section, width)?;
    let metal_names = new_names(section, "metals", 4, &[])?;
    let metals = indices_at(section, "metals", layers, metal_names.as_slice())?;
    let cut_names = new_names(section, "cuts", 3, metal_names.as_slice())?;
    let cuts = indices_at(section, "cuts", layers, cut_names.as_slice())?;
    Ok(Wire {
        width,
        space,
        cut,
        metals: four(metals.as_slice()),
        cuts: three(cuts.as_slice()),
    })
}

fn size(section: &KeyTable<TechFault>, key: &str) -> Result<i64, TechFault>
    ensures given { MatchesUnless Memory result (size_under (section_of tech_faults section.now) key.now) }
    ensures low { IfOk result (λ z. pos 1 ≤ℤ z) }
    ensures high { IfOk result (λ z. z ≤ℤ pos 65536) }
{
    section.number(key, 1, MAX_SIZE)
}

fn cut_size(section: &KeyTable<TechFault>, width: i64) -> Result<i64, TechFault>
    requires { width ≤ℤ pos 65536 }
    ensures low { IfOk result (λ z. pos 1 ≤ℤ z) }
    ensures high { IfOk result (λ z. z ≤ℤ pos 65536) }
    ensures centred { IfOk result (IsCentred width) }
    ensures given { MatchesUnless Memory result (cut_under width (section_of tech_faults section.now)) }
{
    let cut = size(section, "cut")?;
    if is_centred(width, cut) {
        return Ok(cut);
    }
    Err(section.out_of_range("cut"))
}

/// Whether a cut of this side may stand in the middle of a wire of this width.
fn is_centred(width: i64, cut: i64) -> bool
    requires low { pos 1 ≤ℤ cut }
    requires high { width ≤ℤ pos 65536 }
    ensures given { result ≡ is_centred width cut }
    ensures centred { OnTrue result (IsCentred width cut) }
{
    cut < width && (width - cut) % 2 == 0
}

/// So many different names, none of which is taken.
fn new_names(
    section: &KeyTable<TechFault>,
    key: &str,
    count: usize,
    taken: &[Name],
) -> Result<Items<Name>, TechFault>
    ensures as_many { IfOk result (λ n. length n ≡ count) }
    ensures given { MatchesUnless Memory result
        (new_names count taken.now (section_of tech_faults section.now) key.now) }
{
    let names = section.texts(key)?;
    if names.as_slice().len() != count || !are_new(names.as_slice(), taken) {
        return Err(section.out_of_range(key));
    }
    Ok(names)
}

/// Whether the names differ and none of them is taken.
fn are_new(names: &[Name], taken: &[Name]) -> bool
    ensures { result ≡ (are_different names.now && not (share_a_name names.now taken.now)) }
{
    are_different(names) && !share_a_name(names, taken)
}

fn four(indices: &[u16]) -> [u16; 4]
    requires { length indices.now ≡ 4 }
    ensures { result ≡ indices.now }
{
    match indices {
        [a, b, c, d] => [*a, *b, *c, *d],
        _ => unreachable!(),
    }
}

fn three(indices: &[u16]) -> [u16; 3]
    requires { length indices.now ≡ 3 }
    ensures { result ≡ indices.now }
{
    match indices {
        [a, b, c] => [*a, *b, *c],
        _ => unreachable!(),
    }
}
