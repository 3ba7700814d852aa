ghost use Rattle.std.specs.Prelude.{◌≡◌, ◌<◌, IfOk, length, map, slice_get, Some};
ghost use Rattle.std.specs.List.Sorted.{IsStrictlySortedBy};
ghost use Rattle.or_geom.specs.ShapeOrder.{shape_order};
ghost use Rattle.cell_hierarchy.specs.Plain.{plain_label};
ghost use Rattle.net_extractor.specs.ShapeNets.{AreShapeNets};
ghost use Rattle.leaf_nets.specs.Numbers.{ArePinNumbers};

use crate::numbers::is_listed;
use crate::pin::{PinBinding, pin_binding};
use cell_hierarchy::Label;
use or_geom::Memory;
use shape_bins::Bins;
use std::alloc::Global;
use tech_rules::Connect;

/// The nets of a cell's pins.
#[derive(Drop)]
pub enum PinNumbers {
    /// The index of the first pin whose labels aren't right, alone or with those of the pins before it.
    Wrong(usize),
    /// The numbers of the nets on which pins are.
    Right(Vec<u32>),
}

/// The text at an index.
fn text_at<'a>(texts: &[&'a str], index: usize) -> &'a str
    requires { index < length texts.now }
    ensures { slice_get (map (λ t. t.now) texts.now) index ≡ Some result.now }
{
    texts[index]
}

/// The nets of the pins. `nets` has the number of each shape's net under these connections, which are told for proofs
/// alone.
pub fn pin_numbers(
    alloc: Global,
    _connections: &[Connect],
    nets: &[u32],
    bins: &Bins,
    labels: &[Label],
    pins: &[&str],
) -> Result<PinNumbers, Memory>
    requires rises { IsStrictlySortedBy shape_order bins.now }
    requires nets { AreShapeNets _connections.now bins.now nets.now }
    ensures { IfOk result (ArePinNumbers _connections.now
        (record { shapes = bins.now; labels = map plain_label labels.now }) nets.now (map (λ t. t.now) pins.now)) }
{
    let mut numbers = Vec::new(alloc);
    for index in 0..pins.len() {
        match pin_binding(nets, bins, labels, text_at(pins, index)) {
            PinBinding::Unlabelled => {}
            PinBinding::Wrong => return Ok(PinNumbers::Wrong(index)),
            PinBinding::On(number) => {
                if is_listed(numbers.as_slice(), number) {
                    return Ok(PinNumbers::Wrong(index));
                }
                numbers.push(number)?;
            }
        }
    }
    Ok(PinNumbers::Right(numbers))
}
