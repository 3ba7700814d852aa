ghost use Rattle.std.specs.Prelude.{◌↔◌, ◌≡◌, ◌<◌, ℕ, length, slice_get, Contains, Some, IfOk, IsTrue, MatchOption};
ghost use Rattle.shape_bins.specs.Hits.{IsNearShape};
ghost use Rattle.shape_bins.specs.Meets.{Overlap};
ghost use Rattle.drawn_devices.specs.NetsOver.{HasNetIfOver, HaveNetIfOver, IsNetOfAll, IsNetOver, NoNetOver};

use or_geom::{Memory, Rect};
use shape_bins::{Bins, overlap};
use std::alloc::Global;

/// The number of the net of the shape at the index.
fn net_at(nets: &[u32], index: usize) -> u32
    requires { index < length nets.now }
    ensures { slice_get nets.now index ≡ Some result }
{
    nets[index]
}

/// The number of the net of a shape of the layer that shares area with the area.
pub fn net_over(bins: &Bins, nets: &[u32], layer: u16, area: Rect) -> Option<u32>
    requires { length nets.now ≡ length bins.now }
    ensures { MatchOption result (NoNetOver bins.now layer area) (IsNetOver bins.now nets.now layer area) }
{
    let Some(index) = bins.some_over(layer, area) else {
        return None;
    };
    Some(net_at(nets, index))
}

/// Whether the shape at the index, which is near the area, has this number if it shares area with it.
fn has_net_if_over(
    bins: &Bins,
    nets: &[u32],
    _layer: u16,
    area: Rect,
    net: u32,
    index: usize,
) -> bool
    requires sized { length nets.now ≡ length bins.now }
    requires near { IsNearShape bins.now _layer area index }
    ensures { IsTrue result ↔ HasNetIfOver bins.now nets.now _layer area net index }
{
    if !overlap(bins.shapes()[index].rect, area) {
        return true;
    }
    net_at(nets, index) == net
}

/// Whether each of the shapes near the area that share area with it has this number.
fn have_net_if_over(
    bins: &Bins,
    nets: &[u32],
    _layer: u16,
    area: Rect,
    net: u32,
    near: &[usize],
) -> bool
    requires sized { length nets.now ≡ length bins.now }
    requires near { (index : ℕ) → Contains near.now index → IsNearShape bins.now _layer area index }
    ensures { IsTrue result ↔ HaveNetIfOver bins.now nets.now _layer area net near.now }
{
    for index in near {
        if !has_net_if_over(bins, nets, _layer, area, net, *index) {
            return false;
        }
    }
    true
}

/// Whether all shapes of the layer that share area with the area have this number.
fn is_net_of_all(
    alloc: Global,
    bins: &Bins,
    nets: &[u32],
    layer: u16,
    area: Rect,
    net: u32,
) -> Result<bool, Memory>
    requires { length nets.now ≡ length bins.now }
    ensures { IfOk result (λ all. IsTrue all ↔ IsNetOfAll bins.now nets.now layer area net) }
{
    let mut near = Vec::new(alloc);
    bins.add_near(layer, area, &mut near)?;
    Ok(have_net_if_over(bins, nets, layer, area, net, &near))
}

/// The number of the net on which all shapes of the layer are that share area with the area, if there are such and they
/// are on one.
pub fn net_of_all(
    alloc: Global,
    bins: &Bins,
    nets: &[u32],
    layer: u16,
    area: Rect,
) -> Result<Option<u32>, Memory>
    requires { length nets.now ≡ length bins.now }
    ensures { IfOk result (λ found. MatchOption found ((net : ℕ) → IsNetOver bins.now nets.now layer area net
        → IsNetOfAll bins.now nets.now layer area net → ⊥) (λ net. IsNetOver bins.now nets.now layer area net
        × IsNetOfAll bins.now nets.now layer area net)) }
{
    let Some(net) = net_over(bins, nets, layer, area) else {
        return Ok(None);
    };
    if is_net_of_all(alloc, bins, nets, layer, area, net)? {
        return Ok(Some(net));
    }
    Ok(None)
}
