ghost use Rattle.std.specs.Prelude.{◌≡◌, ◌↔◌, ◌<◌, ℕ, length, map, slice_get, Some, Contains, IfOk};
ghost use Rattle.cell_hierarchy.specs.Plain.{plain_label};
ghost use Rattle.drawn_devices.specs.CutCell.{IsCutCell};
ghost use Rattle.drawn_devices.specs.Drawn.{GivesName, IsNetName};
ghost use Rattle.drawn_devices.specs.Nets.{Member};
ghost use Rattle.drawn_devices.specs.Numbers.{AreNumbersIn};
ghost use Rattle.drawn_devices.specs.declared.drawn.NetName.{NetName};

use crate::cut_cell::CutCell;
use crate::diffusion::is_active;
use crate::drawn::NetName;
use cell_hierarchy::Label;
use label_binding::{Anchor, bound_shape};
use or_geom::{Items, Memory, Name};
use std::alloc::Global;

/// The name that a label gives to a net, if it gives one.
fn name_of(alloc: Global, cell: &CutCell, label: &Label) -> Result<Option<NetName>, Memory>
    requires { IsCutCell cell.now }
    ensures { IfOk result (λ given. (number : Member → ℕ) → AreNumbersIn cell.now number
        → GivesName cell.now.tech.now cell.now.shapes.now number (plain_label label.now) given) }
{
    if !label.path.is_empty() {
        return Ok(None);
    }
    if is_active(cell.tech.devices.as_slice(), label.layer) {
        return Ok(None);
    }
    let anchor = Anchor {
        layer: label.layer,
        at: label.at,
    };
    let Some(index) = bound_shape(&cell.bins, anchor) else {
        return Ok(None);
    };
    let name = label.name.as_bytes().to_ascii_lowercase(alloc)?;
    Ok(Some(NetName {
        name: Name::from_vec(name),
        net: cell.nets.as_slice()[index],
    }))
}

/// The label at an index.
fn label_at<'b>(labels: &[Label<'b>], index: usize) -> Label<'b>
    requires { index < length labels.now }
    ensures { slice_get labels.now index ≡ Some result }
{
    labels[index]
}

/// The names that the labels give to nets.
pub fn names_of(alloc: Global, cell: &CutCell, labels: &[Label]) -> Result<Items<NetName>, Memory>
    requires { IsCutCell cell.now }
    ensures { IfOk result (λ names. (number : Member → ℕ) → AreNumbersIn cell.now number → (entry : NetName)
        → Contains names entry ↔ IsNetName cell.now.tech.now cell.now.shapes.now
        (map plain_label labels.now) number entry) }
{
    let mut names = Items::new(alloc);
    for index in 0..labels.len() {
        let label = label_at(labels, index);
        let Some(name) = name_of(alloc, cell, &label)? else {
            continue;
        };
        names.push(name)?;
    }
    Ok(names)
}
