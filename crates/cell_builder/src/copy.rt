ghost use Rattle.std.specs.Prelude.{◌≡◌, IfOk};

use crate::cell::PlacedLabel;
use or_geom::{Memory, Name};
use std::alloc::Global;

/// The same name.
pub fn name_copy(alloc: Global, name: &Name) -> Result<Name, Memory>
    ensures { IfOk result (λ copy. copy ≡ name.now) }
{
    Name::from_bytes(alloc, name.as_bytes())
}

/// The same label.
fn label_copy(alloc: Global, label: &PlacedLabel) -> Result<PlacedLabel, Memory>
    ensures { IfOk result (λ copy. copy ≡ label.now) }
{
    let text = name_copy(alloc, &label.text)?;
    Ok(PlacedLabel {
        layer: label.layer,
        at: label.at,
        text,
    })
}

/// The same labels.
pub fn labels_copy(alloc: Global, labels: &[PlacedLabel]) -> Result<Vec<PlacedLabel>, Memory>
    ensures { IfOk result (λ copies. copies.items ≡ labels.now) }
{
    let mut copies = Vec::new(alloc);
    let mut rest = labels;
    while let Some((label, others)) = rest.split_first() {
        rest = others;
        copies.push(label_copy(alloc, label)?)?;
    }
    Ok(copies)
}
