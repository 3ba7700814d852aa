ghost use Rattle.std.specs.Prelude.{◌≡◌, ◌≤◌, ◌^◌, ◌∷◌, [], length, map, IfOk};
ghost use Rattle.std.specs.List.{AllByRecursion};
ghost use Rattle.std.specs.Option.{option_to_list};
ghost use Rattle.gds_library.specs.Writable.{IsWritableElement};
ghost use Rattle.element_drawing.specs.ElementLabels.{pathless};
ghost use Rattle.element_drawing.specs.OwnLabels.{own_labels, IsLabelWithin};

use crate::label::ElementLabel;
use crate::layer::label_layer;
use gds_library::Element;
use or_geom::Memory;
use std::alloc::Global;
use tech_rules::Layer;

/// The label that an element is, if the technology has its layer.
fn label_of<'a>(layers: &[Layer], element: &'a Element) -> Option<ElementLabel<'a>>
    requires { length layers.now ≤ 64 }
    ensures { map pathless (option_to_list result) ≡ own_labels layers.now (element.now ∷ []) }
{
    let Element::Text {
        layer,
        texttype,
        at,
        string,
        ..
    } = element
    else {
        return None;
    };
    let Some(index) = label_layer(layers, *layer, *texttype) else {
        return None;
    };
    Some(ElementLabel {
        name: string.as_bytes(),
        layer: index,
        at: *at,
    })
}

/// The labels of the elements, in their order: those whose numbers are the text numbers of a layer of the technology.
pub fn own_labels<'a>(
    alloc: Global,
    layers: &[Layer],
    elements: &'a [Element],
) -> Result<Vec<ElementLabel<'a>>, Memory>
    requires few { length layers.now ≤ 64 }
    requires writable { AllByRecursion IsWritableElement elements.now }
    ensures are { IfOk result (λ labels. map pathless labels.items ≡ own_labels layers.now elements.now) }
    ensures near { IfOk result (λ labels. AllByRecursion (IsLabelWithin (2 ^ 32)) (map pathless labels.items)) }
{
    let mut labels = Vec::new(alloc);
    let mut rest = elements;
    while let Some((element, others)) = rest.split_first() {
        rest = others;
        let Some(label) = label_of(layers, element) else {
            continue;
        };
        labels.push(label)?;
    }
    Ok(labels)
}
