ghost use Rattle.std.specs.Prelude.{◌≡◌, ◌<◌, ◌≤◌, length, IfSome};
ghost use Rattle.tech_rules.specs.WireRules.{has_numbers};
ghost use Rattle.element_drawing.specs.OwnShapes.{layer_with_numbers};
ghost use Rattle.element_drawing.specs.OwnLabels.{has_text_numbers, text_place_of};

use tech_rules::Layer;

fn is_shape_layer(layer: &Layer, number: i16, datatype: i16) -> bool
    ensures { result ≡ has_numbers number datatype layer.now }
{
    layer.number == number && layer.datatype == datatype
}

fn is_label_layer(layer: &Layer, number: i16, texttype: i16) -> bool
    ensures { result ≡ has_text_numbers number texttype layer.now }
{
    layer.text_number == number && layer.texttype == texttype
}

fn shape_index(layers: &[Layer], number: i16, datatype: i16) -> Option<usize>
    ensures first { result ≡ layer_with_numbers layers.now number datatype }
    ensures below { IfSome result (λ i. i < length layers.now) }
{
    layers
        .iter()
        .position(|layer| is_shape_layer(layer, number, datatype))
}

fn label_index(layers: &[Layer], number: i16, texttype: i16) -> Option<usize>
    ensures first { result ≡ text_place_of layers.now number texttype }
    ensures below { IfSome result (λ i. i < length layers.now) }
{
    layers
        .iter()
        .position(|layer| is_label_layer(layer, number, texttype))
}

/// The place of the first layer whose shapes have these numbers.
pub fn shape_layer(layers: &[Layer], number: i16, datatype: i16) -> Option<u16>
    requires { length layers.now ≤ 64 }
    ensures { result ≡ layer_with_numbers layers.now number datatype }
{
    match shape_index(layers, number, datatype) {
        Some(place) => Some(place as u16),
        None => None,
    }
}

/// The place of the first layer whose labels have these numbers.
pub fn label_layer(layers: &[Layer], number: i16, texttype: i16) -> Option<u16>
    requires { length layers.now ≤ 64 }
    ensures { result ≡ text_place_of layers.now number texttype }
{
    match label_index(layers, number, texttype) {
        Some(place) => Some(place as u16),
        None => None,
    }
}
