ghost use Rattle.element_drawing.specs.LabelOrder.{EqIsSame};

/// Labels that compare as equal are the same label.
pub fn eq_is_same()
    ensures { EqIsSame }
{}
