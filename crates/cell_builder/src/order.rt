ghost use Rattle.std.specs.Prelude.{refl, Some};
ghost use Rattle.std.specs.Ordering.{eq_by_cmp};
ghost use Rattle.cell_builder.specs.LabelOrder.{text_order, text_total, text_partial, text_equivalence};
ghost use Rattle.cell_builder.specs.LabelOrder.{text_partial_equivalence};

use crate::cell::PlacedLabel;
use std::cmp::Ordering;

impl PartialEq for PlacedLabel {
    ghost eq = { eq_by_cmp text_order };

    ghost laws = { text_partial_equivalence };

    fn eq(&self, other: &PlacedLabel) -> bool {
        self.cmp(other).is_eq()
    }
}

impl Eq for PlacedLabel {
    ghost laws = { text_equivalence };
}

impl PartialOrd for PlacedLabel {
    ghost partial_cmp = { λ a b. Some (text_order a b) };

    ghost laws = { text_partial };

    fn partial_cmp(&self, other: &PlacedLabel) -> Option<Ordering> {
        Some(self.cmp(other))
    }
}

/// Labels are ordered by text, layer, x and y, and texts by their bytes.
impl Ord for PlacedLabel {
    ghost cmp = { text_order };

    ghost total = { text_total };

    ghost matches_partial_cmp = { λ a b. refl };

    ghost matches_eq = { λ a b. refl };

    fn cmp(&self, other: &PlacedLabel) -> Ordering {
        let by_text = self.text.as_bytes().cmp(other.text.as_bytes());
        if by_text.is_ne() {
            return by_text;
        }
        self.layer.cmp(&other.layer).then(self.at.cmp(&other.at))
    }
}
