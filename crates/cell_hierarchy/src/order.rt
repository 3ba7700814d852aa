ghost use Rattle.std.specs.Prelude.{refl, Some};
ghost use Rattle.std.specs.Ordering.{eq_by_cmp};
ghost use Rattle.cell_hierarchy.specs.LabelLaws.{flat_label_order, flat_label_total, flat_label_partial};
ghost use Rattle.cell_hierarchy.specs.LabelLaws.{flat_label_equivalence, flat_label_partial_equivalence};

use crate::flat::Label;
use std::cmp::Ordering;

/// Labels are equal where the order finds no difference, so that repetitions stand side by side once they are sorted.
impl PartialEq for Label<'_> {
    ghost eq = { eq_by_cmp flat_label_order };

    ghost laws = { flat_label_partial_equivalence };

    fn eq(&self, other: &Self) -> bool {
        self.cmp(other).is_eq()
    }
}

impl Eq for Label<'_> {
    ghost laws = { flat_label_equivalence };
}

impl PartialOrd for Label<'_> {
    ghost partial_cmp = { λ a b. Some (flat_label_order a b) };

    ghost laws = { flat_label_partial };

    fn partial_cmp(&self, other: &Self) -> Option<Ordering> {
        Some(self.cmp(other))
    }
}

/// Labels are ordered by path, name, layer, x and y, and texts by their bytes.
impl Ord for Label<'_> {
    ghost cmp = { flat_label_order };

    ghost total = { flat_label_total };

    ghost matches_partial_cmp = { λ a b. refl };

    ghost matches_eq = { λ a b. refl };

    fn cmp(&self, other: &Self) -> Ordering {
        let by_path = self.path.as_bytes().cmp(other.path.as_bytes());
        if by_path.is_ne() {
            return by_path;
        }
        let by_name = self.name.as_bytes().cmp(other.name.as_bytes());
        if by_name.is_ne() {
            return by_name;
        }
        self.layer.cmp(&other.layer).then(self.at.cmp(&other.at))
    }
}
