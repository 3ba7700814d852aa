ghost use Rattle.view_cover.specs.Cover.{LefCoversLayout};

/// A law for proofs: each shape of a macro's stated layout on a metal is covered by the boxes of pins and obstructions
/// that the LEF of its view has on this metal.
pub fn lef_covers_layout()
    ensures { LefCoversLayout }
{}
