ghost use Rattle.port_data.specs.DataPart.{BuiltExcludesRefused};

/// A law for proofs: where the data can be built, no slice is too narrow and no pins of the column channel are too
/// close.
pub fn built_excludes_refused()
    ensures { BuiltExcludesRefused }
{}
