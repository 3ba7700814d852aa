ghost use Rattle.net_extractor.specs.OneAnswer.{DifferencesAreUnique, DifferencesExcludeAlike, NetsAreUnique};

/// A law for readers: labels have one list of nets.
pub fn nets_are_unique()
    ensures { NetsAreUnique }
{}

/// A law for readers: labels and rows have one first difference.
pub fn differences_are_unique()
    ensures { DifferencesAreUnique }
{}

/// A law for readers: labels and rows that are alike have no first difference.
pub fn differences_exclude_alike()
    ensures { DifferencesExcludeAlike }
{}
