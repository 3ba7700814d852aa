//! Laws of good kits: where `kit` answers nothing of a kit, no build with it ends with pins or taps too close, with a
//! broken rule or with nets that differ.
#![tactic(auto)]

ghost use Rattle.good_kits.specs.Builds.{GoodKitsSpareBuilds, GoodKitsSpareRuns};

/// The work on a configuration that names a kit of which `kit` answers no line is never refused for pins or taps too
/// close, a broken rule or nets that differ; and where no name is taken, it is refused for a cell too wide exactly
/// where the sense cell or the write cell is wider than the columns of a bit.
pub fn good_kits_spare_builds()
    ensures { GoodKitsSpareBuilds }
{}

/// No run of `build` over a kit that `kit` passes ends with pins or taps too close, a broken rule or nets that differ.
pub fn good_kits_spare_runs()
    ensures { GoodKitsSpareRuns }
{}
