ghost use Rattle.tile_checker.specs.OneReport.{ReportsAreThere, ReportsAreUnique};
ghost use Rattle.tile_checker.specs.Unjoined.{WidthOfUnjoinedShapes};

/// Where no shapes of one layer are joined, a shape breaks a width rule exactly where one of its own sides is below the
/// minimum.
pub fn width_of_unjoined_shapes()
    ensures { WidthOfUnjoinedShapes }
{}

/// A law for readers: rules and shapes have one report.
pub fn reports_are_unique()
    ensures { ReportsAreUnique }
{}

/// A law for readers: rules and shapes have a report, if the rules' minimums and the shapes' coordinates are ones that
/// files may give.
pub fn reports_are_there()
    ensures { ReportsAreThere }
{}
