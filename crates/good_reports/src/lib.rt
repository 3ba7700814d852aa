//! A law of reports: for a good kit no macro breaks a rule.
#![tactic(auto)]

ghost use Rattle.good_reports.specs.Reports.{GoodKitsBreakNoRule};

/// Of each plan of a configuration, a good kit's macro has an empty report.
pub fn good_kits_break_no_rule()
    ensures { GoodKitsBreakNoRule }
{}
