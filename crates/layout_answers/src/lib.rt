//! Laws of layouts: a structure of a library has a report, nets and a comparison with rows, or a reason why it has no
//! flat layout.
#![tactic(auto)]

ghost use Rattle.layout_answers.specs.LayoutAnswers.{LayoutsHaveComparisons, LayoutsHaveNets, LayoutsHaveReports};

use tile_checker::reports_are_there;

/// A structure has a report of a technology's rules, or a fault, out of memory aside.
pub fn layouts_have_reports()
    ensures { LayoutsHaveReports }
{
    reports_are_there();
}

/// It has nets or a fault.
pub fn layouts_have_nets()
    ensures { LayoutsHaveNets }
{}

/// It has a comparison with any rows, or a fault.
pub fn layouts_have_comparisons()
    ensures { LayoutsHaveComparisons }
{}
