//! Laws of reports: what breaks a rule is seen near a shape, so that a layout whose every part stands in a layout
//! without violations has none.
#![tactic(auto)]

ghost use Rattle.local_report.specs.Alike.{AlikeKeepsEnclose, AlikeKeepsSpace, AlikeKeepsWidth};
ghost use Rattle.local_report.specs.Local.{ReportIsLocal};

/// A layout whose every shape stands, with what the rules see around it, in a layout that breaks no rule, breaks none.
pub fn report_is_local()
    ensures { ReportIsLocal }
{}

/// Where a shape's layer looks alike around it, a width rule sees the same of it.
pub fn alike_keeps_width()
    ensures { AlikeKeepsWidth }
{}

/// Where the layers of an enclose rule look alike around a shape, the rule sees the same of it.
pub fn alike_keeps_enclose()
    ensures { AlikeKeepsEnclose }
{}

/// Where the layers of two near shapes look alike around the one, a space rule sees the same of them.
pub fn alike_keeps_space()
    ensures { AlikeKeepsSpace }
{}
