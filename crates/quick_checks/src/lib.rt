//! A law of kits: the quick check of a kit tells whether it is a good one.
#![tactic(auto)]

ghost use Rattle.quick_checks.specs.Suffice.{QuickChecksSuffice};

/// A kit that passes the quick check over the macros that a build assembles is a good one.
pub fn quick_checks_suffice()
    ensures { QuickChecksSuffice }
{}
