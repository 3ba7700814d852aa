//! Laws of what bytes are read as: technologies and configurations are never refused for want of memory.
#![tactic(auto)]

ghost use Rattle.read_answers.specs.ReadAnswers.{ConfigurationsAreGood, ConfigurationsLast, TechnologiesLast};

/// Bytes that are no technology have a fault that is no want of memory.
pub fn technologies_last()
    ensures { TechnologiesLast }
{}

/// Bytes that are no configuration have a fault that is no want of memory.
pub fn configurations_last()
    ensures { ConfigurationsLast }
{}

/// A configuration that bytes are is one that a memory can be made of.
pub fn configurations_are_good()
    ensures { ConfigurationsAreGood }
{}
