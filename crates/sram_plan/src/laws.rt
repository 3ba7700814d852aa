ghost use Rattle.sram_plan.specs.Plan.{PlansAreOne};

/// A law for readers: a configuration has one plan at most.
pub fn plans_are_one()
    ensures { PlansAreOne }
{}
