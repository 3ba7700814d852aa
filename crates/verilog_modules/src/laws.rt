ghost use Rattle.verilog_modules.specs.Meaning.{EdgesEnd, ModulesStart};
ghost use Rattle.verilog_modules.specs.Names.{OneTree};

/// A law for readers: a text spells one module at most.
pub fn one_tree()
    ensures { OneTree }
{}

/// A law for readers: at each edge each state has an end.
pub fn edges_end()
    ensures { EdgesEnd }
{}

/// A law for readers: each module has a start.
pub fn modules_start()
    ensures { ModulesStart }
{}
