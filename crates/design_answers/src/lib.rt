//! Laws of designs: files ask for a kit, a design or a read-only memory, or are refused, and nothing is left open.
#![tactic(auto)]

ghost use Rattle.design_answers.specs.DesignAnswers.{DesignsAnswer, KitNamesAnswer, RomDesignsAnswer};

/// Over files of bytes each name has a kit or a refusal.
pub fn kit_names_answer()
    ensures { KitNamesAnswer }
{}

/// Over files of bytes each name has a design or a refusal.
pub fn designs_answer()
    ensures { DesignsAnswer }
{}

/// Over files of bytes each two names have a read-only memory or a refusal.
pub fn rom_designs_answer()
    ensures { RomDesignsAnswer }
{}
