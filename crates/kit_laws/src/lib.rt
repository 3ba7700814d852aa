//! Laws of kits: a technology and the files of its leaf cells are one kit, or have one fault.
#![tactic(auto)]

ghost use Rattle.kit_laws.specs.OneCell.{LeafPinsAreUnique, OutlinesAreUnique, PinFaultsAreUnique};
ghost use Rattle.kit_laws.specs.OneCell.{PinFaultsExcludePins};
ghost use Rattle.kit_laws.specs.OneKit.{KitFaultsAreUnique, KitFaultsExcludeKits, KitsAreUnique};
ghost use Rattle.kit_laws.specs.OneRom.{RomLeafFaultsAreUnique, RomLeafFaultsExcludeRomLeaves};

/// A cell has one outline.
pub fn outlines_are_unique()
    ensures { OutlinesAreUnique }
{}

/// A cell has one shape for each demand.
pub fn leaf_pins_are_unique()
    ensures { LeafPinsAreUnique }
{}

/// A cell's pins have at most one fault, out of memory aside.
pub fn pin_faults_are_unique()
    ensures { PinFaultsAreUnique }
{}

/// Where each demand has its shape there is no fault of a pin, out of memory aside.
pub fn pin_faults_exclude_pins()
    ensures { PinFaultsExcludePins }
{}

/// A technology and files are at most one kit.
pub fn kits_are_unique()
    ensures { KitsAreUnique }
{}

/// They have at most one fault, out of memory aside.
pub fn kit_faults_are_unique()
    ensures { KitFaultsAreUnique }
{}

/// Where they are a kit there is no fault, out of memory aside.
pub fn kit_faults_exclude_kits()
    ensures { KitFaultsExcludeKits }
{}

/// A kit has at most one fault of the leaf cells of a read-only memory, and none where it has these cells, out of
/// memory aside.
pub fn rom_leaf_faults_are_unique()
    ensures one { RomLeafFaultsAreUnique }
    ensures apart { RomLeafFaultsExcludeRomLeaves }
{}
