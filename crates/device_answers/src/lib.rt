//! Laws of leaf cells: each cell draws some transistors, and leaf cells have a reply or a refusal.
#![tactic(auto)]

ghost use Rattle.device_answers.specs.DeviceAnswers.{DevicesAreAnswered, DrawnDevicesAreThere};

/// Shapes and labels draw some channels and name some nets.
pub fn drawn_devices_are_there()
    ensures { DrawnDevicesAreThere }
{}

/// Leaf cells have a reply, or a refusal other than want of memory.
pub fn devices_are_answered()
    ensures { DevicesAreAnswered }
{}
