//! Laws of layouts: a kit has each pin that is demanded of its leaf cells, and a layout asks for no other.
#![tactic(auto)]

ghost use Rattle.asked_pins.specs.Demanded.{DemandedPinsAreThere};
ghost use Rattle.asked_pins.specs.Layouts.{DrawingsAskForDemandedPins, LayoutsAskForDemandedPins, MissingPinsAreUnused};
ghost use Rattle.asked_pins.specs.Channels.{ChannelsAskForDemandedPins};

/// A kit has each pin that is demanded.
pub fn demanded_pins_are_there()
    ensures { DemandedPinsAreThere }
{}

/// A layout is the same whatever shapes stand for pins that aren't demanded.
pub fn layouts_ask_for_demanded_pins()
    ensures { LayoutsAskForDemandedPins }
{}

/// A drawing is as stated whatever shapes stand for pins that aren't demanded.
pub fn drawings_ask_for_demanded_pins()
    ensures { DrawingsAskForDemandedPins }
{}

/// The channels by formula are the same whatever shapes stand for pins that aren't demanded.
pub fn channels_ask_for_demanded_pins()
    ensures { ChannelsAskForDemandedPins }
{}

/// What stands for a pin that a kit hasn't is in no layout.
pub fn missing_pins_are_unused()
    ensures { MissingPinsAreUnused }
{}
