//! Laws of what there is: each channel has a routing, any numbers have a lowest close two or none, and rails have their
//! shapes.
#![tactic(auto)]

ghost use Rattle.channel_answers.specs.Answers.{ChannelsAreRouted, ClosePinsAreFound, CloseNumbersAreFound};
ghost use Rattle.channel_answers.specs.Answers.{RailsHaveShapes};

/// Each channel has a routing, with as many tracks as nets at most.
pub fn channels_are_routed()
    ensures { ChannelsAreRouted }
{}

/// Of any numbers no two are closer than the pitch, or there are the lowest two that are.
pub fn close_numbers_are_found()
    ensures { CloseNumbersAreFound }
{}

/// No pins of a channel are too close, or there are the first two that are.
pub fn close_pins_are_found()
    ensures { ClosePinsAreFound }
{}

/// Rails and taps have their shapes.
pub fn rails_have_shapes()
    ensures { RailsHaveShapes }
{}
