ghost use Rattle.drawn_devices.specs.ChannelSets.{ChannelsAreThese, TheseAreChannels};

/// A law for readers: the cells to which lists of channel cells lead from one are a channel, as a maximal connected
/// set.
pub fn these_are_channels()
    ensures { TheseAreChannels }
{}

/// A law for readers: each maximal connected set is one of those.
pub fn channels_are_these()
    ensures { ChannelsAreThese }
{}
