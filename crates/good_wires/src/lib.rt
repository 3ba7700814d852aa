//! Laws of wires: those of a memory keep the wires' space and width by themselves, and the rules of their layers where
//! small memories keep them.
#![tactic(auto)]

ghost use Rattle.good_wires.specs.Channels.{ChannelsAreSpaced};
ghost use Rattle.good_wires.specs.Kept.{CutSpacesAreKept, FourthSpaceIsKept, SecondSpaceIsKept};
ghost use Rattle.good_wires.specs.Held.{CutsAreHeld};
ghost use Rattle.good_wires.specs.Own.{WireCutsAreEnclosed, WireWidthsAreKept};
ghost use Rattle.good_wires.specs.Drawn.{CutsAreSpaced, FourthMetalIsSpaced, SecondMetalIsSpaced, ThirdMetalIsSpaced};
ghost use Rattle.good_wires.specs.Drawn.{WiresAreWide};

/// Wires of a channel whose pins are apart are joined, or keep the wires' space.
pub fn channels_are_spaced()
    ensures { ChannelsAreSpaced }
{}

/// Two wires of a memory on the fourth metal are joined, or keep the wires' space.
pub fn fourth_metal_is_spaced()
    ensures { FourthMetalIsSpaced }
{}

/// Two wires of a memory on the third metal are joined, or keep the wires' space.
pub fn third_metal_is_spaced()
    ensures { ThirdMetalIsSpaced }
{}

/// Two wires of a memory on the second metal are joined, or keep the wires' space.
pub fn second_metal_is_spaced()
    ensures { SecondMetalIsSpaced }
{}

/// Two cuts of wires between the second and the third metal, or between the third and the fourth, are joined, or keep
/// the wires' space.
pub fn cuts_are_spaced()
    ensures { CutsAreSpaced }
{}

/// A wire's sides are at least as long as wires are wide, and those of a cut as long as a cut.
pub fn wires_are_wide()
    ensures { WiresAreWide }
{}

/// The space rules of the cuts between the second and the third metal, and between the third and the fourth, are kept
/// where the small memories break none.
pub fn cut_spaces_are_kept()
    ensures { CutSpacesAreKept }
{}

/// The space rule of the second metal is kept where the small memories break none: on it branches stand at the pins of
/// these ports.
pub fn second_space_is_kept()
    ensures { SecondSpaceIsKept }
{}

/// The space rule of the fourth metal is kept where the small memories break none: on it branches, outputs and rails
/// stand.
pub fn fourth_space_is_kept()
    ensures { FourthSpaceIsKept }
{}

/// Each cut of wires is held by wires on the metals below and above it, which go beyond it by their margin.
pub fn cuts_are_held()
    ensures { CutsAreHeld }
{}

/// No cut of wires breaks a rule that it is enclosed by a metal beside it.
pub fn wire_cuts_are_enclosed()
    ensures { WireCutsAreEnclosed }
{}

/// No wire breaks a width rule.
pub fn wire_widths_are_kept()
    ensures { WireWidthsAreKept }
{}
