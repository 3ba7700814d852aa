ghost use Rattle.std.specs.Prelude.{◌≡◌, ◌∷◌, pos, ◌≤ℤ◌, IfOk};
ghost use Rattle.or_geom.specs.Distance.{IsNear};
ghost use Rattle.layer_tests.specs.Routes.{two_pins};

use channel_router::{Channel, ChannelPin, Routed, route};
use or_geom::Items;
use rail_bus::rails;
use std::alloc::Global;
use std::test::Fail;
use tech_rules::Wire;
use wire_drawing::{RouteFault, Tap};

/// Wires of width 4 at a pitch of 8.
const WIRE: Wire = Wire {
    width: 4,
    space: 4,
    cut: 2,
    metals: [0, 1, 2, 3],
    cuts: [4, 5, 6],
};

/// The pins of a net at two places.
fn pins(alloc: Global, net: u32, first: i64, second: i64) -> Result<Items<ChannelPin>, Fail>
    ensures { IfOk result (λ pins. pins ≡ two_pins net first second) }
{
    Ok(Items::from_vec(vec![in alloc;
        ChannelPin { x: first, net },
        ChannelPin { x: second, net },
    ]?))
}

/// A channel with net 0 at the top and net 1 at the bottom.
fn routed(
    alloc: Global,
    top: (i64, i64),
    bottom: (i64, i64),
) -> Result<Result<Routed, RouteFault>, Fail>
    requires top_first { IsNear top.0 }
    requires top_second { IsNear top.1 }
    requires bottom_first { IsNear bottom.0 }
    requires bottom_second { IsNear bottom.1 }
{
    let ch = Channel {
        low: 0,
        top: pins(alloc, 0, top.0, top.1)?,
        bottom: pins(alloc, 1, bottom.0, bottom.1)?,
        exits: Items::new(alloc),
        nets: 2,
    };
    Ok(route(alloc, &ch, &WIRE))
}

#[test]
fn a_net_that_begins_a_pitch_behind_another_takes_its_track(rt: HostRuntime) -> Result<(), Fail> {
    let Ok(one) = routed(rt.alloc(), (2, 34), (42, 60))? else {
        return Err("refused".into());
    };
    assert_eq!(rt; *one.track.as_slice(), *[0, 0].as_slice());
    assert_eq!(rt; (one.tracks, one.height), (1, 12));
    let Ok(two) = routed(rt.alloc(), (2, 34), (41, 60))? else {
        return Err("refused".into());
    };
    assert_eq!(rt; *two.track.as_slice(), *[0, 1].as_slice());
    assert_eq!(rt; (two.tracks, two.height), (2, 20));
    Ok(())
}

#[test]
fn pins_nearer_than_the_pitch_are_refused(rt: HostRuntime) -> Result<(), Fail> {
    let close = matches!(
        routed(rt.alloc(), (2, 8), (42, 60))?,
        Err(RouteFault::Close {
            side: 0,
            first: 2,
            second: 8
        })
    );
    assert!(rt; close);
    Ok(())
}

/// One rail with taps at two places.
fn tapped(alloc: Global, first: i64, second: i64) -> Result<usize, RouteFault>
    requires above { pos 0 ≤ℤ first }
    requires first { IsNear first }
    requires second { IsNear second }
{
    let taps = [
        Tap {
            rail: 0,
            y: first,
            end: 20,
        },
        Tap {
            rail: 0,
            y: second,
            end: 20,
        },
    ];
    Ok(rails(alloc, 0, &[8], &taps, &WIRE)?.len())
}

#[test]
fn taps_a_pitch_apart_are_drawn_and_nearer_ones_refused(rt: HostRuntime) {
    let close = matches!(
        tapped(rt.alloc(), 2, 9),
        Err(RouteFault::TapsClose {
            first: 2,
            second: 9
        })
    );
    assert!(rt; close);
    assert!(rt; matches!(tapped(rt.alloc(), 2, 10), Ok(5)));
}
