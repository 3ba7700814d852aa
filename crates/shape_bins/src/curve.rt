ghost use Rattle.std.specs.Prelude.{◌<◌};

/// How the curve is turned at each bit of a point: a map of two bits for each, whose coefficients stand at that bit of
/// four numbers.
#[derive(Clone, Copy)]
struct Turns {
    keep: u32,
    mix: u32,
    swap: u32,
    flip: u32,
}

/// The turns of each bit and the one above it together.
fn turns_of(x: u32, y: u32) -> Turns {
    let unlike = x ^ y;
    let alike = !unlike & 0xffff;
    let low = !(x | y) & 0xffff;
    let right = x & !y;
    Turns {
        keep: unlike | (alike >> 1),
        mix: (unlike >> 1) ^ unlike,
        swap: ((low >> 1) ^ (alike & (right >> 1))) ^ low,
        flip: ((unlike & (low >> 1)) ^ (right >> 1)) ^ right,
    }
}

/// The turns of twice as many bits together: of each bit's, and of those so many bits above.
fn joined(turns: Turns, above: u32) -> Turns
    requires { above < 32 }
{
    let Turns {
        keep,
        mix,
        swap,
        flip,
    } = turns;
    let both = keep ^ mix;
    Turns {
        keep: (keep & (keep >> above)) ^ (mix & (mix >> above)),
        mix: (keep & (mix >> above)) ^ (mix & (both >> above)),
        swap: swap ^ (keep & (swap >> above)) ^ (mix & (flip >> above)),
        flip: flip ^ (mix & (swap >> above)) ^ (both & (flip >> above)),
    }
}

/// The 16 bits with a zero before each.
fn spread(bits: u32) -> u32 {
    let bits = (bits | (bits << 8)) & 0x00ff_00ff;
    let bits = (bits | (bits << 4)) & 0x0f0f_0f0f;
    let bits = (bits | (bits << 2)) & 0x3333_3333;
    (bits | (bits << 1)) & 0x5555_5555
}

/// Where the point, whose coordinates have 16 bits, stands on Hilbert's curve, which fills the plane: what stands near
/// on the curve lies near. How the curve is turned at a bit depends on all bits above it. It is found for all bits at
/// once: for pairs of them, then for four, eight and sixteen, which takes a tenth of the time of one after another.
/// Nothing is claimed of the number: each order of the shapes gives the same answers.
pub fn curve_at(x: u32, y: u32) -> u32 {
    let turns = joined(joined(joined(turns_of(x, y), 2), 4), 8);
    let swap = turns.swap ^ (turns.swap >> 1);
    let flip = turns.flip ^ (turns.flip >> 1);
    let low = x ^ y;
    let high = flip | (!(low | swap) & 0xffff);
    (spread(high) << 1) | spread(low)
}
