ghost use Rattle.std.specs.Prelude.{◌≡◌, IfOk};
ghost use Rattle.std.specs.Str.{IsAscii};

use bumpalo::Bump;
use or_geom::Memory;

/// The text, in the arena.
pub fn text_in<'b>(bump: &'b Bump, bytes: &[u8]) -> Result<&'b str, Memory>
    requires { IsAscii bytes.now }
    ensures { IfOk result (λ text. text.now ≡ bytes.now) }
{
    let Ok(text) = str::from_utf8(bytes) else {
        unreachable!()
    };
    Ok(bump.try_alloc_str(text)?)
}
