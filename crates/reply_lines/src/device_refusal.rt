ghost use Rattle.std.specs.Prelude.{◌≡◌, ◌∷◌, [], IfOk, codes};
ghost use Rattle.std.specs.Fmt.{decimal};
ghost use Rattle.reply_lines.specs.Lines.{reply_line};
ghost use Rattle.reply_lines.specs.Refusals.{headed};

use crate::heading::heading;
use crate::line::ReplyLine;
use or_geom::{Memory, Name};
use std::alloc::Global;

/// The line of a subcircuit's line that is no whole transistor.
pub fn bad_device_line(alloc: Global, role: &Name, line: u64) -> Result<ReplyLine, Memory>
    ensures { IfOk result (λ reply. reply
        ≡ reply_line (headed 101 (codes "BadDevice") (role.now ∷ decimal line ∷ []))) }
{
    let mut reply = heading(alloc, 101, b"BadDevice")?;
    reply.word(role.as_bytes())?;
    reply.number(line)?;
    reply.end()?;
    Ok(reply)
}
