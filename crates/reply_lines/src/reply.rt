ghost use Rattle.std.specs.Prelude.{◌≡◌, IfOk};

use crate::lines::ReplyLines;
use crate::refusal::Refusal;
use or_geom::{Items, Memory};
use std::alloc::Global;

/// What the program answers: its exit status, and the lines that it prints, each with its end.
#[derive(Debug, Drop)]
pub struct Reply {
    pub status: u8,
    pub lines: ReplyLines,
}

impl Reply {
    ghost use Rattle.reply_lines.specs.Reply.{refusal_reply};

    /// The answer where there is no other: the refusal's status and its line.
    pub fn refused(alloc: Global, refusal: &Refusal) -> Result<Reply, Memory>
        ensures { IfOk result (λ reply. reply ≡ refusal_reply refusal.now) }
    {
        let mut lines = Items::new(alloc);
        lines.push(refusal.line(alloc)?)?;
        Ok(Reply {
            status: refusal.status(),
            lines: ReplyLines::made(lines),
        })
    }
}
