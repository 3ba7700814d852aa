ghost use Rattle.std.specs.Prelude.{◌≡◌, IfOk, ◌∷◌, []};
ghost use Rattle.reply_lines.specs.Lines.{reply_line};
ghost use Rattle.reply_lines.specs.Differences.{difference_words, comparison_reply};
ghost use Rattle.reply_lines.specs.Pins.{pin_word};

use crate::line::ReplyLine;
use crate::lines::ReplyLines;
use crate::reply::Reply;
use net_extractor::{NetDiff, PinName};
use or_geom::{Items, Memory};
use std::alloc::Global;

/// A line of a word and a pin.
fn one_pin(alloc: Global, name: &[u8], pin: &PinName) -> Result<ReplyLine, Memory>
    ensures { IfOk result (λ line. line ≡ reply_line (name.now ∷ pin_word pin.now ∷ [])) }
{
    let mut line = ReplyLine::of(alloc, name)?;
    line.pin(pin.path.as_bytes(), pin.pin.as_bytes())?;
    line.end()?;
    Ok(line)
}

/// A line of a word and two pins.
fn two_pins(
    alloc: Global,
    name: &[u8],
    first: &PinName,
    second: &PinName,
) -> Result<ReplyLine, Memory>
    ensures { IfOk result (λ line. line ≡ reply_line (name.now ∷ pin_word first.now ∷ pin_word second.now ∷ [])) }
{
    let mut line = ReplyLine::of(alloc, name)?;
    line.pin(first.path.as_bytes(), first.pin.as_bytes())?;
    line.pin(second.path.as_bytes(), second.pin.as_bytes())?;
    line.end()?;
    Ok(line)
}

/// The line of a difference.
fn difference_line(alloc: Global, difference: &NetDiff) -> Result<ReplyLine, Memory>
    ensures { IfOk result (λ line. line ≡ reply_line (difference_words difference.now)) }
{
    match difference {
        NetDiff::Unlabelled { pin } => one_pin(alloc, b"Unlabelled", pin),
        NetDiff::Stranger { pin } => one_pin(alloc, b"Stranger", pin),
        NetDiff::Open { first, second } => two_pins(alloc, b"Open", first, second),
        NetDiff::Short { first, second } => two_pins(alloc, b"Short", first, second),
    }
}

/// The answer to a comparison: status 0 and no line where there is no difference, else status 1 and its line.
pub fn comparison_reply(alloc: Global, difference: &Option<NetDiff>) -> Result<Reply, Memory>
    ensures { IfOk result (λ reply. reply ≡ comparison_reply difference.now) }
{
    let mut lines = Items::new(alloc);
    let mut status = 0;
    if let Some(difference) = difference {
        lines.push(difference_line(alloc, difference)?)?;
        status = 1;
    }
    Ok(Reply {
        status,
        lines: ReplyLines::made(lines),
    })
}
