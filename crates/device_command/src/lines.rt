ghost use Rattle.std.specs.Prelude.{◌≡◌, ◌++◌, ◌∷◌, [], codes, IfOk, OnOk};
ghost use Rattle.std.specs.Fmt.{signed_decimal};
ghost use Rattle.reply_lines.specs.Lines.{reply_line, sentence, spaced};
ghost use Rattle.device_command.specs.DeviceLines.{device_words, device_reply};

use device_lvs::DeviceDiff;
use or_geom::{Items, Memory, Name};
use reply_lines::{Reply, ReplyLine, ReplyLines};
use std::alloc::Global;

/// The beginning of a line: the kind of difference, and the role.
fn kind_line(alloc: Global, kind: &[u8], role: &Name) -> Result<ReplyLine, Memory>
    ensures { IfOk result (λ line. line ≡ sentence (kind.now ∷ role.now ∷ [])) }
{
    let mut line = ReplyLine::of(alloc, kind)?;
    line.word(role.as_bytes())?;
    Ok(line)
}

/// Adds two names.
fn add_names(line: &mut ReplyLine, first: &Name, second: &Name) -> Result<(), Memory>
    ensures { OnOk result (line.new ≡ line.old ++ spaced (first.now ∷ second.now ∷ [])) }
{
    line.word(first.as_bytes())?;
    line.word(second.as_bytes())?;
    Ok(())
}

/// A line of a channel's least corner.
fn corner_line(alloc: Global, kind: &[u8], role: &Name, x: i64, y: i64) -> Result<ReplyLine, Memory>
    ensures { IfOk result (λ line. line ≡ reply_line (kind.now ∷ role.now ∷ signed_decimal x ∷ signed_decimal y ∷ [])) }
{
    let mut line = kind_line(alloc, kind, role)?;
    line.signed(x)?;
    line.signed(y)?;
    line.end()?;
    Ok(line)
}

/// The line of a name on two nets.
fn open_line(alloc: Global, role: &Name, name: &Name) -> Result<ReplyLine, Memory>
    ensures { IfOk result (λ line. line ≡ reply_line (codes "Open" ∷ role.now ∷ name.now ∷ [])) }
{
    let mut line = kind_line(alloc, b"Open", role)?;
    line.word(name.as_bytes())?;
    line.end()?;
    Ok(line)
}

/// The line of two names on one net.
fn short_line(alloc: Global, role: &Name, first: &Name, second: &Name) -> Result<ReplyLine, Memory>
    ensures { IfOk result (λ line. line ≡ reply_line (codes "Short" ∷ role.now ∷ first.now ∷ second.now ∷ [])) }
{
    let mut line = kind_line(alloc, b"Short", role)?;
    add_names(&mut line, first, second)?;
    line.end()?;
    Ok(line)
}

/// A transistor of a line: its model, the node of its gate, and its two other nodes.
#[derive(Clone, Copy)]
struct Transistor<'a> {
    model: &'a Name,
    gate: &'a Name,
    low: &'a Name,
    high: &'a Name,
}

/// A transistor of these names.
fn transistor_of<'a>(
    model: &'a Name,
    gate: &'a Name,
    low: &'a Name,
    high: &'a Name,
) -> Transistor<'a>
    ensures of { (result.model.now ≡ model.now) × (result.gate.now ≡ gate.now) }
    ensures between { (result.low.now ≡ low.now) × (result.high.now ≡ high.now) }
{
    Transistor {
        model,
        gate,
        low,
        high,
    }
}

/// A line of a transistor.
fn transistor_line(
    alloc: Global,
    kind: &[u8],
    role: &Name,
    transistor: Transistor<'_>,
) -> Result<ReplyLine, Memory>
    ensures { IfOk result (λ line. line ≡ reply_line
        (kind.now ∷ role.now ∷ transistor.entry.model.now ∷ transistor.entry.gate.now ∷ transistor.entry.low.now ∷
        transistor.entry.high.now ∷ [])) }
{
    let mut line = kind_line(alloc, kind, role)?;
    add_names(&mut line, transistor.model, transistor.gate)?;
    add_names(&mut line, transistor.low, transistor.high)?;
    line.end()?;
    Ok(line)
}

/// The line of a difference.
fn device_line(alloc: Global, difference: &DeviceDiff) -> Result<ReplyLine, Memory>
    ensures { IfOk result (λ line. line ≡ reply_line (device_words difference.now)) }
{
    match difference {
        DeviceDiff::NotBox { role, x, y } => corner_line(alloc, b"NotBox", role, *x, *y),
        DeviceDiff::Open { role, name } => open_line(alloc, role, name),
        DeviceDiff::Short {
            role,
            first,
            second,
        } => short_line(alloc, role, first, second),
        DeviceDiff::Nameless { role, x, y } => corner_line(alloc, b"Nameless", role, *x, *y),
        DeviceDiff::Absent {
            role,
            model,
            gate,
            low,
            high,
        } => transistor_line(
            alloc,
            b"Absent",
            role,
            transistor_of(model, gate, low, high),
        ),
        DeviceDiff::Extra {
            role,
            model,
            gate,
            low,
            high,
        } => transistor_line(alloc, b"Extra", role, transistor_of(model, gate, low, high)),
    }
}

/// The answer to a comparison of transistors: status 0 and no line where there is no difference, else status 1 and its
/// line.
pub fn device_reply(alloc: Global, difference: &Option<DeviceDiff>) -> Result<Reply, Memory>
    ensures { IfOk result (λ reply. reply ≡ device_reply difference.now) }
{
    let mut lines = Items::new(alloc);
    let mut status = 0;
    if let Some(difference) = difference {
        lines.push(device_line(alloc, difference)?)?;
        status = 1;
    }
    Ok(Reply {
        status,
        lines: ReplyLines::made(lines),
    })
}
