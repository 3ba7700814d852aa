ghost use Rattle.std.specs.Prelude.{◌≡◌, ◌++◌, ◌∷◌, [], codes, IfOk, OnOk};
ghost use Rattle.std.specs.Fmt.{decimal, signed_decimal};
ghost use Rattle.reply_lines.specs.Lines.{reply_line, sentence, spaced};
ghost use Rattle.kit_command.specs.WeakLines.{weak_words, weak_reply};

use kit_check::{Weak, Window};
use or_geom::{Items, Memory, Name};
use reply_lines::{Reply, ReplyLine, ReplyLines};
use std::alloc::Global;

/// The beginning of a line: that the kit is weak, and in what.
fn kind_line(alloc: Global, kind: &[u8]) -> Result<ReplyLine, Memory>
    ensures { IfOk result (λ line. line ≡ sentence (codes "Weak" ∷ kind.now ∷ [])) }
{
    let mut line = ReplyLine::of(alloc, b"Weak")?;
    line.word(kind)?;
    Ok(line)
}

/// Adds two numbers.
fn add_pair(line: &mut ReplyLine, first: u32, second: u32) -> Result<(), Memory>
    ensures { OnOk result (line.new ≡ line.old ++ spaced (decimal first ∷ decimal second ∷ [])) }
{
    line.number(u64::from(first))?;
    line.number(u64::from(second))?;
    Ok(())
}

/// The line of a rule or a connection.
fn number_line(alloc: Global, kind: &[u8], number: u32) -> Result<ReplyLine, Memory>
    ensures { IfOk result (λ line. line ≡ reply_line (codes "Weak" ∷ kind.now ∷ decimal number ∷ [])) }
{
    let mut line = kind_line(alloc, kind)?;
    line.number(u64::from(number))?;
    line.end()?;
    Ok(line)
}

/// The line of the reach.
fn reach_line(alloc: Global, reach: i64) -> Result<ReplyLine, Memory>
    ensures { IfOk result (λ line. line ≡ reply_line (codes "Weak" ∷ codes "Reach" ∷ signed_decimal reach ∷ [])) }
{
    let mut line = kind_line(alloc, b"Reach")?;
    line.signed(reach)?;
    line.end()?;
    Ok(line)
}

/// The line of a role's pin.
fn pin_line(alloc: Global, role: &Name, pin: &Name) -> Result<ReplyLine, Memory>
    ensures { IfOk result (λ line. line ≡ reply_line (codes "Weak" ∷ codes "Pin" ∷ role.now ∷ pin.now ∷ [])) }
{
    let mut line = kind_line(alloc, b"Pin")?;
    line.word(role.as_bytes())?;
    line.word(pin.as_bytes())?;
    line.end()?;
    Ok(line)
}

/// The line of a small macro and the number of its fault.
fn window_line(alloc: Global, window: &Window, fault: u32) -> Result<ReplyLine, Memory>
    ensures { IfOk result (λ line. line ≡ reply_line
        (codes "Weak" ∷ codes "Window" ∷ decimal window.now.word_size ∷ decimal window.now.write_size ∷ decimal
        window.now.wpr ∷ decimal window.now.rows ∷ decimal window.now.banks ∷ decimal fault ∷ [])) }
{
    let mut line = kind_line(alloc, b"Window")?;
    add_pair(&mut line, window.word_size, window.write_size)?;
    add_pair(&mut line, window.wpr, window.rows)?;
    add_pair(&mut line, window.banks, fault)?;
    line.end()?;
    Ok(line)
}

/// The line of a weakness.
fn weak_line(alloc: Global, weak: &Weak) -> Result<ReplyLine, Memory>
    ensures { IfOk result (λ line. line ≡ reply_line (weak_words weak.now)) }
{
    match weak {
        Weak::Layer { rule } => number_line(alloc, b"Layer", *rule),
        Weak::Joint { connect } => number_line(alloc, b"Joint", *connect),
        Weak::Reach { reach } => reach_line(alloc, *reach),
        Weak::Pin { role, pin } => pin_line(alloc, role, pin),
        Weak::Window {
            word_size,
            write_size,
            wpr,
            rows,
            banks,
            fault,
        } => {
            let window = Window {
                word_size: *word_size,
                write_size: *write_size,
                wpr: *wpr,
                rows: *rows,
                banks: *banks,
            };
            window_line(alloc, &window, *fault)
        }
    }
}

/// The answer to a question for a weakness: status 0 and no line where there is none, else status 1 and its line.
pub fn weak_reply(alloc: Global, found: &Option<Weak>) -> Result<Reply, Memory>
    ensures { IfOk result (λ reply. reply ≡ weak_reply found.now) }
{
    let mut lines = Items::new(alloc);
    let mut status = 0;
    if let Some(weak) = found {
        lines.push(weak_line(alloc, weak)?)?;
        status = 1;
    }
    Ok(Reply {
        status,
        lines: ReplyLines::made(lines),
    })
}
