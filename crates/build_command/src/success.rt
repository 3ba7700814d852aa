ghost use Rattle.std.specs.Prelude.{◌≡◌, ◌++◌, IfOk, OnOk};
ghost use Rattle.reply_lines.specs.Lines.{reply_line, spaced};
ghost use Rattle.build_command.specs.Made.{count_words, use_words, size_words, success_words};

use macro_build::Built;
use or_geom::{Memory, Name};
use reply_lines::ReplyLine;
use sram_plan::Plan;
use std::alloc::Global;

/// The line of a memory that was built: its name, the rows and columns of a bank, the tracks of the main channel, the
/// leaf instances, and the macro's sides.
pub fn success_line(
    alloc: Global,
    name: &Name,
    plan: &Plan,
    built: &Built,
) -> Result<ReplyLine, Memory>
    ensures { IfOk result (λ line. line ≡ reply_line (success_words name.now plan.now built.now)) }
{
    let mut line = ReplyLine::of(alloc, name.as_bytes())?;
    add_counts(&mut line, plan)?;
    add_uses(&mut line, built)?;
    add_size(&mut line, built)?;
    line.end()?;
    Ok(line)
}

/// Adds the rows and columns of a bank.
fn add_counts(line: &mut ReplyLine, plan: &Plan) -> Result<(), Memory>
    ensures { OnOk result (line.new ≡ line.old ++ spaced (count_words plan.now)) }
{
    line.word(b"rows")?;
    line.number(u64::from(plan.rows))?;
    line.word(b"columns")?;
    line.number(u64::from(plan.columns))?;
    Ok(())
}

/// Adds tracks and leaf instances.
fn add_uses(line: &mut ReplyLine, built: &Built) -> Result<(), Memory>
    ensures { OnOk result (line.new ≡ line.old ++ spaced (use_words built.now)) }
{
    line.word(b"tracks")?;
    line.number(u64::from(built.tracks))?;
    line.word(b"leaves")?;
    line.number(built.leaves)?;
    Ok(())
}

/// Adds the macro's sides.
fn add_size(line: &mut ReplyLine, built: &Built) -> Result<(), Memory>
    ensures { OnOk result (line.new ≡ line.old ++ spaced (size_words built.now)) }
{
    line.word(b"size")?;
    line.signed(built.width)?;
    line.signed(built.height)?;
    Ok(())
}
