ghost use Rattle.std.specs.Prelude.{◌≡◌, ◌∷◌, [], IfOk};
ghost use Rattle.std.specs.Fmt.{decimal, signed_decimal};
ghost use Rattle.reply_lines.specs.Lines.{sentence, reply_line};
ghost use Rattle.reply_lines.specs.Refusals.{headed, unwritten_words};

use crate::line::ReplyLine;
use or_geom::{Memory, Name, Point};
use std::alloc::Global;

/// The beginning of the line of a refusal: its number and its name.
pub fn heading(alloc: Global, number: u64, name: &[u8]) -> Result<ReplyLine, Memory>
    ensures { IfOk result (λ line. line ≡ sentence (headed number name.now [])) }
{
    let mut line = ReplyLine::of(alloc, b"openram:")?;
    line.number(number)?;
    line.word(name)?;
    Ok(line)
}

/// A line without fields.
pub fn without_fields(alloc: Global, number: u64, name: &[u8]) -> Result<ReplyLine, Memory>
    ensures { IfOk result (λ line. line ≡ reply_line (headed number name.now [])) }
{
    let mut line = heading(alloc, number, name)?;
    line.end()?;
    Ok(line)
}

/// A line with one name as its field.
pub fn with_name(alloc: Global, number: u64, name: &[u8], field: &Name) -> Result<ReplyLine, Memory>
    ensures { IfOk result (λ line. line ≡ reply_line (headed number name.now (field.now ∷ []))) }
{
    let mut line = heading(alloc, number, name)?;
    line.word(field.as_bytes())?;
    line.end()?;
    Ok(line)
}

/// A line with one number as its field.
pub fn with_number(alloc: Global, number: u64, name: &[u8], at: u64) -> Result<ReplyLine, Memory>
    ensures { IfOk result (λ line. line ≡ reply_line (headed number name.now (decimal at ∷ []))) }
{
    let mut line = heading(alloc, number, name)?;
    line.number(at)?;
    line.end()?;
    Ok(line)
}

/// A line with two numbers as its fields.
pub fn with_numbers(
    alloc: Global,
    number: u64,
    name: &[u8],
    a: u64,
    b: u64,
) -> Result<ReplyLine, Memory>
    ensures { IfOk result (λ line. line ≡ reply_line (headed number name.now (decimal a ∷ decimal b ∷ []))) }
{
    let mut line = heading(alloc, number, name)?;
    line.number(a)?;
    line.number(b)?;
    line.end()?;
    Ok(line)
}

/// A line with a point's coordinates as its fields.
pub fn with_point(alloc: Global, number: u64, name: &[u8], p: Point) -> Result<ReplyLine, Memory>
    ensures { IfOk result (λ line. line ≡ reply_line
        (headed number name.now (signed_decimal p.x ∷ signed_decimal p.y ∷ []))) }
{
    let mut line = heading(alloc, number, name)?;
    line.signed(p.x)?;
    line.signed(p.y)?;
    line.end()?;
    Ok(line)
}

/// A line with two names as its fields.
pub fn with_names(
    alloc: Global,
    number: u64,
    name: &[u8],
    a: &Name,
    b: &Name,
) -> Result<ReplyLine, Memory>
    ensures { IfOk result (λ line. line ≡ reply_line (headed number name.now (a.now ∷ b.now ∷ []))) }
{
    let mut line = heading(alloc, number, name)?;
    line.word(a.as_bytes())?;
    line.word(b.as_bytes())?;
    line.end()?;
    Ok(line)
}

/// The line of a file that couldn't be written.
pub fn unwritten_line(alloc: Global, name: &Name) -> Result<ReplyLine, Memory>
    ensures { IfOk result (λ line. line ≡ reply_line (unwritten_words name.now)) }
{
    with_name(alloc, 92, b"WriteFailed", name)
}
