ghost use Rattle.std.specs.Prelude.{◌≡◌, ◌++◌, IfOk, OnOk};
ghost use Rattle.reply_lines.specs.Lines.{spaced, reply_line};
ghost use Rattle.reply_lines.specs.Reply.{report_reply};
ghost use Rattle.reply_lines.specs.Shapes.{layer_name, shape_words, violation_words};

use crate::line::ReplyLine;
use crate::lines::ReplyLines;
use crate::reply::Reply;
use or_geom::{Items, Memory, Shape};
use std::alloc::Global;
use tech_rules::Layer;
use tile_checker::Violation;

/// The name of a layer, by its index in the technology.
pub fn name_of(layers: &[Layer], index: u16) -> &[u8]
    ensures { result.now ≡ layer_name layers.now index }
{
    match layers.get(usize::from(index)) {
        Some(layer) => layer.name.as_bytes(),
        None => b"",
    }
}

/// Adds a shape: its layer's name and four numbers.
pub fn add_shape(line: &mut ReplyLine, layers: &[Layer], shape: Shape) -> Result<(), Memory>
    ensures { OnOk result (line.new ≡ line.old ++ spaced (shape_words layers.now shape)) }
{
    line.word(name_of(layers, shape.layer))?;
    line.signed(shape.rect.x1)?;
    line.signed(shape.rect.y1)?;
    line.signed(shape.rect.x2)?;
    line.signed(shape.rect.y2)?;
    Ok(())
}

/// The line of a violation.
pub fn violation_line(
    alloc: Global,
    layers: &[Layer],
    violation: Violation,
) -> Result<ReplyLine, Memory>
    ensures { IfOk result (λ line. line ≡ reply_line (violation_words layers.now violation)) }
{
    let mut line = ReplyLine::of_number(alloc, u64::from(violation.rule))?;
    add_shape(&mut line, layers, violation.first)?;
    if let Some(second) = violation.second {
        add_shape(&mut line, layers, second)?;
    }
    line.end()?;
    Ok(line)
}

/// The answer that is a report: status 0 where it is empty, else 1.
pub fn report_of(layers: Items<Layer>, violations: Vec<Violation>) -> Reply
    ensures { result ≡ report_reply layers violations.items }
{
    let status = if violations.is_empty() { 0 } else { 1 };
    Reply {
        status,
        lines: ReplyLines::report(layers, Items::from_vec(violations)),
    }
}
