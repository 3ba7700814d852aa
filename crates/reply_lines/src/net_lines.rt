ghost use Rattle.std.specs.Prelude.{◌≡◌, ◌++◌, map, IfOk, OnOk};
ghost use Rattle.net_extractor.specs.PlainNets.{plain_net};
ghost use Rattle.reply_lines.specs.Lines.{reply_line};
ghost use Rattle.reply_lines.specs.NetLines.{net_word, net_words, net_lines, nets_reply};

use crate::finding::name_of;
use crate::line::ReplyLine;
use crate::lines::ReplyLines;
use crate::reply::Reply;
use crate::text_lines::TextLines;
use net_extractor::NetLabel;
use or_geom::Memory;
use std::alloc::Global;
use tech_rules::Layer;

/// How many bytes of a line are in no name: a number of ten digits, two spaces, `/` and the line's end.
const NAMELESS_BYTES: usize = 14;

/// How many bytes the lines take at most. Nothing is claimed of it: it is the room that is asked for.
fn room_for(layers: &[Layer], labels: &[NetLabel]) -> usize {
    let mut room: usize = 0;
    for entry in labels {
        let label = entry.label;
        let pin = label.path.len().saturating_add(label.name.len());
        let names = pin.saturating_add(name_of(layers, label.layer).len());
        room = room.saturating_add(names).saturating_add(NAMELESS_BYTES);
    }
    room
}

/// Begins a line with the number of a net, or with `-` where there is none.
fn begin_net(text: &mut ReplyLine, net: Option<u32>) -> Result<(), Memory>
    ensures { OnOk result (text.new ≡ text.old ++ net_word net) }
{
    match net {
        Some(number) => text.first_number(u64::from(number)),
        None => text.first(b"-"),
    }
}

/// Adds the line of a label.
fn add_net_line(text: &mut ReplyLine, layers: &[Layer], entry: &NetLabel) -> Result<(), Memory>
    ensures { OnOk result (text.new ≡ text.old ++ reply_line (net_words layers.now (plain_net entry.now))) }
{
    begin_net(text, entry.net)?;
    let label = entry.label;
    text.word(name_of(layers, label.layer))?;
    text.pin(label.path.as_bytes(), label.name.as_bytes())?;
    text.end()
}

/// The lines of labels.
fn lines_of(alloc: Global, layers: &[Layer], labels: &[NetLabel]) -> Result<TextLines, Memory>
    ensures { IfOk result (λ lines. lines ≡ net_lines layers.now (map plain_net labels.now)) }
{
    let mut text = ReplyLine::with_room(alloc, room_for(layers, labels))?;
    let mut ends = Vec::with_capacity(alloc, labels.len())?;
    for label in labels {
        add_net_line(&mut text, layers, label)?;
        ends.push(text.as_bytes().len())?;
    }
    Ok(TextLines::from_parts(text, ends))
}

/// The answer that is a list of labels with their nets.
pub fn nets_reply(alloc: Global, layers: &[Layer], labels: &[NetLabel]) -> Result<Reply, Memory>
    ensures { IfOk result (λ reply. reply ≡ nets_reply layers.now (map plain_net labels.now)) }
{
    let lines = lines_of(alloc, layers, labels)?;
    Ok(Reply {
        status: 0,
        lines: ReplyLines::text(lines),
    })
}
