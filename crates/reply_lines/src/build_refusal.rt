ghost use Rattle.std.specs.Prelude.{◌≡◌, ◌∷◌, [], ◌++◌, IfOk, OnOk, codes};
ghost use Rattle.std.specs.Fmt.{decimal, signed_decimal};
ghost use Rattle.reply_lines.specs.Lines.{spaced, reply_line};
ghost use Rattle.reply_lines.specs.Pins.{pin_word, kind_and_pins};
ghost use Rattle.reply_lines.specs.Refusals.{headed, config_words, table_words, kit_words, part_words};
ghost use Rattle.reply_lines.specs.Shapes.{shape_words, second_words, violation_words};

use crate::finding::add_shape;
use crate::heading::{heading, with_name, with_names, with_point, without_fields};
use crate::line::ReplyLine;
use crate::refusal::{flatten_line, gds_line, spice_line};
use leaf_tables::{KitFault, PartFault, TableFault};
use net_extractor::{NetDiff, PinName};
use or_geom::{Memory, Name, Point, Shape};
use sram_plan::ConfigFault;
use std::alloc::Global;
use tech_rules::Layer;
use tile_checker::Violation;

pub fn config_line(alloc: Global, fault: &ConfigFault) -> Result<ReplyLine, Memory>
    ensures { IfOk result (λ line. line ≡ reply_line (config_words fault.now)) }
{
    match fault {
        ConfigFault::NotToml => without_fields(alloc, 61, b"NotToml"),
        ConfigFault::UnknownKey { key } => with_name(alloc, 64, b"UnknownKey", key),
        ConfigFault::Missing { key } => with_name(alloc, 62, b"Missing", key),
        ConfigFault::WrongKind { key } => with_name(alloc, 63, b"WrongKind", key),
        ConfigFault::OutOfRange { key } => with_name(alloc, 65, b"OutOfRange", key),
        ConfigFault::Memory => without_fields(alloc, 94, b"Memory"),
    }
}

/// The line of a row of a role's table.
fn row_line(alloc: Global, role: &Name, row: u32) -> Result<ReplyLine, Memory>
    ensures { IfOk result (λ line. line ≡ reply_line (headed 52 (codes "BadRow") (role.now ∷ decimal row ∷ []))) }
{
    let mut line = heading(alloc, 52, b"BadRow")?;
    line.word(role.as_bytes())?;
    line.number(u64::from(row))?;
    line.end()?;
    Ok(line)
}

fn table_line(alloc: Global, fault: &TableFault) -> Result<ReplyLine, Memory>
    ensures { IfOk result (λ line. line ≡ reply_line (table_words fault.now)) }
{
    match fault {
        TableFault::MissingRole { role } => with_name(alloc, 51, b"MissingRole", role),
        TableFault::BadRow { role, row } => row_line(alloc, role, *row),
        TableFault::Differs { role, point } => with_names(alloc, 53, b"Differs", role, point),
        TableFault::Memory => without_fields(alloc, 94, b"Memory"),
    }
}

pub fn kit_line(alloc: Global, fault: &KitFault) -> Result<ReplyLine, Memory>
    ensures { IfOk result (λ line. line ≡ reply_line (kit_words fault.now)) }
{
    match fault {
        KitFault::Gds(fault) => gds_line(alloc, *fault),
        KitFault::Spice(fault) => spice_line(alloc, *fault),
        KitFault::NoWire => without_fields(alloc, 50, b"NoWire"),
        KitFault::Table(fault) => table_line(alloc, fault),
        KitFault::Flatten(fault) => flatten_line(alloc, fault),
        KitFault::Outline { role } => with_name(alloc, 56, b"Outline", role),
        KitFault::UnknownSubckt { name } => with_name(alloc, 16, b"UnknownSubckt", name),
        KitFault::PortsDiffer { role } => with_name(alloc, 60, b"PortsDiffer", role),
        KitFault::PinMissing { role, pin } => with_names(alloc, 54, b"PinMissing", role, pin),
        KitFault::PinLayer { role, pin } => with_names(alloc, 55, b"PinLayer", role, pin),
        KitFault::EdgePin { role, pin } => with_names(alloc, 59, b"EdgePin", role, pin),
        KitFault::HeightDiffers { role } => with_name(alloc, 57, b"HeightDiffers", role),
        KitFault::WidthDiffers { role } => with_name(alloc, 58, b"WidthDiffers", role),
        KitFault::Memory => without_fields(alloc, 94, b"Memory"),
    }
}

/// The line of two pins of a channel: its side and their x.
fn close_line(alloc: Global, side: u8, first: i64, second: i64) -> Result<ReplyLine, Memory>
    ensures { IfOk result (λ line. line ≡ reply_line
        (headed 71 (codes "Close") (decimal side ∷ signed_decimal first ∷ signed_decimal second ∷ []))) }
{
    let mut line = heading(alloc, 71, b"Close")?;
    line.number(u64::from(side))?;
    line.signed(first)?;
    line.signed(second)?;
    line.end()?;
    Ok(line)
}

pub fn part_line(alloc: Global, fault: &PartFault) -> Result<ReplyLine, Memory>
    ensures { IfOk result (λ line. line ≡ reply_line (part_words fault.now)) }
{
    match fault {
        PartFault::Close {
            side,
            first,
            second,
        } => close_line(alloc, *side, *first, *second),
        PartFault::TapsClose { first, second } => {
            with_point(
                alloc,
                72,
                b"TapsClose",
                Point {
                    x: *first,
                    y: *second,
                },
            )
        }
        PartFault::SliceTooNarrow { role } => with_name(alloc, 73, b"SliceTooNarrow", role),
        PartFault::NameTaken { name } => with_name(alloc, 74, b"NameTaken", name),
        PartFault::Memory => without_fields(alloc, 94, b"Memory"),
    }
}

/// Adds a shape and, where there is one, a second.
fn add_shapes(
    line: &mut ReplyLine,
    layers: &[Layer],
    first: Shape,
    second: Option<Shape>,
) -> Result<(), Memory>
    ensures { OnOk result (line.new ≡ line.old ++ spaced
        (shape_words layers.now first ++ second_words layers.now second)) }
{
    add_shape(line, layers, first)?;
    if let Some(second) = second {
        add_shape(line, layers, second)?;
    }
    Ok(())
}

/// The line of a violation of a layout that was built.
pub fn broken_line(
    alloc: Global,
    layers: &[Layer],
    violation: Violation,
) -> Result<ReplyLine, Memory>
    ensures { IfOk result (λ line. line ≡ reply_line
        (headed 81 (codes "RuleBroken") (violation_words layers.now violation))) }
{
    let mut line = heading(alloc, 81, b"RuleBroken")?;
    line.number(u64::from(violation.rule))?;
    add_shapes(&mut line, layers, violation.first, violation.second)?;
    line.end()?;
    Ok(line)
}

/// The line of a kind of difference and its two pins.
fn pins_line(
    alloc: Global,
    kind: &[u8],
    first: &PinName,
    second: &PinName,
) -> Result<ReplyLine, Memory>
    ensures { IfOk result (λ line. line ≡ reply_line
        (headed 82 (codes "NetsDiffer") (kind.now ∷ pin_word first.now ∷ pin_word second.now ∷ []))) }
{
    let mut line = heading(alloc, 82, b"NetsDiffer")?;
    line.word(kind)?;
    line.pin(first.path.as_bytes(), first.pin.as_bytes())?;
    line.pin(second.path.as_bytes(), second.pin.as_bytes())?;
    line.end()?;
    Ok(line)
}

/// The line of a difference of a layout that was built from its netlist. A difference of one pin has it twice.
pub fn differs_line(alloc: Global, difference: &NetDiff) -> Result<ReplyLine, Memory>
    ensures { IfOk result (λ line. line ≡ reply_line (headed 82 (codes "NetsDiffer") (kind_and_pins difference.now))) }
{
    match difference {
        NetDiff::Unlabelled { pin } => pins_line(alloc, b"Unlabelled", pin, pin),
        NetDiff::Stranger { pin } => pins_line(alloc, b"Stranger", pin, pin),
        NetDiff::Open { first, second } => pins_line(alloc, b"Open", first, second),
        NetDiff::Short { first, second } => pins_line(alloc, b"Short", first, second),
    }
}
