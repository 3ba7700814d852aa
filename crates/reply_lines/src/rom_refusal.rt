ghost use Rattle.std.specs.Prelude.{◌≡◌, IfOk};
ghost use Rattle.reply_lines.specs.Lines.{reply_line};
ghost use Rattle.reply_lines.specs.Refusals.{rom_words};

use crate::heading::{with_number, without_fields};
use crate::line::ReplyLine;
use or_geom::Memory;
use rom_data::RomFault;
use std::alloc::Global;

pub fn rom_line(alloc: Global, fault: RomFault) -> Result<ReplyLine, Memory>
    ensures { IfOk result (λ line. line ≡ reply_line (rom_words fault)) }
{
    match fault {
        RomFault::DataLength { length } => with_number(alloc, 111, b"DataLength", length),
        RomFault::DataBits { word } => with_number(alloc, 112, b"DataBits", word),
        RomFault::Memory => without_fields(alloc, 94, b"Memory"),
    }
}
