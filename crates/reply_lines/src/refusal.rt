ghost use Rattle.std.specs.Prelude.{◌≡◌, IfOk};
ghost use Rattle.reply_lines.specs.Lines.{reply_line};
ghost use Rattle.reply_lines.specs.Refusals.{refusal_words, gds_words, tech_words, spice_words, flatten_words};
ghost use Rattle.reply_lines.specs.Refusals.{rows_words};
ghost use Rattle.reply_lines.specs.Statuses.{is_memory, is_read_failure, refusal_status};

use crate::build_refusal::{broken_line, config_line, differs_line, kit_line, part_line};
use crate::device_refusal::bad_device_line;
use crate::heading::{with_name, with_number, with_numbers, with_point, without_fields};
use crate::line::ReplyLine;
use crate::rom_refusal::rom_line;
use cell_hierarchy::FlattenFault;
use gds_library::GdsFault;
use leaf_tables::{KitFault, PartFault, TableFault};
use net_extractor::NetDiff;
use or_geom::{Items, Memory, Name, Point};
use rom_data::RomFault;
use spice_netlist::FlatFault;
use spice_text::SpiceFault;
use sram_plan::{ConfigFault, PlanFault};
use std::alloc::Global;
use tech_rules::{Layer, TechFault};
use tile_checker::Violation;

/// Why there is no answer. Each has a number and a name, with which it is printed, and a status.
#[derive(Debug, Drop)]
pub enum Refusal {
    /// The words are no form of the program.
    Usage,
    /// A file isn't there.
    NoFile {
        name: Name,
    },
    /// A file is longer than 64 MiB.
    TooLong {
        name: Name,
    },
    /// The store failed to read a file.
    ReadFailed {
        name: Name,
    },
    /// The technology's file is no technology.
    Tech(TechFault),
    /// The GDSII file is no library.
    Gds(GdsFault),
    /// The netlist's file is no deck.
    Spice(SpiceFault),
    /// The structure has no flat layout.
    Flatten(FlattenFault),
    /// The subcircuit has no flat rows.
    Rows(FlatFault),
    /// The configuration's file is no configuration.
    Config(ConfigFault),
    /// The configuration has no plan.
    Plan(PlanFault),
    /// The files are no kit of leaf cells.
    Kit(KitFault),
    /// A part can't be built from the leaf cells.
    Part(PartFault),
    /// The layout that was built breaks a rule: the first violation of its report, over these layers.
    RuleBroken {
        layers: Items<Layer>,
        violation: Violation,
    },
    /// The nets of the layout that was built differ from its netlist: the first difference.
    NetsDiffer(NetDiff),
    /// The configuration has a value that no read-only memory has: the key.
    NotRom {
        key: Name,
    },
    /// The data file's bytes aren't the words of a read-only memory.
    Rom(RomFault),
    /// The technology has no kind of transistors.
    NoDevices,
    /// The subcircuit of the role's cell has an instance, where it is to have transistors alone.
    Nested {
        role: Name,
    },
    /// The line of a transistor with this number, from 0 among the lines of the role's subcircuit that are no
    /// instances, has fewer than six words.
    BadDevice {
        role: Name,
        line: u64,
    },
    /// Out of memory, as each of the faults above may be too.
    Memory,
}

pub fn tech_line(alloc: Global, fault: &TechFault) -> Result<ReplyLine, Memory>
    ensures { IfOk result (λ line. line ≡ reply_line (tech_words fault.now)) }
{
    match fault {
        TechFault::NotToml => without_fields(alloc, 21, b"NotToml"),
        TechFault::Missing { key } => with_name(alloc, 22, b"Missing", key),
        TechFault::WrongKind { key } => with_name(alloc, 23, b"WrongKind", key),
        TechFault::OutOfRange { key } => with_name(alloc, 24, b"OutOfRange", key),
        TechFault::UnknownLayer { key } => with_name(alloc, 25, b"UnknownLayer", key),
        TechFault::BadWire { layer } => with_name(alloc, 26, b"BadWire", layer),
        TechFault::Memory => without_fields(alloc, 94, b"Memory"),
    }
}

pub fn flatten_line(alloc: Global, fault: &FlattenFault) -> Result<ReplyLine, Memory>
    ensures { IfOk result (λ line. line ≡ reply_line (flatten_words fault.now)) }
{
    match fault {
        FlattenFault::UnknownStruct { name } => with_name(alloc, 31, b"UnknownStruct", name),
        FlattenFault::Cycle { name } => with_name(alloc, 32, b"Cycle", name),
        FlattenFault::TooDeep { depth } => with_number(alloc, 33, b"TooDeep", u64::from(*depth)),
        FlattenFault::TooMany { shapes, labels } => {
            with_numbers(alloc, 34, b"TooMany", *shapes, *labels)
        }
        FlattenFault::Far { x, y } => with_point(alloc, 35, b"Far", Point { x: *x, y: *y }),
        FlattenFault::Memory => without_fields(alloc, 94, b"Memory"),
    }
}

pub fn spice_line(alloc: Global, fault: SpiceFault) -> Result<ReplyLine, Memory>
    ensures { IfOk result (λ line. line ≡ reply_line (spice_words fault)) }
{
    match fault {
        SpiceFault::NotAscii { at } => with_number(alloc, 11, b"NotAscii", at),
        SpiceFault::OutsideSubckt { line } => with_number(alloc, 12, b"OutsideSubckt", line),
        SpiceFault::Unclosed { line } => with_number(alloc, 13, b"Unclosed", line),
        SpiceFault::Duplicate { line } => with_number(alloc, 14, b"Duplicate", line),
        SpiceFault::Refused { line } => with_number(alloc, 15, b"Refused", line),
        SpiceFault::BadLine { line } => with_number(alloc, 19, b"BadLine", line),
        SpiceFault::Memory => without_fields(alloc, 94, b"Memory"),
    }
}

fn rows_line(alloc: Global, fault: &FlatFault) -> Result<ReplyLine, Memory>
    ensures { IfOk result (λ line. line ≡ reply_line (rows_words fault.now)) }
{
    match fault {
        FlatFault::UnknownSubckt { name } => with_name(alloc, 16, b"UnknownSubckt", name),
        FlatFault::Cycle { name } => with_name(alloc, 18, b"Cycle", name),
        FlatFault::PortCount { path } => with_name(alloc, 17, b"PortCount", path),
        FlatFault::TooMany { count } => with_number(alloc, 20, b"TooMany", *count),
        FlatFault::Memory => without_fields(alloc, 94, b"Memory"),
    }
}

pub fn gds_line(alloc: Global, fault: GdsFault) -> Result<ReplyLine, Memory>
    ensures { IfOk result (λ line. line ≡ reply_line (gds_words fault)) }
{
    match fault {
        GdsFault::Truncated { at } => with_number(alloc, 1, b"Truncated", at),
        GdsFault::BadRecord { at, code } => with_numbers(
            alloc,
            2,
            b"BadRecord",
            at,
            u64::from(code),
        ),
        GdsFault::NotInPlace { at, code } => with_numbers(
            alloc,
            3,
            b"NotInPlace",
            at,
            u64::from(code),
        ),
        GdsFault::BadUnits { at } => with_number(alloc, 4, b"BadUnits", at),
        GdsFault::NotManhattan { at } => with_number(alloc, 5, b"NotManhattan", at),
        GdsFault::BadTransform { at } => with_number(alloc, 6, b"BadTransform", at),
        GdsFault::BadPath { at } => with_number(alloc, 7, b"BadPath", at),
        GdsFault::TrailingBytes { at } => with_number(alloc, 8, b"TrailingBytes", at),
        GdsFault::Twice { at } => with_number(alloc, 10, b"Twice", at),
        GdsFault::Memory => without_fields(alloc, 94, b"Memory"),
    }
}

/// Out of memory, in a layer below or here.
impl From<Memory> for Refusal {
    ghost use Rattle.reply_lines.specs.declared.refusal.Refusal.TheVariants as refusal_of;

    ghost from_gives = { λ _ r. r ≡ refusal_of.Memory };

    fn from(_: Memory) -> Self {
        Refusal::Memory
    }
}

impl Refusal {
    /// Whether memory ran out, here or in a layer below.
    pub fn is_memory(&self) -> bool
        ensures { result ≡ is_memory self.now }
    {
        matches!(
            self,
            Refusal::Memory
                | Refusal::Tech(TechFault::Memory)
                | Refusal::Gds(GdsFault::Memory)
                | Refusal::Spice(SpiceFault::Memory)
                | Refusal::Flatten(FlattenFault::Memory)
                | Refusal::Rows(FlatFault::Memory)
                | Refusal::Config(ConfigFault::Memory)
                | Refusal::Kit(KitFault::Gds(GdsFault::Memory))
                | Refusal::Kit(KitFault::Spice(SpiceFault::Memory))
                | Refusal::Kit(KitFault::Table(TableFault::Memory))
                | Refusal::Kit(KitFault::Flatten(FlattenFault::Memory))
                | Refusal::Kit(KitFault::Memory)
                | Refusal::Part(PartFault::Memory)
                | Refusal::Rom(RomFault::Memory)
        )
    }

    /// Whether a file couldn't be read.
    pub fn is_read_failure(&self) -> bool
        ensures { result ≡ is_read_failure self.now }
    {
        matches!(self, Refusal::ReadFailed { .. })
    }

    /// The exit status. 2: the words are no form. 3: an input is refused. 4: the store failed. 5: out of memory.
    pub fn status(&self) -> u8
        ensures { result ≡ refusal_status self.now }
    {
        if self.is_memory() {
            return 5;
        }
        match self {
            Refusal::Usage => 2,
            Refusal::ReadFailed { .. } => 4,
            _ => 3,
        }
    }

    /// The line that is printed of it.
    pub fn line(&self, alloc: Global) -> Result<ReplyLine, Memory>
        ensures { IfOk result (λ line. line ≡ reply_line (refusal_words self.now)) }
    {
        match self {
            Refusal::Usage => without_fields(alloc, 90, b"Usage"),
            Refusal::NoFile { name } => with_name(alloc, 67, b"NoFile", name),
            Refusal::TooLong { name } => with_name(alloc, 68, b"TooLong", name),
            Refusal::ReadFailed { name } => with_name(alloc, 91, b"ReadFailed", name),
            Refusal::Tech(fault) => tech_line(alloc, fault),
            Refusal::Gds(fault) => gds_line(alloc, *fault),
            Refusal::Spice(fault) => spice_line(alloc, *fault),
            Refusal::Flatten(fault) => flatten_line(alloc, fault),
            Refusal::Rows(fault) => rows_line(alloc, fault),
            Refusal::Config(fault) => config_line(alloc, fault),
            Refusal::Plan(PlanFault::Shape) => without_fields(alloc, 66, b"Shape"),
            Refusal::Kit(fault) => kit_line(alloc, fault),
            Refusal::Part(fault) => part_line(alloc, fault),
            Refusal::RuleBroken { layers, violation } => {
                broken_line(alloc, layers.as_slice(), *violation)
            }
            Refusal::NetsDiffer(difference) => differs_line(alloc, difference),
            Refusal::NotRom { key } => with_name(alloc, 113, b"NotRom", key),
            Refusal::Rom(fault) => rom_line(alloc, *fault),
            Refusal::NoDevices => without_fields(alloc, 103, b"NoDevices"),
            Refusal::Nested { role } => with_name(alloc, 102, b"Nested", role),
            Refusal::BadDevice { role, line } => bad_device_line(alloc, role, *line),
            Refusal::Memory => without_fields(alloc, 94, b"Memory"),
        }
    }
}
