ghost use Rattle.reply_lines.specs.Lines.{reply_line};
ghost use Rattle.reply_lines.specs.Refusals.{refusal_words};
ghost use Rattle.command_steps.specs.Finished.{IsFinished, IsOutOfMemory, IsFaultLinePrinted, IsUnwrittenPrinted};
ghost use Rattle.command_steps.specs.Finished.{IsRefusalPrinted};

use crate::print::print;
use crate::write::Unwritten;
use or_geom::Memory;
use or_host::{PutFail, Sink, WriteFail};
use reply_lines::{Refusal, Reply, ReplyLine, unwritten_line};
use std::alloc::Global;

/// The status of a fault outside: a store or a sink failed.
const OUTSIDE: u8 = 4;

/// The status where memory ran out.
pub const NO_MEMORY: u8 = 5;

/// Says that memory ran out, and answers the status of that or, where the sink fails, of a fault outside.
pub fn no_memory<K: Sink>(out: &mut K) -> u8
    ensures { IsOutOfMemory result (K.state out.old) (K.state out.new) }
{
    match out.put(b"openram: 94 Memory\n") {
        Ok(()) => NO_MEMORY,
        Err(PutFail::Failed) => OUTSIDE,
        Err(PutFail::Memory) => NO_MEMORY,
    }
}

/// Prints a reply, and answers its status, or 4 or 5 where it isn't printed whole.
pub fn finish<K: Sink>(alloc: Global, reply: &Reply, out: &mut K) -> u8
    ensures { IsFinished reply.now result (K.state out.old) (K.state out.new) }
{
    match print(alloc, &reply.lines, out) {
        Ok(()) => reply.status,
        Err(PutFail::Failed) => OUTSIDE,
        Err(PutFail::Memory) => no_memory(out),
    }
}

/// Prints the line of a fault outside, and answers its status. Where memory runs out for it, nothing is printed.
fn print_outside<K: Sink>(line: &ReplyLine, out: &mut K) -> u8
    ensures { IsFaultLinePrinted line.now result (K.state out.old) (K.state out.new) }
{
    match out.put(line.as_bytes()) {
        Ok(()) => OUTSIDE,
        Err(PutFail::Failed) => OUTSIDE,
        Err(PutFail::Memory) => NO_MEMORY,
    }
}

/// Prints the line of a failed read. Where memory runs out for it, nothing is printed.
fn finish_unread<K: Sink>(alloc: Global, refusal: &Refusal, out: &mut K) -> u8
    ensures { IsFaultLinePrinted (reply_line (refusal_words refusal.now)) result (K.state out.old) (K.state out.new) }
{
    match refusal.line(alloc) {
        Ok(line) => print_outside(&line, out),
        Err(Memory) => NO_MEMORY,
    }
}

/// Prints the line of a file that wasn't written, where the store failed, or says that memory ran out.
pub fn finish_unwritten<K: Sink>(alloc: Global, unwritten: &Unwritten<'_>, out: &mut K) -> u8
    ensures { IsUnwrittenPrinted unwritten.now.file.now.name unwritten.now.fail result (K.state out.old)
        (K.state out.new) }
{
    match unwritten.fail {
        WriteFail::Failed => match unwritten_line(alloc, &unwritten.file.name) {
            Ok(line) => print_outside(&line, out),
            Err(Memory) => NO_MEMORY,
        },
        WriteFail::Memory => no_memory(out),
    }
}

/// Prints the line of a refusal, and answers its status, or 4 or 5 where it isn't printed whole.
pub fn refuse<K: Sink>(alloc: Global, refusal: &Refusal, out: &mut K) -> u8
    ensures { IsRefusalPrinted refusal.now result (K.state out.old) (K.state out.new) }
{
    if refusal.is_memory() {
        return no_memory(out);
    }
    if refusal.is_read_failure() {
        return finish_unread(alloc, refusal, out);
    }
    match Reply::refused(alloc, refusal) {
        Ok(reply) => finish(alloc, &reply, out),
        Err(Memory) => no_memory(out),
    }
}
