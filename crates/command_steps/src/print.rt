ghost use Rattle.std.specs.Prelude.{length, OnOk};
ghost use Rattle.or_host.specs.Fault.{HasCause, RoseBy};
ghost use Rattle.or_host.specs.Text.{Puts, put_failed};
ghost use Rattle.reply_lines.specs.Lines.{reply_line};
ghost use Rattle.reply_lines.specs.ReportLines.{report_lines};
ghost use Rattle.reply_lines.specs.Shapes.{violation_words};
ghost use Rattle.command_steps.specs.Printed.{Prints};

use or_geom::Memory;
use or_host::{PutFail, Sink};
use reply_lines::{LineSource, ReplyLine, ReplyLines, TextLines, violation_line};
use std::alloc::Global;
use tech_rules::Layer;
use tile_checker::Violation;

/// Prints lines that are made, with as many puts as lines, or stops at the first that isn't printed.
fn print_made<K: Sink>(lines: &[ReplyLine], out: &mut K) -> Result<(), PutFail>
    ensures printed { Prints lines.now (K.state out.old).text (K.state out.new).text result }
    ensures cause { HasCause (K.state out.old).faults (K.state out.new).faults (put_failed result) }
    ensures counted { OnOk result (RoseBy (length lines.now) (K.state out.old).puts (K.state out.new).puts) }
{
    for line in lines {
        match out.put(line.as_bytes()) {
            Ok(()) => {}
            Err(fail) => return Err(fail),
        }
    }
    Ok(())
}

/// Prints lines that stand in one buffer, with as many puts as lines, or stops at the first that isn't printed.
fn print_text<K: Sink>(lines: &TextLines, out: &mut K) -> Result<(), PutFail>
    ensures printed { Prints lines.now (K.state out.old).text (K.state out.new).text result }
    ensures cause { HasCause (K.state out.old).faults (K.state out.new).faults (put_failed result) }
    ensures counted { OnOk result (RoseBy (length lines.now) (K.state out.old).puts (K.state out.new).puts) }
{
    for place in 0..lines.len() {
        match out.put(lines.get(place)) {
            Ok(()) => {}
            Err(fail) => return Err(fail),
        }
    }
    Ok(())
}

/// Makes the line of a violation and prints it. Where memory runs out for it, nothing is printed.
fn print_violation<K: Sink>(
    alloc: Global,
    layers: &[Layer],
    violation: Violation,
    out: &mut K,
) -> Result<(), PutFail>
    ensures written { Puts (K.state out.old).text (K.state out.new).text
        (reply_line (violation_words layers.now violation)) result }
    ensures cause { HasCause (K.state out.old).faults (K.state out.new).faults (put_failed result) }
    ensures counted { OnOk result (RoseBy 1 (K.state out.old).puts (K.state out.new).puts) }
{
    match violation_line(alloc, layers, violation) {
        Ok(line) => out.put(line.as_bytes()),
        Err(Memory) => Err(PutFail::Memory),
    }
}

/// Prints the lines of a report, with as many puts as lines, or stops at the first that isn't printed.
fn print_report<K: Sink>(
    alloc: Global,
    layers: &[Layer],
    violations: &[Violation],
    out: &mut K,
) -> Result<(), PutFail>
    ensures printed { Prints (report_lines layers.now violations.now) (K.state out.old).text
        (K.state out.new).text result }
    ensures cause { HasCause (K.state out.old).faults (K.state out.new).faults (put_failed result) }
    ensures counted { OnOk result (RoseBy (length violations.now) (K.state out.old).puts (K.state out.new).puts) }
{
    for violation in violations {
        match print_violation(alloc, layers, *violation, out) {
            Ok(()) => {}
            Err(fail) => return Err(fail),
        }
    }
    Ok(())
}

/// Prints lines, with as many puts as lines, or stops at the first that isn't printed.
pub fn print<K: Sink>(alloc: Global, lines: &ReplyLines, out: &mut K) -> Result<(), PutFail>
    ensures printed { Prints lines.now (K.state out.old).text (K.state out.new).text result }
    ensures cause { HasCause (K.state out.old).faults (K.state out.new).faults (put_failed result) }
    ensures counted { OnOk result (RoseBy (length lines.now) (K.state out.old).puts (K.state out.new).puts) }
{
    match lines.source() {
        LineSource::Made(lines) => print_made(lines.as_slice(), out),
        LineSource::Text(lines) => print_text(lines, out),
        LineSource::Report { layers, violations } => {
            print_report(alloc, layers.as_slice(), violations.as_slice(), out)
        }
    }
}
