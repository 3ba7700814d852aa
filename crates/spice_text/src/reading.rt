ghost use Rattle.std.specs.Prelude.{◌≡◌, ◌<◌, ◌∷◌, ◌++◌, [], IfOk, OnOk, MatchOption, length};
ghost use Rattle.spice_text.specs.Views.{logical_of};
ghost use Rattle.spice_text.specs.ReaderViews.{said, begun_of, current_of, so_far, is_ended_by, closed};
ghost use Rattle.spice_text.specs.ReaderViews.{HasInstanceNames, HasNames};
ghost use Rattle.spice_text.specs.Statements as says;
ghost use Rattle.spice_text.specs.Subcircuits.{has_repeat, opened, with_current, instance_added, kept_raw, closed_by};
ghost use Rattle.spice_text.specs.Steps.{step};
ghost use Rattle.spice_text.specs.Faults.{IsSpiceAnswer};

use crate::fault::SpiceFault;
use crate::logical::LogicalLine;
use crate::name_set::NameSet;
use crate::statement::Statement;
use crate::subcircuit::{OpenSubckt, Reading};
use netlist::{Instance, Subckt};
use or_geom::{Items, Memory, Name};
use std::alloc::Global;

/// Whether a name stands among the names twice.
fn repeats(alloc: Global, names: &[Name]) -> Result<bool, Memory>
    ensures { IfOk result (λ repeats. repeats ≡ has_repeat [] names.now) }
{
    let mut seen = NameSet::new(alloc);
    for name in names {
        if !seen.add(alloc, name.as_bytes())? {
            return Ok(true);
        }
    }
    Ok(false)
}

/// What the line that begins a subcircuit gives: its name, and its ports.
#[derive(Drop)]
struct Heading {
    name: Name,
    ports: Items<Name>,
}

/// The first of these words as a name, and the others as ports.
fn heading_of(words: Items<Name>) -> Option<Heading>
    ensures { MatchOption result (words ≡ []) (λ heading. words ≡ heading.name ∷ heading.ports) }
{
    let mut ports = words.into_vec();
    if ports.is_empty() {
        return None;
    }
    let name = ports.remove(0);
    Some(Heading {
        name,
        ports: Items::from_vec(ports),
    })
}

/// The subcircuit that begins with this heading.
fn opening(alloc: Global, line: u64, heading: Heading) -> OpenSubckt
    ensures begun { begun_of result ≡ opened line heading.name heading.ports }
    ensures named { HasInstanceNames result }
{
    let subckt = Subckt {
        name: heading.name,
        ports: heading.ports,
        instances: Items::new(alloc),
        raw: Items::new(alloc),
    };
    OpenSubckt {
        line,
        subckt,
        instances: NameSet::new(alloc),
    }
}

/// The heading that these words are, if a subcircuit can begin with it: none is open, and its name and those of its
/// ports are new.
fn check_begin(
    alloc: Global,
    reading: &Reading,
    line: &LogicalLine,
    words: Items<Name>,
) -> Result<Heading, SpiceFault>
    requires { HasNames reading.now }
    ensures { IsSpiceAnswer (λ heading. with_current (so_far reading.now)
        (opened line.now.number heading.name heading.ports)) result
        (step (so_far reading.now) (logical_of line.now) (says.Begin words)) }
{
    let line = line.number;
    let None = &reading.current else {
        return Err(SpiceFault::Unclosed { line });
    };
    let Some(heading) = heading_of(words) else {
        return Err(SpiceFault::BadLine { line });
    };
    if reading.names.holds(heading.name.as_bytes()) {
        return Err(SpiceFault::Duplicate { line });
    }
    if repeats(alloc, heading.ports.as_slice())? {
        return Err(SpiceFault::Duplicate { line });
    }
    Ok(heading)
}

/// A `.SUBCKT` with these words after it.
fn begin(
    alloc: Global,
    reading: &mut Reading,
    line: &LogicalLine,
    words: Items<Name>,
) -> Result<(), SpiceFault>
    requires { HasNames reading.old }
    ensures read { IsSpiceAnswer (λ _. so_far reading.new) result
        (step (so_far reading.old) (logical_of line.now) (says.Begin words)) }
    ensures named { OnOk result (HasNames reading.new) }
{
    let heading = check_begin(alloc, reading, line, words)?;
    reading.current = Some(opening(alloc, line.number, heading));
    Ok(())
}

/// The instance of these words: its name, its nodes, and the name of its subcircuit.
fn instance_in(words: Items<Name>) -> Option<Instance>
    ensures { MatchOption result (length words < 2) (λ instance. words
        ≡ instance.name ∷ (instance.nodes ++ instance.of ∷ [])) }
{
    let mut nodes = words.into_vec();
    let of = nodes.pop()?;
    if nodes.is_empty() {
        return None;
    }
    let name = nodes.remove(0);
    Some(Instance {
        name,
        nodes: Items::from_vec(nodes),
        of,
    })
}

/// An instance with these words.
fn add_instance(
    alloc: Global,
    current: &mut OpenSubckt,
    line: u64,
    words: Items<Name>,
) -> Result<(), SpiceFault>
    requires { HasInstanceNames current.old }
    ensures added { IsSpiceAnswer (λ _. begun_of current.new) result
        (instance_added (begun_of current.old) line words) }
    ensures named { OnOk result (HasInstanceNames current.new) }
{
    let Some(instance) = instance_in(words) else {
        return Err(SpiceFault::BadLine { line });
    };
    if !current.instances.add(alloc, instance.name.as_bytes())? {
        return Err(SpiceFault::Duplicate { line });
    }
    current.subckt.instances.push(instance)?;
    Ok(())
}

/// A line that begins with an instance's name.
fn read_instance(
    alloc: Global,
    reading: &mut Reading,
    line: &LogicalLine,
    words: Items<Name>,
) -> Result<(), SpiceFault>
    requires { HasNames reading.old }
    ensures read { IsSpiceAnswer (λ _. so_far reading.new) result
        (step (so_far reading.old) (logical_of line.now) (says.Instance words)) }
    ensures named { OnOk result (HasNames reading.new) }
{
    match &mut reading.current {
        Some(current) => add_instance(alloc, current, line.number, words),
        None => Err(SpiceFault::OutsideSubckt { line: line.number }),
    }
}

/// A line that has no meaning in a subcircuit.
fn keep_raw(alloc: Global, current: &mut OpenSubckt, text: &[u8]) -> Result<(), Memory>
    requires { HasInstanceNames current.old }
    ensures kept { OnOk result (begun_of current.new ≡ kept_raw (begun_of current.old) text.now) }
    ensures named { OnOk result (HasInstanceNames current.new) }
{
    current.subckt.raw.push(Name::from_bytes(alloc, text)?)
}

/// A command that has no meaning in a subcircuit, and none outside.
fn read_command(alloc: Global, reading: &mut Reading, line: &LogicalLine) -> Result<(), SpiceFault>
    requires { HasNames reading.old }
    ensures read { IsSpiceAnswer (λ _. so_far reading.new) result
        (step (so_far reading.old) (logical_of line.now) says.Command) }
    ensures named { OnOk result (HasNames reading.new) }
{
    if let Some(current) = &mut reading.current {
        keep_raw(alloc, current, line.text.as_slice())?;
    }
    Ok(())
}

/// Another line. It has no meaning in a subcircuit, and may not stand outside.
fn read_other(alloc: Global, reading: &mut Reading, line: &LogicalLine) -> Result<(), SpiceFault>
    requires { HasNames reading.old }
    ensures read { IsSpiceAnswer (λ _. so_far reading.new) result
        (step (so_far reading.old) (logical_of line.now) says.Other) }
    ensures named { OnOk result (HasNames reading.new) }
{
    let Some(current) = &mut reading.current else {
        return Err(SpiceFault::OutsideSubckt { line: line.number });
    };
    keep_raw(alloc, current, line.text.as_slice())?;
    Ok(())
}

/// Whether an `.ENDS` with these words after it ends the subcircuit of this name.
fn closes(words: &[Name], name: &[u8]) -> bool
    ensures { result ≡ closed_by words.now name.now }
{
    match words.first() {
        Some(word) => word.as_bytes() == name,
        None => true,
    }
}

/// Whether an `.ENDS` with these words after it ends the open subcircuit.
fn is_ended(current: &Option<OpenSubckt>, words: &[Name]) -> bool
    ensures { result ≡ is_ended_by (current_of current.now) words.now }
{
    match current {
        Some(current) => closes(words, current.subckt.name.as_bytes()),
        None => false,
    }
}

/// One subcircuit more is done.
fn add_done(alloc: Global, reading: &mut Reading, subckt: Subckt) -> Result<(), Memory>
    requires { HasNames reading.old }
    ensures done { OnOk result (reading.new.done ≡ reading.old.done ++ subckt ∷ []) }
    ensures current { reading.new.current ≡ reading.old.current }
    ensures named { OnOk result (HasNames reading.new) }
{
    reading.names.add(alloc, subckt.name.as_bytes())?;
    reading.done.push(subckt)?;
    Ok(())
}

/// The open subcircuit, where there is one, is done.
fn close(alloc: Global, reading: &mut Reading) -> Result<(), Memory>
    requires { HasNames reading.old }
    ensures closed { OnOk result (so_far reading.new ≡ closed (so_far reading.old)) }
    ensures named { OnOk result (HasNames reading.new) }
{
    let Some(current) = reading.current.take() else {
        return Ok(());
    };
    add_done(alloc, reading, current.subckt)
}

/// An `.ENDS` with these words after it.
#[tactic(auto, using(crate::proofs::ReaderLaws::step_ended, crate::proofs::ReaderLaws::step_open))]
fn end(
    alloc: Global,
    reading: &mut Reading,
    line: &LogicalLine,
    words: &[Name],
) -> Result<(), SpiceFault>
    requires { HasNames reading.old }
    ensures read { IsSpiceAnswer (λ _. so_far reading.new) result
        (step (so_far reading.old) (logical_of line.now) (says.End words.now)) }
    ensures named { OnOk result (HasNames reading.new) }
{
    if !is_ended(&reading.current, words) {
        return Err(SpiceFault::Unclosed { line: line.number });
    }
    close(alloc, reading)?;
    Ok(())
}

/// Reads a line that says this.
pub fn read_line(
    alloc: Global,
    reading: &mut Reading,
    line: &LogicalLine,
    statement: Statement,
) -> Result<(), SpiceFault>
    requires { HasNames reading.old }
    ensures read { IsSpiceAnswer (λ _. so_far reading.new) result
        (step (so_far reading.old) (logical_of line.now) (said statement)) }
    ensures named { OnOk result (HasNames reading.new) }
{
    match statement {
        Statement::Refused => Err(SpiceFault::Refused { line: line.number }),
        Statement::Continuation => Err(SpiceFault::BadLine { line: line.number }),
        Statement::Begin(words) => begin(alloc, reading, line, words),
        Statement::End(words) => end(alloc, reading, line, words.as_slice()),
        Statement::Instance(words) => read_instance(alloc, reading, line, words),
        Statement::Stop | Statement::Command => read_command(alloc, reading, line),
        Statement::Other => read_other(alloc, reading, line),
    }
}
