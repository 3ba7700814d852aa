ghost use Rattle.std.specs.Prelude.{◌≡◌, ◌∷◌, ◌++◌, [], List, ℕ, IfOk, OnOk, flat_map};
ghost use Rattle.spice_text.specs.Views.{ending};
ghost use Rattle.spice_text.specs.WrittenText.{instance_text, begin_text, end_text, subckt_text, deck_text};
ghost use Rattle.spice_text.specs.Writable.{AreWritable};
ghost use Rattle.spice_text.specs.ReadBack.{IsReadAs};

use crate::line_writer::LineWriter;
use netlist::{Instance, Subckt};
use or_geom::{Memory, Name};
use std::alloc::Global;

/// A line has so many words, and what is left stands on lines that begin with `+ `.
const WORDS_ON_A_LINE: u8 = 12;

fn write_word(writer: &mut LineWriter, word: &[u8]) -> Result<(), Memory>
    ensures { OnOk result ((rest : List (List ℕ)) → ending writer.new rest ≡ ending writer.old (word.now ∷ rest)) }
{
    if writer.count == 0 {
        writer.count = 1;
    } else if writer.count == WORDS_ON_A_LINE {
        writer.text.extend_from_slice(b"\n+ ".as_slice())?;
        writer.count = 1;
    } else {
        writer.text.push(b' ')?;
        writer.count += 1;
    }
    writer.text.extend_from_slice(word)?;
    Ok(())
}

fn write_words(writer: &mut LineWriter, words: &[Name]) -> Result<(), Memory>
    ensures { OnOk result ((rest : List (List ℕ)) → ending writer.new rest ≡ ending writer.old (words.now ++ rest)) }
{
    for word in words {
        write_word(writer, word.as_bytes())?;
    }
    Ok(())
}

fn end_line(writer: &mut LineWriter) -> Result<(), Memory>
    ensures text { OnOk result (writer.new.text.items ≡ ending writer.old []) }
    ensures begun { OnOk result (writer.new.count ≡ 0) }
{
    writer.text.push(b'\n')?;
    writer.count = 0;
    Ok(())
}

fn write_instance(writer: &mut LineWriter, instance: &Instance) -> Result<(), Memory>
    requires { writer.old.count ≡ 0 }
    ensures text { OnOk result (writer.new.text.items ≡ writer.old.text.items ++ instance_text instance.now) }
    ensures begun { OnOk result (writer.new.count ≡ 0) }
{
    write_word(writer, instance.name.as_bytes())?;
    write_words(writer, instance.nodes.as_slice())?;
    write_word(writer, instance.of.as_bytes())?;
    end_line(writer)?;
    Ok(())
}

fn write_instances(writer: &mut LineWriter, instances: &[Instance]) -> Result<(), Memory>
    requires { writer.old.count ≡ 0 }
    ensures text { OnOk result (writer.new.text.items ≡ writer.old.text.items ++ flat_map instance_text instances.now) }
    ensures begun { OnOk result (writer.new.count ≡ 0) }
{
    for instance in instances {
        write_instance(writer, instance)?;
    }
    Ok(())
}

fn write_begin(writer: &mut LineWriter, subckt: &Subckt) -> Result<(), Memory>
    requires { writer.old.count ≡ 0 }
    ensures text { OnOk result (writer.new.text.items ≡ writer.old.text.items ++ begin_text subckt.now) }
    ensures begun { OnOk result (writer.new.count ≡ 0) }
{
    write_word(writer, b".SUBCKT".as_slice())?;
    write_word(writer, subckt.name.as_bytes())?;
    write_words(writer, subckt.ports.as_slice())?;
    end_line(writer)?;
    Ok(())
}

fn write_end(writer: &mut LineWriter, subckt: &Subckt) -> Result<(), Memory>
    requires { writer.old.count ≡ 0 }
    ensures text { OnOk result (writer.new.text.items ≡ writer.old.text.items ++ end_text subckt.now) }
    ensures begun { OnOk result (writer.new.count ≡ 0) }
{
    write_word(writer, b".ENDS".as_slice())?;
    write_word(writer, subckt.name.as_bytes())?;
    end_line(writer)?;
    Ok(())
}

fn write_subckt(writer: &mut LineWriter, subckt: &Subckt) -> Result<(), Memory>
    requires { writer.old.count ≡ 0 }
    ensures text { OnOk result (writer.new.text.items ≡ writer.old.text.items ++ subckt_text subckt.now) }
    ensures begun { OnOk result (writer.new.count ≡ 0) }
{
    write_begin(writer, subckt)?;
    write_instances(writer, subckt.instances.as_slice())?;
    write_end(writer, subckt)
}

/// The text of subcircuits: a line `.SUBCKT` with the name and the ports, a line for each instance with its name, its
/// nodes and the name of its subcircuit, and a line `.ENDS` with the name. Names stand as given, one space apart. A
/// line has twelve words, and each further twelve, or what is left, stand on a line that begins with `+ `.
/// `are_writable` tells whether it may be called.
pub fn write_spice(alloc: Global, subckts: &[Subckt]) -> Result<Vec<u8>, Memory>
    requires { AreWritable subckts.now }
    ensures text { IfOk result (λ text. text.items ≡ deck_text subckts.now) }
    // What is written is read as the same subcircuits, with names in lower case.
    ensures read { IfOk result (λ text. IsReadAs subckts.now text.items) }
{
    let mut writer = LineWriter {
        text: Vec::new(alloc),
        count: 0,
    };
    for subckt in subckts {
        write_subckt(&mut writer, subckt)?;
    }
    Ok(writer.text)
}
