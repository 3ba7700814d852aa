ghost use Rattle.std.specs.Prelude.{◌≡◌, ◌++◌, ◌≤◌, ◌<◌, length, IfOk, OnOk, codes};
ghost use Rattle.macro_views.specs.Lines.{text_of_lines};
ghost use Rattle.macro_views.specs.Verilog.{parameter_line};
ghost use Rattle.rom_data.specs.Hex.{hex_digit_count};
ghost use Rattle.rom_data.specs.Words.{AreRomWords};
ghost use Rattle.rom_data.specs.RomVerilog.{rom_size_lines, content_line, content_lines, initial_lines, rom_text};

use crate::line::{append, append_hex, append_number};
use or_geom::{Memory, Name};
use sram_plan::Plan;
use std::alloc::Global;

const HEADER: &[u8] = b"    clk0, csb0, addr0, dout0
  );
";

/// The ports, registers for what stands at them where the clock rises, and the memory.
const DECLARATIONS: &[u8] = b"  input clk0;
  input csb0;
  input [ADDR_WIDTH-1:0] addr0;
  output [DATA_WIDTH-1:0] dout0;
  reg [DATA_WIDTH-1:0] dout0;
  reg csb0_reg;
  reg [ADDR_WIDTH-1:0] addr0_reg;
  reg [DATA_WIDTH-1:0] mem [0:ROM_DEPTH-1];
";

/// What is taken where the clock rises, a read where it falls, and the module's end.
const CLOCK_EDGES: &[u8] = b"  always @(posedge clk0) begin
    csb0_reg <= csb0;
    addr0_reg <= addr0;
  end
  always @(negedge clk0) begin
    if (!csb0_reg)
      dout0 <= mem[addr0_reg];
  end
endmodule
";

/// The Verilog module of a read-only macro, by its template. It is meant as a memory that holds these words, by
/// address, takes a command where its clock rises and answers where the clock falls.
pub fn rom_verilog(
    alloc: Global,
    plan: &Plan,
    name: &Name,
    words: &[u64],
) -> Result<Vec<u8>, Memory>
    requires bits { plan.now.word_size ≤ 64 }
    requires words { AreRomWords plan.now words.now }
    ensures { IfOk result (λ text. text.items ≡ rom_text plan.now name.now words.now) }
{
    let mut out = Vec::new(alloc);
    append(&mut out, b"module ")?;
    append(&mut out, name.as_bytes())?;
    append(&mut out, b"(\n")?;
    append(&mut out, HEADER)?;
    write_sizes(&mut out, plan)?;
    append(&mut out, DECLARATIONS)?;
    write_initial(&mut out, plan, words)?;
    append(&mut out, CLOCK_EDGES)?;
    Ok(out)
}

fn write_sizes(out: &mut Vec<u8>, plan: &Plan) -> Result<(), Memory>
    ensures { OnOk result (out.new.items ≡ out.old.items ++ text_of_lines (rom_size_lines plan.now)) }
{
    write_parameter(out, b"DATA_WIDTH", plan.word_size)?;
    write_parameter(out, b"ADDR_WIDTH", plan.addr_bits)?;
    append(out, b"  parameter ROM_DEPTH = 1 << ADDR_WIDTH;\n")
}

fn write_parameter(out: &mut Vec<u8>, name: &[u8], value: u32) -> Result<(), Memory>
    ensures { OnOk result (out.new.items ≡ out.old.items ++ parameter_line name.now value ++ codes "\n") }
{
    append(out, b"  parameter ")?;
    append(out, name)?;
    append(out, b" = ")?;
    append_number(out, u64::from(value))?;
    append(out, b";\n")
}

/// What the memory holds.
fn write_initial(out: &mut Vec<u8>, plan: &Plan, words: &[u64]) -> Result<(), Memory>
    requires bits { plan.now.word_size ≤ 64 }
    requires count { length words.now ≡ plan.now.num_words }
    ensures { OnOk result (out.new.items ≡ out.old.items ++ text_of_lines (initial_lines plan.now words.now)) }
{
    append(out, b"  initial begin\n")?;
    write_contents(out, plan, words)?;
    append(out, b"  end\n")?;
    Ok(())
}

/// A line for each address.
fn write_contents(out: &mut Vec<u8>, plan: &Plan, words: &[u64]) -> Result<(), Memory>
    requires bits { plan.now.word_size ≤ 64 }
    requires count { length words.now ≡ plan.now.num_words }
    ensures { OnOk result (out.new.items ≡ out.old.items ++ text_of_lines (content_lines plan.now words.now)) }
{
    for address in 0..words.len() {
        write_content(out, plan.word_size, address as u64, words[address])?;
    }
    Ok(())
}

fn write_content(out: &mut Vec<u8>, word_size: u32, address: u64, word: u64) -> Result<(), Memory>
    requires { word_size ≤ 64 }
    ensures { OnOk result (out.new.items ≡ out.old.items ++ (content_line word_size address word ++ codes "\n")) }
{
    append(out, b"    mem[")?;
    append_number(out, address)?;
    append(out, b"] = ")?;
    append_number(out, u64::from(word_size))?;
    append(out, b"'h")?;
    append_hex(out, hex_digit_count(word_size), word)?;
    append(out, b";\n")?;
    Ok(())
}

/// How many digits of base 16 a word of so many bits has.
fn hex_digit_count(word_size: u32) -> u32
    requires { word_size ≤ 64 }
    ensures { result ≡ hex_digit_count word_size }
{
    (word_size + 3) / 4
}
