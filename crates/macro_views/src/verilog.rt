ghost use Rattle.std.specs.Prelude.{◌≡◌, ◌++◌, ◌<◌, ◌^◌, ◌+◌, ◌*◌, [], IfOk, OnOk, codes, flat_map, if◌then◌else◌};
ghost use Rattle.std.specs.List.{range_with_len};
ghost use Rattle.sram_netlist.specs.Numbers.{ArePlanNumbers};
ghost use Rattle.sram_plan.specs.PlanNumbers.{numbers_of};
ghost use Rattle.macro_views.specs.Lines.{text_of_lines};
ghost use Rattle.macro_views.specs.Verilog.{part_text, mask_text, guard_line, header_lines, parameter_line};
ghost use Rattle.macro_views.specs.Verilog.{mask_count_lines, size_lines, parameter_lines, declaration_lines};
ghost use Rattle.macro_views.specs.Verilog.{latch_lines, masked_lines, write_lines, falling_edge_lines, verilog_text};

use crate::line::{append, append_filled, append_number};
use or_geom::{Memory, Name};
use sram_plan::Plan;
use std::alloc::Global;

const COMMAND_INPUTS: &[u8] = b"  input clk0;
  input csb0;
  input web0;
";

const DATA_PORTS: &[u8] = b"  input [ADDR_WIDTH-1:0] addr0;
  input [DATA_WIDTH-1:0] din0;
  output [DATA_WIDTH-1:0] dout0;
  reg [DATA_WIDTH-1:0] dout0;
  reg csb0_reg;
  reg web0_reg;
";

const DATA_REGISTERS: &[u8] = b"  reg [ADDR_WIDTH-1:0] addr0_reg;
  reg [DATA_WIDTH-1:0] din0_reg;
  reg [DATA_WIDTH-1:0] mem [0:RAM_DEPTH-1];
";

const COMMAND_LATCHES: &[u8] = b"  always @(posedge clk0) begin
    csb0_reg <= csb0;
    web0_reg <= web0;
";

const DATA_LATCHES: &[u8] = b"    addr0_reg <= addr0;
    din0_reg <= din0;
  end
";

/// A write where words are written whole.
const WHOLE: &[u8] = b"    if (!csb0_reg && !web0_reg)
      mem[addr0_reg] <= din0_reg;
";

/// A read, and the module's end.
const READING: &[u8] = b"    if (!csb0_reg && web0_reg)
      dout0 <= mem[addr0_reg];
  end
endmodule
";

/// The Verilog module of a macro, by its template. It is meant as a memory that takes a command where its clock rises
/// and carries it out where the clock falls.
pub fn verilog_text(alloc: Global, plan: &Plan, name: &Name) -> Result<Vec<u8>, Memory>
    requires { ArePlanNumbers (numbers_of plan.now) }
    ensures { IfOk result (λ text. text.items ≡ verilog_text plan.now name.now) }
{
    let masked = 0 < plan.masks;
    let mut out = Vec::new(alloc);
    append_filled(&mut out, b"module ", name.as_bytes(), b"(\n")?;
    write_header(&mut out, masked)?;
    write_parameters(&mut out, plan)?;
    write_declarations(&mut out, masked)?;
    write_latches(&mut out, masked)?;
    write_falling_edge(&mut out, plan)?;
    Ok(out)
}

/// Adds a text where there are mask bits.
fn append_masked(out: &mut Vec<u8>, masked: bool, text: &[u8]) -> Result<(), Memory>
    ensures { OnOk result (out.new.items ≡ out.old.items ++ (if masked then text.now else [])) }
{
    if masked {
        append(out, text)?;
    }
    Ok(())
}

/// The ports' names.
fn write_header(out: &mut Vec<u8>, masked: bool) -> Result<(), Memory>
    ensures { OnOk result (out.new.items ≡ out.old.items ++ text_of_lines (header_lines masked)) }
{
    append(out, b"    clk0, csb0, web0, ")?;
    append_masked(out, masked, b"wmask0, ")?;
    append(out, b"addr0, din0, dout0\n  );\n")?;
    Ok(())
}

fn write_parameters(out: &mut Vec<u8>, plan: &Plan) -> Result<(), Memory>
    ensures { OnOk result (out.new.items ≡ out.old.items ++ text_of_lines (parameter_lines plan.now)) }
{
    write_mask_count(out, plan.masks)?;
    write_sizes(out, plan)?;
    Ok(())
}

fn write_mask_count(out: &mut Vec<u8>, masks: u32) -> Result<(), Memory>
    ensures { OnOk result (out.new.items ≡ out.old.items ++ text_of_lines (mask_count_lines masks)) }
{
    if 0 < masks {
        write_parameter(out, b"NUM_WMASKS", masks)?;
    }
    Ok(())
}

fn write_sizes(out: &mut Vec<u8>, plan: &Plan) -> Result<(), Memory>
    ensures { OnOk result (out.new.items ≡ out.old.items ++ text_of_lines (size_lines plan.now)) }
{
    write_parameter(out, b"DATA_WIDTH", plan.word_size)?;
    write_parameter(out, b"ADDR_WIDTH", plan.addr_bits)?;
    append(out, b"  parameter RAM_DEPTH = 1 << ADDR_WIDTH;\n")
}

fn write_parameter(out: &mut Vec<u8>, name: &[u8], value: u32) -> Result<(), Memory>
    ensures { OnOk result (out.new.items ≡ out.old.items ++ parameter_line name.now value ++ codes "\n") }
{
    append(out, b"  parameter ")?;
    append(out, name)?;
    append(out, b" = ")?;
    append_number(out, u64::from(value))?;
    append(out, b";\n")
}

/// The ports, the memory, and registers for what stands at the ports where the clock rises.
fn write_declarations(out: &mut Vec<u8>, masked: bool) -> Result<(), Memory>
    ensures { OnOk result (out.new.items ≡ out.old.items ++ text_of_lines (declaration_lines masked)) }
{
    append(out, COMMAND_INPUTS)?;
    append_masked(out, masked, b"  input [NUM_WMASKS-1:0] wmask0;\n")?;
    append(out, DATA_PORTS)?;
    append_masked(out, masked, b"  reg [NUM_WMASKS-1:0] wmask0_reg;\n")?;
    append(out, DATA_REGISTERS)?;
    Ok(())
}

fn write_latches(out: &mut Vec<u8>, masked: bool) -> Result<(), Memory>
    ensures { OnOk result (out.new.items ≡ out.old.items ++ text_of_lines (latch_lines masked)) }
{
    append(out, COMMAND_LATCHES)?;
    append_masked(out, masked, b"    wmask0_reg <= wmask0;\n")?;
    append(out, DATA_LATCHES)?;
    Ok(())
}

/// What a write and a read do.
fn write_falling_edge(out: &mut Vec<u8>, plan: &Plan) -> Result<(), Memory>
    requires { ArePlanNumbers (numbers_of plan.now) }
    ensures { OnOk result (out.new.items ≡ out.old.items ++ text_of_lines (falling_edge_lines plan.now)) }
{
    append(out, b"  always @(negedge clk0) begin\n")?;
    write_writing(out, plan)?;
    append(out, READING)?;
    Ok(())
}

fn write_writing(out: &mut Vec<u8>, plan: &Plan) -> Result<(), Memory>
    requires { ArePlanNumbers (numbers_of plan.now) }
    ensures { OnOk result (out.new.items ≡ out.old.items ++ text_of_lines (write_lines plan.now)) }
{
    if 0 < plan.masks {
        return write_masked(out, plan);
    }
    append(out, WHOLE)
}

fn write_masked(out: &mut Vec<u8>, plan: &Plan) -> Result<(), Memory>
    requires { ArePlanNumbers (numbers_of plan.now) }
    ensures { OnOk result (out.new.items ≡ out.old.items ++ text_of_lines (masked_lines plan.now)) }
{
    append(out, b"    if (!csb0_reg && !web0_reg) begin\n")?;
    write_masks(out, plan)?;
    append(out, b"    end\n")?;
    Ok(())
}

/// What each mask bit lets a write change.
fn write_masks(out: &mut Vec<u8>, plan: &Plan) -> Result<(), Memory>
    requires { ArePlanNumbers (numbers_of plan.now) }
    ensures { OnOk result (out.new.items ≡ out.old.items
        ++ flat_map (mask_text plan.now.write_size) (range_with_len 0 plan.now.masks)) }
{
    for mask in 0..plan.masks {
        write_mask(out, plan.write_size, mask)?;
    }
    Ok(())
}

fn write_mask(out: &mut Vec<u8>, write_size: u32, mask: u32) -> Result<(), Memory>
    requires some { 0 < write_size }
    requires fits { (mask + 1) * write_size < 2 ^ 32 }
    ensures { OnOk result (out.new.items ≡ out.old.items ++ mask_text write_size mask) }
{
    let low = mask * write_size;
    let high = low + write_size - 1;
    write_guard(out, mask)?;
    append(out, b"        mem[addr0_reg]")?;
    write_part(out, high, low)?;
    append(out, b" <= din0_reg")?;
    write_part(out, high, low)?;
    append(out, b";\n")?;
    Ok(())
}

fn write_guard(out: &mut Vec<u8>, mask: u32) -> Result<(), Memory>
    ensures { OnOk result (out.new.items ≡ out.old.items ++ (guard_line mask ++ codes "\n")) }
{
    append(out, b"      if (wmask0_reg[")?;
    append_number(out, u64::from(mask))?;
    append(out, b"])\n")?;
    Ok(())
}

/// A part of a word.
fn write_part(out: &mut Vec<u8>, high: u32, low: u32) -> Result<(), Memory>
    ensures { OnOk result (out.new.items ≡ out.old.items ++ part_text high low) }
{
    append(out, b"[")?;
    append_number(out, u64::from(high))?;
    append(out, b":")?;
    append_number(out, u64::from(low))?;
    append(out, b"]")
}
