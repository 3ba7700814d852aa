//! The words of a read-only memory's data file, and its Verilog module: 16 words of two bits, and 16 of twelve.

ghost use Rattle.std.specs.Prelude.{◌≤◌, IfOk};

use or_geom::Name;
use rom_data::{RomFault, rom_verilog, rom_words};
use sram_plan::{Plan, plan, read_config};
use std::alloc::Global;
use std::process::Abort;
use std::test::Fail;

/// The remainder of each address by 4.
const REMAINDERS: [u8; 16] = [0, 1, 2, 3, 0, 1, 2, 3, 0, 1, 2, 3, 0, 1, 2, 3];

const MODULE: &str = "module demo(
    clk0, csb0, addr0, dout0
  );
  parameter DATA_WIDTH = 2;
  parameter ADDR_WIDTH = 4;
  parameter ROM_DEPTH = 1 << ADDR_WIDTH;
  input clk0;
  input csb0;
  input [ADDR_WIDTH-1:0] addr0;
  output [DATA_WIDTH-1:0] dout0;
  reg [DATA_WIDTH-1:0] dout0;
  reg csb0_reg;
  reg [ADDR_WIDTH-1:0] addr0_reg;
  reg [DATA_WIDTH-1:0] mem [0:ROM_DEPTH-1];
  initial begin
    mem[0] = 2'h0;
    mem[1] = 2'h1;
    mem[2] = 2'h2;
    mem[3] = 2'h3;
    mem[4] = 2'h0;
    mem[5] = 2'h1;
    mem[6] = 2'h2;
    mem[7] = 2'h3;
    mem[8] = 2'h0;
    mem[9] = 2'h1;
    mem[10] = 2'h2;
    mem[11] = 2'h3;
    mem[12] = 2'h0;
    mem[13] = 2'h1;
    mem[14] = 2'h2;
    mem[15] = 2'h3;
  end
  always @(posedge clk0) begin
    csb0_reg <= csb0;
    addr0_reg <= addr0;
  end
  always @(negedge clk0) begin
    if (!csb0_reg)
      dout0 <= mem[addr0_reg];
  end
endmodule
";

fn plan_of(alloc: Global, lines: &str) -> Result<Plan, Fail>
    ensures { IfOk result (λ p. p.word_size ≤ 64) }
{
    let text = format!(in alloc; "{lines}\ntech_name = \"demo_tech\"\noutput_name = \"demo\"\n")?;
    let config = read_config(alloc, text.as_bytes())?;
    match plan(&config) {
        Ok(plan) => Ok(plan),
        Err(_) => Err(Fail::from("no plan")),
    }
}

fn check_fault(rt: &impl Abort, alloc: Global, bytes: &[u8], fault: RomFault) -> Result<(), Fail> {
    let plan = plan_of(alloc, "word_size = 2\nnum_words = 16")?;
    assert_eq!(rt; rom_words(alloc, &plan, bytes).err(), Some(fault));
    Ok(())
}

#[test]
fn a_byte_for_each_word(rt: HostRuntime) -> Result<(), Fail> {
    let plan = plan_of(rt.alloc(), "word_size = 2\nnum_words = 16")?;
    let words = rom_words(rt.alloc(), &plan, &REMAINDERS)?;
    let expected: [u64; 16] = [0, 1, 2, 3, 0, 1, 2, 3, 0, 1, 2, 3, 0, 1, 2, 3];
    assert_eq!(rt; words.as_slice(), expected.as_slice());
    Ok(())
}

#[test]
fn a_byte_is_missing(rt: HostRuntime) -> Result<(), Fail> {
    let fault = RomFault::DataLength { length: 15 };
    check_fault(&rt, rt.alloc(), &REMAINDERS[..15], fault)
}

#[test]
fn a_word_has_too_many_bits(rt: HostRuntime) -> Result<(), Fail> {
    let mut bytes = REMAINDERS;
    bytes[9] = 4;
    check_fault(&rt, rt.alloc(), &bytes, RomFault::DataBits { word: 9 })
}

/// The Verilog of a read-only memory of this plan and these bytes.
fn module(alloc: Global, lines: &str, bytes: &[u8]) -> Result<Vec<u8>, Fail> {
    let plan = plan_of(alloc, lines)?;
    let words = rom_words(alloc, &plan, bytes)?;
    let name = Name::from_bytes(alloc, b"demo")?;
    Ok(rom_verilog(alloc, &plan, &name, &words)?)
}

/// 16 words of twelve bits, of which the first and the last aren't 0.
const WIDE: [u8; 32] = [
    0x34, 0x02, 0, 0, 0, 0, 0, 0, 0, 0, 0, 0, 0, 0, 0, 0, 0, 0, 0, 0, 0, 0, 0, 0, 0, 0, 0, 0, 0, 0,
    0xAB, 0x0F,
];

#[test]
fn two_bytes_for_each_word(rt: HostRuntime) -> Result<(), Fail> {
    let plan = plan_of(rt.alloc(), "word_size = 12\nnum_words = 16")?;
    let words = rom_words(rt.alloc(), &plan, &WIDE)?;
    let expected: [u64; 16] = [0x234, 0, 0, 0, 0, 0, 0, 0, 0, 0, 0, 0, 0, 0, 0, 0xFAB];
    assert_eq!(rt; words.as_slice(), expected.as_slice());
    Ok(())
}

#[test]
fn lines_of_wide_words(rt: HostRuntime) -> Result<(), Fail> {
    let text = module(rt.alloc(), "word_size = 12\nnum_words = 16", &WIDE)?;
    let text = str::from_utf8(&text)?;
    assert!(rt; text.contains("    mem[0] = 12'h234;\n    mem[1] = 12'h000;\n"));
    assert!(rt; text.contains("    mem[15] = 12'hfab;\n  end\n"));
    Ok(())
}

#[test]
fn a_whole_module(rt: HostRuntime) -> Result<(), Fail> {
    let text = module(rt.alloc(), "word_size = 2\nnum_words = 16", &REMAINDERS)?;
    assert_eq!(rt; str::from_utf8(&text)?, MODULE);
    Ok(())
}
