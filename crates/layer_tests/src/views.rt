//! LEF and Verilog: a memory of 16 words of two bits in the demonstration kit, and one of 16 words of four bits whose
//! writes are masked.

ghost use Rattle.std.specs.Prelude.{◌≡◌, ◌^◌, pos, ◌≤ℤ◌, length, All, IfOk};
ghost use Rattle.sram_netlist.specs.Numbers.{ArePlanNumbers};
ghost use Rattle.sram_plan.specs.PlanNumbers.{numbers_of};
ghost use Rattle.sram_plan.specs.View.{IsLength, IsView};
ghost use Rattle.sram_plan.specs.declared.view.SignalPin.{SignalPin};

use macro_views::{lef_text, verilog_text};
use or_geom::{Items, Name};
use sram_plan::{Abstract, Plan, SignalPin, plan, read_config};
use std::alloc::Global;
use std::process::Abort;
use std::test::Fail;

/// Each of the lines stands in the text.
fn check_lines(rt: &impl Abort, text: &[u8], lines: &[&str]) -> Result<(), Fail> {
    let text = str::from_utf8(text)?;
    for line in lines {
        assert!(rt; text.lines().any(|l| l == *line), "no line {line}");
    }
    Ok(())
}

/// In each of the parts the lines stand in the text one after another.
fn check_parts(rt: &impl Abort, text: &[u8], parts: &[&str]) -> Result<(), Fail> {
    let text = str::from_utf8(text)?;
    for lines in parts {
        assert!(rt; text.contains(*lines), "not in the text: {lines}");
    }
    Ok(())
}

fn metals(alloc: Global) -> Result<Items<Name>, Fail>
    ensures { IfOk result (λ m. length m ≡ 4) }
{
    let mut metals = Items::new(alloc);
    metals.push(Name::from_bytes(alloc, b"m1")?)?;
    metals.push(Name::from_bytes(alloc, b"m2")?)?;
    metals.push(Name::from_bytes(alloc, b"m3")?)?;
    metals.push(Name::from_bytes(alloc, b"m4")?)?;
    Ok(metals)
}

fn signals(alloc: Global) -> Result<Items<SignalPin>, Fail>
    ensures { IfOk result (λ s. All (λ (pin : SignalPin). IsLength pin.y) s) }
{
    let mut signals = Items::new(alloc);
    signals.push(SignalPin {
        name: Name::from_bytes(alloc, b"clk0")?,
        y: 36,
        output: false,
        clock: true,
    })?;
    signals.push(SignalPin {
        name: Name::from_bytes(alloc, b"csb0")?,
        y: 44,
        output: false,
        clock: false,
    })?;
    signals.push(SignalPin {
        name: Name::from_bytes(alloc, b"dout0[0]")?,
        y: 108,
        output: true,
        clock: false,
    })?;
    Ok(signals)
}

fn demo_view(alloc: Global) -> Result<Abstract, Fail>
    ensures { IfOk result IsView }
{
    Ok(Abstract {
        name: Name::from_bytes(alloc, b"demo")?,
        width: 844,
        height: 880,
        pitch: 8,
        supply_x: 828,
        space: 4,
        wire: 4,
        metals: metals(alloc)?,
        signals: signals(alloc)?,
    })
}

/// The LEF text of the view.
fn demo_lef(alloc: Global) -> Result<Vec<u8>, Fail> {
    let view = demo_view(alloc)?;
    Ok(lef_text(alloc, &view)?)
}

#[test]
fn sizes_supplies_and_obstructions(rt: HostRuntime) -> Result<(), Fail> {
    let text = demo_lef(rt.alloc())?;
    let parts = [
        "MACRO demo\n  CLASS BLOCK ;\n  SIZE 0.844 BY 0.880 ;\n",
        "  PIN vdd\n    DIRECTION INOUT ;\n    USE POWER ;\n    PORT\n      LAYER m2 ;\n        RECT 0.828 0.000 0.832 0.880 ;\n",
        "  PIN gnd\n    DIRECTION INOUT ;\n    USE GROUND ;\n    PORT\n      LAYER m2 ;\n        RECT 0.836 0.000 0.840 0.880 ;\n",
        "    LAYER m2 ;\n      RECT 0.000 0.000 0.824 0.880 ;\n",
        "    LAYER m3 ;\n      RECT 0.008 0.000 0.844 0.880 ;\n",
    ];
    check_parts(&rt, &text, &parts)
}

#[test]
fn signals_in_order(rt: HostRuntime) -> Result<(), Fail> {
    let text = demo_lef(rt.alloc())?;
    let parts = [
        "  PIN clk0\n    DIRECTION INPUT ;\n    USE CLOCK ;\n    PORT\n      LAYER m3 ;\n        RECT 0.000 0.036 0.008 0.040 ;\n    END\n  END clk0\n  PIN csb0\n    DIRECTION INPUT ;\n    USE SIGNAL ;\n",
        "  PIN dout0[0]\n    DIRECTION OUTPUT ;\n    USE SIGNAL ;\n    PORT\n      LAYER m3 ;\n        RECT 0.000 0.108 0.008 0.112 ;\n    END\n  END dout0[0]\n  PIN vdd\n",
    ];
    check_parts(&rt, &text, &parts)
}

fn plan_of(alloc: Global, lines: &str) -> Result<Plan, Fail>
    ensures { IfOk result (λ p. ArePlanNumbers (numbers_of p)) }
{
    let text = format!(in alloc; "{lines}\ntech_name = \"demo_tech\"\noutput_name = \"demo\"\n")?;
    let config = read_config(alloc, text.as_bytes())?;
    match plan(&config) {
        Ok(plan) => Ok(plan),
        Err(_) => Err(Fail::from("no plan")),
    }
}

/// The Verilog text of a plan.
fn module(alloc: Global, lines: &str) -> Result<Vec<u8>, Fail> {
    let plan = plan_of(alloc, lines)?;
    let name = Name::from_bytes(alloc, b"demo")?;
    Ok(verilog_text(alloc, &plan, &name)?)
}

#[test]
fn a_module_with_whole_words(rt: HostRuntime) -> Result<(), Fail> {
    let text = module(rt.alloc(), "word_size = 2\nnum_words = 16")?;
    let lines = [
        "module demo(",
        "    clk0, csb0, web0, addr0, din0, dout0",
        "  parameter DATA_WIDTH = 2;",
        "  parameter ADDR_WIDTH = 4;",
        "      mem[addr0_reg] <= din0_reg;",
    ];
    check_lines(&rt, &text, &lines)
}

#[test]
fn a_module_with_masked_writes(rt: HostRuntime) -> Result<(), Fail> {
    let text = module(rt.alloc(), "word_size = 4\nwrite_size = 2\nnum_words = 16")?;
    let parts = [
        "  parameter NUM_WMASKS = 2;\n  parameter DATA_WIDTH = 4;\n",
        "    if (!csb0_reg && !web0_reg) begin\n      if (wmask0_reg[0])\n        mem[addr0_reg][1:0] <= din0_reg[1:0];\n      if (wmask0_reg[1])\n        mem[addr0_reg][3:2] <= din0_reg[3:2];\n    end\n",
    ];
    check_parts(&rt, &text, &parts)
}
