ghost use Rattle.std.specs.Prelude.{◌≡◌, ◌≤◌, ◌↔◌, pos, length, Contains, Some, None, IfOk, IfErr, IsTrue};
ghost use Rattle.std.specs.List.{AllByRecursion};
ghost use Rattle.std.specs.List.Sorted.{IsStrictlySortedBy};
ghost use Rattle.or_geom.specs.ShapeOrder.{shape_order};
ghost use Rattle.gds_library.specs.Writable.{IsWritable};
ghost use Rattle.cell_builder.specs.Finish.{IsLibraryOf};
ghost use Rattle.leaf_tables.specs.Kits.{IsKit};
ghost use Rattle.tech_rules.specs.Facts.{IsWire};
ghost use Rattle.port_lists.specs.Cells.{cell_in};
ghost use Rattle.port_lists.specs.Held.{held_of};
ghost use Rattle.sram_deck.specs.Deck.{web_ports};
ghost use Rattle.sram_netlist.specs.BitCells.{BitCells};
ghost use Rattle.sram_netlist.specs.Numbers.{ArePlanNumbers};
ghost use Rattle.sram_plan.specs.Config.{is_output_name};
ghost use Rattle.sram_plan.specs.PlanNumbers.{numbers_of, organization};
ghost use Rattle.control_logic.specs.LogicPart.{IsLogicRow};
ghost use Rattle.port_data.specs.Column.{AreWideSlices, IsColumnOf};
ghost use Rattle.port_data.specs.DataPart.{IsDataRefused};
ghost use Rattle.floorplan.specs.LayoutOfKit.{layout_kit};
ghost use Rattle.floorplan.specs.Sides.{AreLeafSides, AreSidesOf};
ghost use Rattle.floorplan.specs.FloorplanNumbers.{IsNearFloorplan};
ghost use Rattle.macro_bounds.specs.Writable.{IsWritableDrawing};
ghost use Rattle.port_lists.specs.Held.Held.{Stored};
ghost use Rattle.sram_macro.specs.Leaves.{IsHeld};
ghost use Rattle.sram_macro.specs.Names.{first_taken};
ghost use Rattle.sram_macro.specs.Signals.{signal_names, input_count, signals_on_tracks, IsWritablePin};
ghost use Rattle.sram_macro.specs.Library.{macro_list, drawing_with, AreOnLayers, HaveTexts};
ghost use Rattle.sram_macro.specs.Layout.{IsMainRouted};
ghost use Rattle.sram_macro.specs.Memory.{IsMacroMemory};
ghost use Rattle.sram_macro.specs.Macro.{IsMacro, IsMacroFault, IsLaidOut, AreWiresOf, macro_bits, names_of_macro};

use crate::deck::macro_deck;
use crate::layout::{Layout, lay_out, top_wires};
use crate::library::{DrawingFrame, Wires, library};
use crate::names::refuse_taken_names;
use crate::signals::{macro_labels, signal_names, signal_pins};
use crate::view::macro_view;
use channel_router::Routed;
use control_logic::{LogicRow, logic_row};
use gds_library::Library;
use leaf_tables::{Kit, PartFault, wire_of};
use macro_bounds::{
    floorplans_are_near, macro_libraries_are_writable, near_shapes_are_listed,
    near_wires_are_writable, output_names_are_short, routed_shapes_are_near, supply_wires_are_near,
};
use memory_laws::{runs_answer_numbers, runs_exist, runs_obey};
use netlist::Deck;
use or_geom::{Memory, Name, Shape, sort_distinct};
use port_data::{channel, refuse_narrow_slices};
use port_lists::Contents;
use sram_plan::{Abstract, Plan, SignalPin, inputs_of as data_inputs};
use sram_rows::rows_equal_netlist;
use std::alloc::Global;
use tech_rules::Wire;

/// A macro: its library, the subcircuits behind those of the leaf cells, its abstract view, and how many tracks its
/// main channel has.
#[derive(Debug, Drop)]
pub struct Macro {
    pub lib: Library,
    pub deck: Deck,
    pub view: Abstract,
    pub tracks: u32,
}

/// The signal ports of the macro, each on its track of the main channel, which begins at `low`.
fn signals_of(
    alloc: Global,
    kit: &Kit,
    plan: &Plan,
    wire: &Wire,
    low: u32,
    main: &Routed,
) -> Result<Vec<SignalPin>, Memory>
    requires plan { ArePlanNumbers (numbers_of plan.now) }
    requires wire { IsWire kit.now.tech.layers wire.now }
    requires low { low ≤ 65536 }
    requires main { IsMainRouted (organization plan.now) (layout_kit kit.now) wire.now main.now }
    ensures are { IfOk result (λ pins. pins.items
        ≡ signals_on_tracks wire.now (pos low) (input_count (organization plan.now))
        (signal_names (organization plan.now)) main.now.track) }
    ensures writable { IfOk result (λ pins. AllByRecursion IsWritablePin pins.items) }
{
    let names = signal_names(alloc, plan)?;
    let inputs = inputs_of(plan);
    Ok(signal_pins(
        alloc,
        names.as_slice(),
        inputs,
        low,
        main.track.as_slice(),
        wire,
    )?)
}

/// How many signals go into the macro.
fn inputs_of(plan: &Plan) -> usize
    requires { ArePlanNumbers (numbers_of plan.now) }
    ensures { result ≡ input_count (organization plan.now) }
{
    2 + web_count(plan) + plan.masks as usize + plan.addr_bits as usize + data_inputs(plan) as usize
}

/// How many of them tell reads from writes: one, or none where nothing is written.
fn web_count(plan: &Plan) -> usize
    ensures { result ≡ length (web_ports plan.now.write_size) }
{
    if plan.write_size == 0 { 0 } else { 1 }
}

/// The shapes in order, each once.
fn in_order(shapes: Vec<Shape>) -> Vec<Shape>
    ensures rises { IsStrictlySortedBy shape_order result.items }
    ensures same { (s : Shape) → Contains result.items s ↔ Contains shapes.items s }
{
    let mut list = shapes;
    sort_distinct(&mut list);
    list
}

/// The wires of a bank, and the wires and labels of the macro.
fn wires_of(
    alloc: Global,
    kit: &Kit,
    plan: &Plan,
    wire: &Wire,
    layout: Layout,
    signals: &[SignalPin],
) -> Result<Wires, Memory>
    requires kit { IsKit kit.now }
    requires plan { ArePlanNumbers (numbers_of plan.now) }
    requires wired { kit.now.tech.wire ≡ Some wire.now }
    requires wire { IsWire kit.now.tech.layers wire.now }
    requires layout { IsLaidOut kit.now (organization plan.now) layout }
    requires signals { AllByRecursion IsWritablePin signals.now }
    ensures are { IfOk result (AreWiresOf (organization plan.now) (layout_kit kit.now) wire.now layout signals.now) }
    ensures layers { IfOk result (AreOnLayers kit.now.tech.layers) }
    ensures writable { IfOk result (λ wires. (bits : BitCells) → HaveTexts bits
        → IsWritableDrawing (drawing_with bits layout.floorplan wires)) }
{
    // That all wires fit 32 bits and are on layers follows by these laws.
    routed_shapes_are_near();
    supply_wires_are_near();
    floorplans_are_near();
    near_wires_are_writable();
    near_shapes_are_listed();
    let Layout {
        sides,
        floorplan,
        ends,
        bank,
        main,
    } = layout;
    let labels = macro_labels(alloc, wire, &ends, signals)?;
    let drawn = top_wires(plan, wire, &sides, &floorplan, &ends, main)?;
    let top = in_order(drawn);
    Ok(Wires { bank, top, labels })
}

/// The macro's library, which can be written.
fn written_library(
    alloc: Global,
    kit: &Kit,
    plan: &Plan,
    name: &Name,
    contents: Contents<'_>,
    frame: &DrawingFrame,
    wires: Wires,
) -> Result<Library, Memory>
    requires kit { IsKit kit.now }
    requires plan { ArePlanNumbers (numbers_of plan.now) }
    requires name { IsTrue (is_output_name name.now) }
    requires contents { IsHeld kit.now plan.now (held_of contents) }
    requires free { first_taken kit.now (names_of_macro kit.now plan.now (held_of contents) name.now) ≡ None }
    requires sides { AreLeafSides frame.now.sides }
    requires of { AreSidesOf (organization plan.now) (layout_kit kit.now) frame.now.sides }
    requires near { IsNearFloorplan frame.now.floorplan }
    requires row { IsLogicRow (organization plan.now) (cell_in kit.now.tech.roles) frame.now.row }
    requires layers { AreOnLayers kit.now.tech.layers wires }
    requires drawing { IsWritableDrawing
        (drawing_with (macro_bits kit.now plan.now (held_of contents)) frame.now.floorplan wires) }
    ensures library { IfOk result (IsLibraryOf kit.now.tech.layers
        (macro_list kit.now (organization plan.now) name.now
        (drawing_with (macro_bits kit.now plan.now (held_of contents.entry)) frame.now.floorplan wires)) name.now) }
    ensures named { IfOk result (λ lib. lib.name ≡ name.now) }
    ensures writable { IfOk result IsWritable }
{
    // That the library can be written follows by these laws.
    macro_libraries_are_writable();
    output_names_are_short();
    Ok(library(alloc, kit, plan, name, contents, frame, wires)?)
}

/// The macro that is laid out so, with this logic row.
fn macro_of(
    alloc: Global,
    kit: &Kit,
    plan: &Plan,
    name: &Name,
    contents: Contents<'_>,
    row: LogicRow,
    layout: Layout,
) -> Result<Macro, Memory>
    requires kit { IsKit kit.now }
    requires plan { ArePlanNumbers (numbers_of plan.now) }
    requires name { IsTrue (is_output_name name.now) }
    requires contents { IsHeld kit.now plan.now (held_of contents) }
    requires free { first_taken kit.now (names_of_macro kit.now plan.now (held_of contents) name.now) ≡ None }
    requires wide { AreWideSlices (organization plan.now) (layout_kit kit.now) }
    requires row { IsLogicRow (organization plan.now) (cell_in kit.now.tech.roles) row }
    requires layout { IsLaidOut kit.now (organization plan.now) layout }
    ensures { IfOk result (IsMacro kit.now plan.now (held_of contents.entry) name.now) }
{
    let wire = wire_of(kit);
    let tracks = layout.main.tracks;
    let ends = layout.ends;
    let frame = DrawingFrame {
        sides: layout.sides,
        floorplan: layout.floorplan,
        row,
    };
    let low = frame.sides.inv_height;
    let signals = signals_of(alloc, kit, plan, wire, low, &layout.main)?;
    let wires = wires_of(alloc, kit, plan, wire, layout, &signals)?;
    let layers = kit.tech.layers.as_slice();
    let lib = written_library(alloc, kit, plan, name, contents, &frame, wires)?;
    let row = frame.row;
    Ok(Macro {
        lib,
        deck: macro_deck(alloc, kit, plan, name, contents, row.gates)?,
        view: macro_view(alloc, layers, name, wire, &ends, signals)?,
        tracks,
    })
}

/// The column channel of the macro's banks, where its slices are wide enough.
fn column_of(alloc: Global, kit: &Kit, plan: &Plan) -> Result<Routed, PartFault>
    requires kit { IsKit kit.now }
    requires plan { ArePlanNumbers (numbers_of plan.now) }
    ensures wide { IfOk result (λ _. AreWideSlices (organization plan.now) (layout_kit kit.now)) }
    ensures column { IfOk result (IsColumnOf kit.now (organization plan.now)) }
    ensures fault { IfErr result (IsDataRefused kit.now (organization plan.now)) }
{
    refuse_narrow_slices(alloc, kit, plan)?;
    channel(alloc, kit, plan)
}

/// Assembles the macro of this name from leaf cells. `NameTaken`: a structure or subcircuit of the leaf cells has the
/// name of one of the macro's; `SliceTooNarrow`: the sense or the write cell is wider than the columns of a bit;
/// `Close`: pins of a channel are nearer to each other than the pitch, first of a bank's and then of the main channel;
/// `TapsClose`: taps of a bank's rails are. x and y of the first channel's pins count from the left end of the columns,
/// those of taps from the lower edge of the bank, and those of the main channel in the macro. Where the plan writes
/// something, the netlist of the macro is a memory (clause `memory`).
pub fn assemble(alloc: Global, kit: &Kit, plan: &Plan, name: &Name) -> Result<Macro, PartFault>
    requires kit { IsKit kit.now }
    requires plan { ArePlanNumbers (numbers_of plan.now) }
    requires name { IsTrue (is_output_name name.now) }
    ensures ok { IfOk result (IsMacro kit.now plan.now Stored name.now) }
    // Its netlist is the reference netlist, and that is a memory if the plan writes something.
    ensures memory { IfOk result (IsMacroMemory kit.now plan.now name.now) }
    ensures fault { IfErr result (IsMacroFault kit.now plan.now Stored name.now) }
{
    let made = assemble_with(alloc, kit, plan, name, Contents::Stored)?;
    is_memory(kit, plan, name, &made);
    Ok(made)
}

/// The macro's netlist is a memory. It does nothing when the program runs: so says its contract.
fn is_memory(_kit: &Kit, _plan: &Plan, _name: &Name, _made: &Macro)
    requires plan { ArePlanNumbers (numbers_of _plan.now) }
    requires made { IsMacro _kit.now _plan.now Stored _name.now _made.now }
    ensures { IsMacroMemory _kit.now _plan.now _name.now _made.now }
{
    rows_equal_netlist();
    runs_exist();
    runs_answer_numbers();
    runs_obey();
}

/// Assembles a macro that holds these contents, refused as by `assemble`. A plan that writes nothing has no write
/// cells, so that none is too wide.
pub fn assemble_with(
    alloc: Global,
    kit: &Kit,
    plan: &Plan,
    name: &Name,
    contents: Contents<'_>,
) -> Result<Macro, PartFault>
    requires kit { IsKit kit.now }
    requires plan { ArePlanNumbers (numbers_of plan.now) }
    requires name { IsTrue (is_output_name name.now) }
    requires contents { IsHeld kit.now plan.now (held_of contents) }
    ensures ok { IfOk result (IsMacro kit.now plan.now (held_of contents.entry) name.now) }
    ensures fault { IfErr result (IsMacroFault kit.now plan.now (held_of contents.entry) name.now) }
{
    refuse_taken_names(alloc, kit, plan, name, contents)?;
    let column = column_of(alloc, kit, plan)?;
    let row = logic_row(alloc, kit, plan)?;
    let layout = lay_out(alloc, kit, plan, &row, &column)?;
    Ok(macro_of(alloc, kit, plan, name, contents, row, layout)?)
}
