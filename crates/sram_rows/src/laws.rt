ghost use Rattle.sram_rows.specs.Rows.{RowsEqualNetlist, SomeAreLeavesFor};
ghost use Rattle.sram_rows.specs.Writing.{CellsAreNames, WrittenSubcktsAreRead, WrittenSubcktsAreWritable};

/// Flat rows of the written subcircuits, behind those of the leaf cells, have the paths, cells and pins of the
/// reference netlist, and one number exactly where it has one net; and they are refused for want of memory alone.
pub fn rows_equal_netlist()
    ensures { RowsEqualNetlist }
{}

/// There are a plan and leaf cells that meet what `rows_equal_netlist` asks of them.
pub fn some_are_leaves_for()
    ensures { SomeAreLeavesFor }
{}

/// The written subcircuits can be written, where the names of the cells and the output name can.
pub fn written_subckts_are_writable()
    ensures { WrittenSubcktsAreWritable }
{}

/// The written subcircuits, behind the bytes of the leaf cells, are read back with names in lower case.
pub fn written_subckts_are_read()
    ensures { WrittenSubcktsAreRead }
{}

/// The name of a leaf cell that is among subcircuits that were read can be written, if its characters are printed and
/// no spaces.
pub fn cells_are_names()
    ensures { CellsAreNames }
{}
