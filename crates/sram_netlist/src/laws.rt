ghost use Rattle.sram_netlist.specs.Laws.{ListsAgree, NetsNamed, TextsTell};

/// The name of a net, seen from the top, gives the net back.
pub fn texts_tell()
    ensures { TextsTell }
{}

/// The list of a memory's leaf instances has exactly those that the memory has.
pub fn lists_agree()
    ensures { ListsAgree }
{}

/// The nets on the ports of leaf instances are among those that have names of their own.
pub fn nets_named()
    ensures { NetsNamed }
{}
