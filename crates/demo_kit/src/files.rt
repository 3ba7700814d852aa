ghost use Rattle.std.specs.Prelude.{◌≡◌, ◌≤◌, IfOk};
ghost use Rattle.gds_library.specs.Grammar.{Spells};
ghost use Rattle.gds_stream.specs.Canonical.{canonical};
ghost use Rattle.spice_text.specs.WrittenText.{deck_text};
ghost use Rattle.spice_text.specs.ReadBack.{IsReadAs};
ghost use Rattle.demo_kit.specs.Numbers.{demo_scale};
ghost use Rattle.demo_kit.specs.Configuration.{demo_configuration};
ghost use Rattle.demo_kit.specs.Technology.{demo_technology};
ghost use Rattle.demo_kit.specs.Layout.{demo_library};
ghost use Rattle.demo_kit.specs.Subcircuits.{demo_subckts};

use crate::configuration::configuration;
use crate::layout::layout_bytes;
use crate::subcircuits::netlist_text;
use crate::technology::technology;
use or_geom::{Items, Memory};
use std::alloc::Global;

/// The files of a demonstration: a configuration, and a kit that it names `demo_tech`.
#[derive(Debug, Drop)]
pub struct DemoFiles {
    /// `demo.toml`.
    pub config: Items<u8>,
    /// `demo_tech.toml`: layers, rules, connections, wires, and the cells and tables of the roles.
    pub tech: Items<u8>,
    /// `demo_tech.gds`: the leaf cells.
    pub gds: Items<u8>,
    /// `demo_tech.sp`: their subcircuits.
    pub sp: Items<u8>,
}

/// The files of the demonstration with this number, which is at most 65535. It chooses by which of 1 to 4 all lengths
/// of the kit are multiplied, how many bits a word has (2 to 16), and how many words there are (16 to 512).
pub fn demo(alloc: Global, n: u32) -> Result<DemoFiles, Memory>
    requires { n ≤ 65535 }
    ensures config { IfOk result (λ files. files.config ≡ demo_configuration n) }
    ensures tech { IfOk result (λ files. files.tech ≡ demo_technology (demo_scale n)) }
    ensures gds { IfOk result (λ files. files.gds ≡ canonical (demo_library (demo_scale n))) }
    ensures sp { IfOk result (λ files. files.sp ≡ deck_text demo_subckts) }
    // They are read as this library and these subcircuits.
    ensures gds_spells { IfOk result (λ files. Spells files.gds (demo_library (demo_scale n))) }
    ensures sp_reads { IfOk result (λ files. IsReadAs demo_subckts files.sp) }
{
    let scale = 1 + n % 4;
    Ok(DemoFiles {
        config: Items::from_vec(configuration(alloc, n)?),
        tech: Items::from_vec(technology(alloc, scale)?),
        gds: Items::from_vec(layout_bytes(alloc, scale)?),
        sp: Items::from_vec(netlist_text(alloc)?),
    })
}
