ghost use Rattle.std.specs.Prelude.{◌≡◌, ◌≤◌, List, ℕ, map, IfOk};
ghost use Rattle.spice_netlist.specs.Levels.{level_key, AreWithinPath, seen_name, view_of};

use crate::name_index::NameIndex;
use crate::resolved::ResolvedInstance;
use or_geom::{Memory, Name};
use std::alloc::Global;

/// A net, seen from the top: the first bytes of the path, as nets have it, and a name behind them. So a net takes no
/// more memory where the path is long.
#[derive(Clone, Copy)]
pub struct LevelNet<'a> {
    /// How many bytes of the path stand before the name.
    pub prefix: usize,
    /// Its name in the subcircuit in which it is local.
    pub name: &'a [u8],
}

/// A subcircuit that the walk is in.
#[derive(Drop)]
pub struct WalkLevel<'a, 't> {
    /// Its instances that are still to come.
    pub instances: &'a [ResolvedInstance],
    /// The indices of its ports; none for the top, whose nets are all local.
    pub ports: &'t NameIndex<'a>,
    /// The nets of its ports.
    pub nets: Vec<LevelNet<'a>>,
    /// How many bytes of the path lead to it.
    pub prefix: usize,
}

impl<'a> WalkLevel<'a, '_> {
    /// The net of this name, seen from the top.
    fn net(&self, name: &'a [u8]) -> LevelNet<'a>
        requires { AreWithinPath self.now.prefix self.now.nets.items }
        ensures near { result.prefix ≤ self.now.prefix }
        ensures seen { (path net : List ℕ) → level_key net result ≡ seen_name (view_of path net self.now) name.now }
    {
        match self.ports.find(name) {
            None => LevelNet {
                prefix: self.prefix,
                name,
            },
            Some(index) => match self.nets.get(index) {
                Some(net) => *net,
                None => LevelNet {
                    prefix: 0,
                    name: b"",
                },
            },
        }
    }
}

/// The nets of these names, seen from the top.
pub fn nets_in<'a>(
    alloc: Global,
    level: &WalkLevel<'a, '_>,
    names: &'a [Name],
) -> Result<Vec<LevelNet<'a>>, Memory>
    requires { AreWithinPath level.now.prefix level.now.nets.items }
    ensures near { IfOk result (λ nets. AreWithinPath level.now.prefix nets.items) }
    ensures seen { IfOk result (λ nets. (path net : List ℕ)
        → map (level_key net) nets.items ≡ map (seen_name (view_of path net level.now)) names.now) }
{
    let mut nets = Vec::new(alloc);
    for name in names {
        nets.push(level.net(name.as_bytes()))?;
    }
    Ok(nets)
}
