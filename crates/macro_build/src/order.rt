use leaf_tables::Kit;
use or_geom::Name;
use port_lists::Contents;
use sram_plan::Plan;

/// What is to be built: a macro of this name, from a kit's leaf cells, by a plan; and what its bits are.
#[derive(Clone, Copy)]
pub struct Order<'a> {
    pub kit: &'a Kit,
    pub plan: &'a Plan,
    pub name: &'a Name,
    pub contents: Contents<'a>,
}
