ghost use Rattle.std.specs.Prelude.{◌≡◌, map};
ghost use Rattle.cell_roles.specs.LeafRoles.{pin_role, leaf_role_name, leaf_role_ports, leaf_inputs, leaf_stored};
ghost use Rattle.cell_roles.specs.LeafRoles.{leaf_driven, leaf_joined};

use crate::role::Role;

/// What a leaf cell is for: one of the roles of a read-write memory, or a cell that holds a fixed bit of a read-only
/// one.
#[derive(Clone, Copy, PartialEq, Eq, Debug, Drop)]
pub enum LeafRole {
    Common(Role),
    /// Pulls one of a pair of bit lines low while its word line is on: the left one for 0, the right one for 1.
    Fixed(bool),
}

impl LeafRole {
    /// The role whose ports and whose shapes of pins the cell has to have.
    pub fn pin_role(self) -> Role
        ensures { result ≡ pin_role self }
    {
        match self {
            LeafRole::Common(role) => role,
            LeafRole::Fixed(_) => Role::Bitcell,
        }
    }

    /// The name that a technology file and a fault have for the role.
    pub fn name(self) -> &'static str
        ensures { result.now ≡ leaf_role_name self }
    {
        match self {
            LeafRole::Common(role) => role.name(),
            LeafRole::Fixed(false) => "rom0",
            LeafRole::Fixed(true) => "rom1",
        }
    }

    /// The ports of the role's subcircuit, in order.
    pub fn ports(self) -> &'static [&'static str]
        ensures { map (λ t. t.now) result.now ≡ leaf_role_ports self }
    {
        self.pin_role().ports()
    }

    /// The pins that the cell looks at, in the order of its table's first column.
    pub fn inputs(self) -> &'static [&'static str]
        ensures { map (λ t. t.now) result.now ≡ leaf_inputs self }
    {
        match self {
            LeafRole::Common(role) => role.inputs(),
            LeafRole::Fixed(_) => &["wl"],
        }
    }

    /// The bits that the cell stores.
    pub fn stored(self) -> &'static [&'static str]
        ensures { map (λ t. t.now) result.now ≡ leaf_stored self }
    {
        match self {
            LeafRole::Common(role) => role.stored(),
            LeafRole::Fixed(_) => &[],
        }
    }

    /// The pins that the cell may drive.
    pub fn driven(self) -> &'static [&'static str]
        ensures { map (λ t. t.now) result.now ≡ leaf_driven self }
    {
        match self {
            LeafRole::Common(role) => role.driven(),
            LeafRole::Fixed(_) => &["bl", "br"],
        }
    }

    /// The pairs of pins that the cell may join.
    pub fn joined(self) -> &'static [(&'static str, &'static str)]
        ensures { map (λ p. (p.0.now, p.1.now)) result.now ≡ leaf_joined self }
    {
        match self {
            LeafRole::Common(role) => role.joined(),
            LeafRole::Fixed(_) => &[],
        }
    }
}
