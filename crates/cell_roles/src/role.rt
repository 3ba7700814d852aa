ghost use Rattle.std.specs.Prelude.{◌≡◌, map};
ghost use Rattle.cell_roles.specs.Roles.{all_roles, role_name, role_ports, input_pins, stored_bits, driven_pins};
ghost use Rattle.cell_roles.specs.Roles.{joined_pins};

/// What a leaf cell is for. The order is that in which a technology's roles are looked at.
#[derive(Clone, Copy, PartialEq, Eq, Debug, Drop)]
pub enum Role {
    /// Stores one bit between a pair of bit lines.
    Bitcell,
    /// Pulls the bit lines of a column high.
    Precharge,
    /// Joins a column's bit lines with those of its word's bit, where a row has several words.
    Mux,
    /// Stands in place of the multiplexer where a row has one word.
    Tie,
    /// Senses which bit line is low.
    Sense,
    /// Drives the bit lines of a word's bit.
    Write,
    /// The row's gate over two groups of predecode lines.
    RowNand2,
    /// The row's gate over three groups.
    RowNand3,
    /// Drives a word line.
    Driver,
    Nand2,
    Nand3,
    Inv,
    /// A flip-flop that takes its input where the clock rises.
    Dff,
    /// Gives its input one phase later.
    Delay,
}

impl Role {
    /// All roles, in order.
    pub fn all() -> [Role; 14]
        ensures { result ≡ all_roles }
    {
        [
            Role::Bitcell,
            Role::Precharge,
            Role::Mux,
            Role::Tie,
            Role::Sense,
            Role::Write,
            Role::RowNand2,
            Role::RowNand3,
            Role::Driver,
            Role::Nand2,
            Role::Nand3,
            Role::Inv,
            Role::Dff,
            Role::Delay,
        ]
    }

    /// The name that a technology file and a fault have for the role.
    pub fn name(self) -> &'static str
        ensures { result.now ≡ role_name self }
    {
        match self {
            Role::Bitcell => "bitcell",
            Role::Precharge => "precharge",
            Role::Mux => "mux",
            Role::Tie => "tie",
            Role::Sense => "sense",
            Role::Write => "write",
            Role::RowNand2 => "rownand2",
            Role::RowNand3 => "rownand3",
            Role::Driver => "driver",
            Role::Nand2 => "nand2",
            Role::Nand3 => "nand3",
            Role::Inv => "inv",
            Role::Dff => "dff",
            Role::Delay => "delay",
        }
    }

    /// The ports of the role's subcircuit, in order.
    pub fn ports(self) -> &'static [&'static str]
        ensures { map (λ t. t.now) result.now ≡ role_ports self }
    {
        match self {
            Role::Bitcell => &["bl", "br", "wl", "vdd", "gnd"],
            Role::Precharge => &["bl", "br", "en_bar", "vdd", "gnd"],
            Role::Mux => &["bl", "br", "blo", "bro", "sel", "vdd", "gnd"],
            Role::Tie => &["bl", "br", "vdd", "gnd"],
            Role::Sense => &["bl", "br", "dout", "en", "vdd", "gnd"],
            Role::Write => &["din", "bl", "br", "en", "vdd", "gnd"],
            Role::RowNand2 | Role::Nand2 => &["a", "b", "z", "vdd", "gnd"],
            Role::RowNand3 | Role::Nand3 => &["a", "b", "c", "z", "vdd", "gnd"],
            Role::Driver => &["a", "en", "z", "vdd", "gnd"],
            Role::Inv | Role::Delay => &["a", "z", "vdd", "gnd"],
            Role::Dff => &["d", "clk", "q", "vdd", "gnd"],
        }
    }

    /// The pins that the cell looks at, in the order of its table's first column.
    pub fn inputs(self) -> &'static [&'static str]
        ensures { map (λ t. t.now) result.now ≡ input_pins self }
    {
        match self {
            Role::Bitcell => &["wl", "bl", "br"],
            Role::Precharge => &["en_bar"],
            Role::Mux => &["sel"],
            Role::Tie => &[],
            Role::Sense => &["en", "bl", "br"],
            Role::Write => &["en", "din"],
            Role::RowNand2 | Role::Nand2 => &["a", "b"],
            Role::RowNand3 | Role::Nand3 => &["a", "b", "c"],
            Role::Driver => &["a", "en"],
            Role::Inv | Role::Delay => &["a"],
            Role::Dff => &["d", "clk"],
        }
    }

    /// The bits that the cell stores.
    pub fn stored(self) -> &'static [&'static str]
        ensures { map (λ t. t.now) result.now ≡ stored_bits self }
    {
        match self {
            Role::Bitcell => &["q"],
            Role::Dff => &["q", "p"],
            Role::Delay => &["s"],
            _ => &[],
        }
    }

    /// The pins that the cell may drive.
    pub fn driven(self) -> &'static [&'static str]
        ensures { map (λ t. t.now) result.now ≡ driven_pins self }
    {
        match self {
            Role::Bitcell | Role::Precharge | Role::Write => &["bl", "br"],
            Role::Mux | Role::Tie => &[],
            Role::Sense => &["dout"],
            Role::Dff => &["q"],
            _ => &["z"],
        }
    }

    /// The pairs of pins that the cell may join.
    pub fn joined(self) -> &'static [(&'static str, &'static str)]
        ensures { map (λ p. (p.0.now, p.1.now)) result.now ≡ joined_pins self }
    {
        match self {
            Role::Mux => &[("bl", "blo"), ("br", "bro")],
            _ => &[],
        }
    }
}
