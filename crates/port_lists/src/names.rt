ghost use Rattle.std.specs.Prelude.{◌≡◌, ◌++◌, ◌∷◌, [], map, IfOk, OnOk};
ghost use Rattle.cell_roles.specs.Roles.{supplies};
ghost use Rattle.sram_netlist.specs.Names.{with_number, with_numbers, with_index};
ghost use Rattle.sram_netlist.specs.InstanceList.{tabulate};
ghost use Rattle.port_lists.specs.Spelled.{spelled};

use or_geom::{Items, Memory, Name};
use std::alloc::Global;
use std::marker::Model;

/// How the name of a net or of an instance is spelled.
#[derive(Clone, Copy, Debug)]
pub enum Spelling {
    Word(&'static [u8]),
    /// Letters and a number.
    Numbered(&'static [u8], u32),
    /// Letters and two numbers with `_` between them.
    NumberedTwice(&'static [u8], u32, u32),
    /// A bit of a port: letters and a number in brackets.
    Indexed(&'static [u8], u32),
}

/// The name that is spelled so.
pub fn spell(alloc: Global, spelling: Spelling) -> Result<Name, Memory>
    ensures { IfOk result (λ name. name ≡ spelled spelling) }
{
    let (letters, digits) = match spelling {
        Spelling::Word(word) => (word, String::new(alloc)),
        Spelling::Numbered(letters, number) => (letters, format!(in alloc; "{number}")?),
        Spelling::NumberedTwice(letters, first, second) => (
            letters,
            format!(in alloc; "{first}_{second}")?,
        ),
        Spelling::Indexed(letters, index) => (letters, format!(in alloc; "[{index}]")?),
    };
    let mut bytes = Vec::from_slice(alloc, letters)?;
    bytes.extend_from_slice(digits.as_bytes())?;
    Ok(Name::from_vec(bytes))
}

/// A list of names that grows.
#[derive(Debug, Drop)]
pub struct NameList {
    alloc: Global,
    names: Vec<Name>,
}

impl Model for NameList {
    ghost use Rattle.std.specs.Prelude.{List, ℕ};

    ghost Value = { List (List ℕ) };

    ghost view = { λ l. l.names.items };
}

impl NameList {
    pub fn new(alloc: Global) -> NameList
        ensures { result ≡ [] }
    {
        NameList {
            alloc,
            names: Vec::new(alloc),
        }
    }

    /// The names as the list of a subcircuit or an instance.
    pub fn into_items(self) -> Items<Name>
        ensures { result ≡ self }
    {
        Items::from_vec(self.names)
    }

    pub fn add(&mut self, spelling: Spelling) -> Result<(), Memory>
        ensures { OnOk result (self.new ≡ self.old ++ spelled spelling ∷ []) }
    {
        self.names.push(spell(self.alloc, spelling)?)?;
        Ok(())
    }

    /// Names in their order.
    pub fn add_all(&mut self, spellings: &[Spelling]) -> Result<(), Memory>
        ensures { OnOk result (self.new ≡ self.old ++ map spelled spellings.now) }
    {
        let mut rest = spellings;
        while let Some((spelling, others)) = rest.split_first() {
            self.add(*spelling)?;
            rest = others;
        }
        Ok(())
    }

    /// The letters with each number below `count`.
    pub fn add_numbered(&mut self, letters: &'static [u8], count: u32) -> Result<(), Memory>
        ensures { OnOk result (self.new ≡ self.old ++ tabulate count (with_number letters.now)) }
    {
        for number in 0..count {
            self.add(Spelling::Numbered(letters, number))?;
        }
        Ok(())
    }

    /// The letters with a number and each second number below `count`.
    pub fn add_numbered_twice(
        &mut self,
        letters: &'static [u8],
        first: u32,
        count: u32,
    ) -> Result<(), Memory>
        ensures { OnOk result (self.new ≡ self.old ++ tabulate count (with_numbers letters.now first)) }
    {
        for second in 0..count {
            self.add(Spelling::NumberedTwice(letters, first, second))?;
        }
        Ok(())
    }

    /// The bits of a port.
    pub fn add_indexed(&mut self, letters: &'static [u8], count: u32) -> Result<(), Memory>
        ensures { OnOk result (self.new ≡ self.old ++ tabulate count (with_index letters.now)) }
    {
        for index in 0..count {
            self.add(Spelling::Indexed(letters, index))?;
        }
        Ok(())
    }

    pub fn add_supplies(&mut self) -> Result<(), Memory>
        ensures { OnOk result (self.new ≡ self.old ++ supplies) }
    {
        self.add_all(&[Spelling::Word(b"vdd"), Spelling::Word(b"gnd")])
    }
}
