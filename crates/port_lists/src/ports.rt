ghost use Rattle.std.specs.Prelude.{◌≡◌, ◌++◌, ◌≤◌, ◌+◌, ◌⊎◌, List, ℕ, length, OnOk};
ghost use Rattle.std.specs.List.{AllByRecursion};
ghost use Rattle.sram_netlist.specs.Organization.{IsGroupSize, banks_of, written_bits};
ghost use Rattle.sram_netlist.specs.InstanceList.{tabulate, tabulate_lists};
ghost use Rattle.sram_netlist.specs.Numbers.{ArePlanNumbers};
ghost use Rattle.port_lists.specs.Spelled.{spelled};
ghost use Rattle.sram_plan.specs.PlanNumbers.{numbers_of, organization};
ghost use Rattle.sram_deck.specs.Deck.{row_inputs, predecode_lines_from, row_lines_from, column_bit_lines};
ghost use Rattle.sram_deck.specs.Deck.{all_bit_lines, column_choices, write_enables, macro_inputs, bank_enables};
ghost use Rattle.sram_deck.specs.Deck.{bank_control_names, wlen_name, sen_name};

use crate::names::{NameList, Spelling};
use crate::numbers::{enables_of, lines_of};
use or_geom::Memory;
use sram_plan::{Plan, inputs_of};

impl NameList {
    /// The pair of bit lines of each column of a bank.
    pub fn add_all_bit_lines(&mut self, plan: &Plan) -> Result<(), Memory>
        requires { ArePlanNumbers (numbers_of plan.now) }
        ensures { OnOk result (self.new ≡ self.old ++ all_bit_lines (organization plan.now)) }
    {
        self.add_bit_lines(plan.columns)
    }

    /// The pair of bit lines of each of so many columns.
    fn add_bit_lines(&mut self, columns: u32) -> Result<(), Memory>
        ensures { OnOk result (self.new ≡ self.old ++ tabulate_lists columns column_bit_lines) }
    {
        for column in 0..columns {
            self.add_all(&[
                Spelling::Numbered(b"bl", column),
                Spelling::Numbered(b"br", column),
            ])?;
        }
        Ok(())
    }

    /// The inputs of a row's gate over two or three groups.
    pub fn add_row_inputs(&mut self, groups: usize) -> Result<(), Memory>
        requires { (groups ≡ 2) ⊎ (groups ≡ 3) }
        ensures { OnOk result ((sizes : List ℕ) → length sizes ≡ groups → self.new ≡ self.old ++ row_inputs 97 sizes) }
    {
        self.add(Spelling::Word(b"a"))?;
        self.add(Spelling::Word(b"b"))?;
        if groups == 3 {
            self.add(Spelling::Word(b"c"))?;
        }
        Ok(())
    }

    /// The predecode lines of each group.
    pub fn add_predecode_lines(&mut self, groups: &[u32]) -> Result<(), Memory>
        requires few { length groups.now ≤ 3 }
        requires sizes { AllByRecursion IsGroupSize groups.now }
        ensures { OnOk result (self.new ≡ self.old ++ predecode_lines_from groups.now 0) }
    {
        let mut group = 0;
        let mut rest = groups;
        while let Some((bits, others)) = rest.split_first() {
            self.add_numbered_twice(b"p", group, lines_of(*bits))?;
            group += 1;
            rest = others;
        }
        Ok(())
    }

    /// The predecode line of a row in each group.
    pub fn add_row_lines(&mut self, groups: &[u32], row: u32) -> Result<(), Memory>
        requires few { length groups.now ≤ 3 }
        requires sizes { AllByRecursion IsGroupSize groups.now }
        ensures { OnOk result (self.new ≡ self.old ++ row_lines_from groups.now 0 row) }
    {
        let mut group = 0;
        let mut left = row;
        let mut rest = groups;
        while let Some((bits, others)) = rest.split_first() {
            let lines = lines_of(*bits);
            self.add(Spelling::NumberedTwice(b"p", group, left % lines))?;
            group += 1;
            left /= lines;
            rest = others;
        }
        Ok(())
    }

    /// The column choices, where a row has several words.
    pub fn add_column_choices(&mut self, plan: &Plan) -> Result<(), Memory>
        requires { ArePlanNumbers (numbers_of plan.now) }
        ensures { OnOk result (self.new ≡ self.old ++ column_choices plan.now.col_bits) }
    {
        if plan.col_bits == 0 {
            return Ok(());
        }
        self.add_numbered(b"sel", plan.wpr)
    }

    /// A bank's write enables, as it names them: one for each mask, or one, but none where nothing is written.
    pub fn add_write_enables(&mut self, plan: &Plan) -> Result<(), Memory>
        ensures { OnOk result (self.new ≡ self.old ++ write_enables (organization plan.now)) }
    {
        if plan.masks == 0 {
            return self.add_where_written(plan, b"wen");
        }
        self.add_numbered(b"en", enables_of(plan))
    }

    /// A name where something is written.
    fn add_where_written(&mut self, plan: &Plan, word: &'static [u8]) -> Result<(), Memory>
        ensures { OnOk result (self.new ≡ self.old ++ tabulate (written_bits plan.now.write_size 1)
            (λ number. word.now)) }
    {
        if plan.write_size == 0 {
            return Ok(());
        }
        self.add(Spelling::Word(word))
    }

    /// The signals that go into the macro: clock, select, write, the mask bits, the address and the data.
    pub fn add_macro_inputs(&mut self, plan: &Plan) -> Result<(), Memory>
        requires { ArePlanNumbers (numbers_of plan.now) }
        ensures { OnOk result ((more : List (List ℕ))
            → self.new ++ more ≡ self.old ++ macro_inputs (organization plan.now) more) }
    {
        self.add_all(&[Spelling::Word(b"clk0"), Spelling::Word(b"csb0")])?;
        self.add_where_written(plan, b"web0")?;
        self.add_indexed(b"wmask0", plan.masks)?;
        self.add_indexed(b"addr0", plan.addr_bits)?;
        self.add_indexed(b"din0", inputs_of(plan))?;
        Ok(())
    }

    /// A bank's write enables, as the macro names them.
    pub fn add_bank_enables(&mut self, plan: &Plan, bank: u32) -> Result<(), Memory>
        ensures { OnOk result (self.new ≡ self.old ++ bank_enables (organization plan.now) bank) }
    {
        if plan.bank_bits == 0 && plan.masks == 0 {
            return self.add_where_written(plan, b"wen");
        }
        self.add_numbered_twice(b"we", bank, enables_of(plan))?;
        Ok(())
    }

    /// A bank's word line enable, write enables and sense enable.
    fn add_bank_controls(&mut self, plan: &Plan, bank: u32) -> Result<(), Memory>
        ensures { OnOk result (self.new ≡ self.old ++ bank_control_names (organization plan.now) bank) }
    {
        self.add(word_line_enable(plan, bank))?;
        self.add_bank_enables(plan, bank)?;
        self.add(sense_enable(plan, bank))?;
        Ok(())
    }

    /// Those of all banks.
    pub fn add_all_bank_controls(&mut self, plan: &Plan) -> Result<(), Memory>
        requires { ArePlanNumbers (numbers_of plan.now) }
        ensures { OnOk result (self.new ≡ self.old ++ tabulate_lists (banks_of (organization plan.now))
            (bank_control_names (organization plan.now))) }
    {
        for bank in 0..plan.banks {
            self.add_bank_controls(plan, bank)?;
        }
        Ok(())
    }
}

/// A bank's word line enable: that of all banks where there is one.
pub fn word_line_enable(plan: &Plan, bank: u32) -> Spelling
    ensures { spelled result ≡ wlen_name (organization plan.now) bank }
{
    if plan.bank_bits == 0 {
        Spelling::Word(b"wlen")
    } else {
        Spelling::Numbered(b"wlen", bank)
    }
}

/// A bank's sense enable.
pub fn sense_enable(plan: &Plan, bank: u32) -> Spelling
    ensures { spelled result ≡ sen_name (organization plan.now) bank }
{
    if plan.bank_bits == 0 {
        Spelling::Word(b"sen")
    } else {
        Spelling::Numbered(b"sen", bank)
    }
}
