ghost use Rattle.std.specs.Prelude.{◌≡◌};
ghost use Rattle.sram_netlist.specs.BitCells.{read_only};
ghost use Rattle.sram_netlist.specs.Numbers.{ArePlanNumbers};
ghost use Rattle.sram_netlist.specs.Organization.{inputs_of};
ghost use Rattle.sram_plan.specs.PlanNumbers.{numbers_of, organization, read_only_plan};

/// How a memory is laid out: the numbers of its words, banks, rows and columns, and how an address is cut. Rows and
/// columns are those of one bank.
#[derive(Clone, Copy, Debug, Drop)]
pub struct Plan {
    /// Bits of a word.
    pub word_size: u32,
    /// Bits that one mask bit lets a write change, or 0 where nothing is written.
    pub write_size: u32,
    /// Mask bits, or 0 where words are written whole.
    pub masks: u32,
    pub banks: u32,
    /// Words of all banks.
    pub num_words: u32,
    /// Words of a row.
    pub wpr: u32,
    pub rows: u32,
    pub columns: u32,
    pub addr_bits: u32,
    /// Address bits that choose a word of a row, the lowest ones.
    pub col_bits: u32,
    /// Address bits that choose a bank, the highest ones.
    pub bank_bits: u32,
    /// The sizes of the groups of row bits, low bits first. A group that isn't used is 0.
    pub groups: [u32; 3],
}

/// Why a configuration has no plan.
#[derive(Clone, Copy, PartialEq, Eq, Debug, Drop)]
pub enum PlanFault {
    /// The given count of words in a row doesn't fit, or none does.
    Shape,
}

/// The plan of the same memory in which nothing is written: its `write_size` is 0. The given plan has no masks.
pub fn read_only(plan: &Plan) -> Plan
    requires numbers { ArePlanNumbers (numbers_of plan.now) }
    requires whole { plan.now.masks ≡ 0 }
    ensures plan { result ≡ read_only_plan plan.now }
    ensures organization { organization result ≡ read_only (organization plan.now) }
    ensures numbers { ArePlanNumbers (numbers_of result) }
{
    Plan {
        write_size: 0,
        ..*plan
    }
}

/// How many data bits a memory is given: those of a word, or none where nothing is written.
pub fn inputs_of(plan: &Plan) -> u32
    ensures { result ≡ inputs_of (organization plan.now) }
{
    if plan.write_size == 0 {
        0
    } else {
        plan.word_size
    }
}
