ghost use Rattle.sram_deck.specs.FixedSample.{FixedSampleAgrees};
ghost use Rattle.sram_deck.specs.Sample.{SampleAgrees};

/// The subcircuits of one memory with masks and two banks are those that another program wrote.
pub fn sample_agrees()
    ensures { SampleAgrees }
{}

/// The subcircuits of one read-only memory are those that another program wrote.
pub fn fixed_sample_agrees()
    ensures { FixedSampleAgrees }
{}
