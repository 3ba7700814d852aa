ghost use Rattle.build_command.specs.OneDesign.{DemoFilesHoldBytes, DesignsAreOne, RomWorksAreOne, RunsEndAsWork};
ghost use Rattle.build_command.specs.OneDesign.{WorksAreOne};

/// A law for proofs: what stands in the files of a demonstration is bytes.
pub fn demo_files_hold_bytes()
    ensures { DemoFilesHoldBytes }
{}

/// A law for proofs: over files of bytes a name has one design, or one refusal, failed reads and want of memory aside.
pub fn designs_are_one()
    ensures { DesignsAreOne }
{}

/// A law for proofs: over files of bytes the work on a name has one outcome, failed reads and want of memory aside.
pub fn works_are_one()
    ensures { WorksAreOne }
{}

/// A law for proofs: over files of bytes the work on a read-only memory has one outcome, failed reads and want of
/// memory aside.
pub fn rom_works_are_one()
    ensures { RomWorksAreOne }
{}

/// A law for readers: a run that ends below 4 has the status, the files and the line of the outcome that told files
/// have; those of a build and of a read-only memory have to be bytes.
pub fn runs_end_as_work()
    ensures { RunsEndAsWork }
{}
