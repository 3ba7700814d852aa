ghost use Rattle.device_lvs.specs.OneAnswer.{DeviceAnswersAreUnique, DeviceFaultsAreUnique, DeviceFaultsExcludeAnswers};

/// A law for readers: leaf files have one first difference, or none.
pub fn device_answers_are_unique()
    ensures { DeviceAnswersAreUnique }
{}

/// A law for readers: leaf files have one refusal, `Memory` aside.
pub fn device_faults_are_unique()
    ensures { DeviceFaultsAreUnique }
{}

/// A law for readers: leaf files that are refused, `Memory` aside, have no answer.
pub fn device_faults_exclude_answers()
    ensures { DeviceFaultsExcludeAnswers }
{}
