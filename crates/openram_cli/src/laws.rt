ghost use Rattle.openram_cli.specs.Outcomes.{AnswersAreThere, ChecksHaveOutcomes, ComparisonsHaveOutcomes};
ghost use Rattle.openram_cli.specs.Outcomes.{InputsHaveOutcomes, ListingsHaveOutcomes};

use gds_library::libraries_are_writable;
use tile_checker::reports_are_there;

/// A law for readers: the work of `check`, `nets` and `compare` on a layout has an outcome, where memory lasts.
pub fn layouts_have_outcomes()
    ensures check { ChecksHaveOutcomes }
    ensures nets { ListingsHaveOutcomes }
    ensures compare { ComparisonsHaveOutcomes }
{
    reports_are_there();
}

/// A law for readers: over files of bytes what a command reads has an outcome, and words of any command but `kit` and
/// those that build a memory, and words that are no command, have an answer.
pub fn answers_are_there()
    ensures inputs { InputsHaveOutcomes }
    ensures answers { AnswersAreThere }
{
    reports_are_there();
    libraries_are_writable();
}
