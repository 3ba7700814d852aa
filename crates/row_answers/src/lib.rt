//! A law of flat rows: each subcircuit has rows or a refusal.
#![tactic(auto)]

ghost use Rattle.row_answers.specs.RowAnswers.{RowAnswersAreThere};

/// Whatever the subcircuits and the leaves are, a top has flat rows or a refusal that isn't out of memory.
pub fn row_answers_are_there()
    ensures { RowAnswersAreThere }
{}
