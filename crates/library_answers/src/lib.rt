//! A law of GDSII stream files: each has an answer, a library or a fault.
#![tactic(auto)]

ghost use Rattle.library_answers.specs.LibraryAnswers.{LibraryAnswersAreThere};

/// Bytes spell a library or have a fault that isn't out of memory.
pub fn library_answers_are_there()
    ensures { LibraryAnswersAreThere }
{}
