ghost use Rattle.memory_laws.specs.Examples.{ExamplesAnswer};
ghost use Rattle.memory_laws.specs.Laws.{AddressesSplit, CommandsObey, PhasesAgree, PortsFit, RunsAnswer, RunsExist};
ghost use Rattle.memory_laws.specs.Laws.{RunsObey};
ghost use Rattle.memory_laws.specs.NumberArray.{RunsAnswerNumbers};
ghost use Rattle.memory_laws.specs.Numbers.{NumbersAgree};

/// From every state a run exists, for each list of commands.
pub fn runs_exist()
    ensures { RunsExist }
{}

/// Every run from a start answers as the array of words, and ends with the array's last contents.
pub fn runs_answer()
    ensures { RunsAnswer }
{}

/// The same with words, masks and addresses as numbers: every run from a start gives the answers of an array of
/// numbers.
pub fn runs_answer_numbers()
    ensures { RunsAnswerNumbers }
{}

/// In each phase of a command the control nets say which word is meant and what is done with it.
pub fn commands_obey()
    ensures { CommandsObey }
{}

/// And so they do at each command of a run.
pub fn runs_obey()
    ensures { RunsObey }
{}

/// A phase has one value for each net.
pub fn phases_agree()
    ensures { PhasesAgree }
{}

/// The bits of an address are a row, a column choice and a bank.
pub fn addresses_split()
    ensures { AddressesSplit }
{}

/// Each leaf instance has as many nets as its role has ports.
pub fn ports_fit()
    ensures { PortsFit }
{}

/// The numbers that a program holds of a plan are those of its organisation.
pub fn numbers_agree()
    ensures { NumbersAgree }
{}

/// The answers of three memories: one of one bank, one with masks and one with two banks.
pub fn examples_answer()
    ensures { ExamplesAnswer }
{}
