//! Laws of configurations and data files: there is a plan or none, and there are words or a fault.
#![tactic(auto)]

ghost use Rattle.plan_answers.specs.PlanAnswers.{PlansAnswer};
ghost use Rattle.plan_answers.specs.WordAnswers.{WordsAnswer};

/// A configuration has a plan, or no count of words in a row fits.
pub fn plans_answer()
    ensures { PlansAnswer }
{}

/// Bytes are the words of a plan, or have a fault.
pub fn words_answer()
    ensures { WordsAnswer }
{}
