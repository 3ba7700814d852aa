ghost use Rattle.std.specs.Prelude.{◌≡◌, ◌<◌, IfOk, IfSome, map, string_bytes};
ghost use Rattle.std.specs.Option.{is_none, option_map};
ghost use Rattle.openram_cli.specs.Answer.{IsWork};
ghost use Rattle.openram_cli.specs.Inspection.{inspection_of};
ghost use Rattle.openram_cli.specs.CommandWords.{HasWorkers, told_question};
ghost use Rattle.openram_cli.specs.OneAnswer.{EndsAsAnswer, EndAsAsked};
ghost use Rattle.command_steps.specs.Outcome.{is_usage_outcome};
ghost use Rattle.command_steps.specs.Outside.{outside_at};
ghost use Rattle.command_steps.specs.Reading.{HasRead};
ghost use Rattle.openram_cli.specs.GoodKits.{EndsWithinGoodKit};
ghost use Rattle.openram_cli.specs.Run.{IsAnswerRun, IsProgramRun};

use crate::answer::answer;
use crate::command::{Command, Question, command_in};
use crate::inputs::read_inputs;
use build_command::make;
use command_steps::{finish, refuse};
use or_host::{Sink, Store};
use reply_lines::{Refusal, Reply};
use std::alloc::Global;
use std::thread::Threads;
use tile_checker::{Gate, OpenGate};

/// Reads the files that the question names, and answers it. Without a question the words are refused as usage.
fn reply_to<R: Threads + Sync, G: Gate + Sync, S: Store>(
    rt: &R,
    alloc: Global,
    gate: &G,
    _words: &[String],
    asked: Option<Question<'_>>,
    store: &mut S,
) -> Result<Reply, Refusal>
    requires asked { option_map told_question asked ≡ inspection_of (map string_bytes _words.now) }
    requires workers { IfSome asked HasWorkers }
    ensures read { HasRead (IsWork (map string_bytes _words.now)) result (S.state store.old) (S.state store.new) }
    ensures small { IfOk result (λ reply. reply.status < 2) }
    ensures usage { is_usage_outcome result ≡ is_none (inspection_of (map string_bytes _words.now)) }
{
    let Some(question) = asked else {
        return Err(Refusal::Usage);
    };
    let inputs = read_inputs(alloc, question.asked, store)?;
    answer(rt, alloc, gate, inputs, question.workers)
}

/// Answers the words, which build no memory, by what they ask.
fn answer_words<R: Threads + Sync, G: Gate + Sync, S: Store, K: Sink>(
    rt: &R,
    alloc: Global,
    gate: &G,
    words: &[String],
    asked: Option<Question<'_>>,
    store: &mut S,
    out: &mut K,
) -> u8
    requires asked { option_map told_question asked ≡ inspection_of (map string_bytes words.now) }
    requires workers { IfSome asked HasWorkers }
    ensures run { IsAnswerRun (map string_bytes words.now) result (outside_at (S.state store.old) (K.state out.old))
        (outside_at (S.state store.new) (K.state out.new)) }
    ensures one { EndsAsAnswer (map string_bytes words.now) result (outside_at (S.state store.old) (K.state out.old))
        (outside_at (S.state store.new) (K.state out.new)) }
{
    match reply_to(rt, alloc, gate, words, asked, store) {
        Ok(reply) => finish(alloc, &reply, out),
        Err(refusal) => refuse(alloc, &refusal, out),
    }
}

/// The same as `run`, for tests: each worker that looks for violations enters the gate before all else.
pub fn run_gated<R: Threads + Sync, G: Gate + Sync, S: Store, K: Sink>(
    rt: &R,
    alloc: Global,
    gate: &G,
    words: &[String],
    store: &mut S,
    out: &mut K,
) -> u8
    ensures run { IsProgramRun (map string_bytes words.now) result (outside_at (S.state store.old) (K.state out.old))
        (outside_at (S.state store.new) (K.state out.new)) }
    // Over files of bytes words that build no memory have one answer at most, and the run ends as it says: status and
    // text are a function of words and files.
    ensures one { EndsAsAnswer (map string_bytes words.now) result (outside_at (S.state store.old) (K.state out.old))
        (outside_at (S.state store.new) (K.state out.new)) }
    // The same of words that build a memory: status, text and the files at the end.
    ensures work { EndAsAsked (map string_bytes words.now) result (outside_at (S.state store.old) (K.state out.old))
        (outside_at (S.state store.new) (K.state out.new)) }
    // A build whose kit `kit` finds no weakness in is refused with none of what such a kit rules out: no pins or taps
    // that are too close, no broken rule, no nets that differ.
    ensures good { EndsWithinGoodKit (map string_bytes words.now) result
        (outside_at (S.state store.old) (K.state out.old)) (outside_at (S.state store.new) (K.state out.new)) }
{
    match command_in(words) {
        Some(Command::Make(making)) => make(rt, alloc, gate, making, store, out),
        Some(Command::Answer(question)) => answer_words(
            rt,
            alloc,
            gate,
            words,
            Some(question),
            store,
            out,
        ),
        None => answer_words(rt, alloc, gate, words, None, store, out),
    }
}

/// All that the program does: it reads the files that the words name, writes the views of a build, prints each line by
/// one call of `put`, and answers the exit status. 0: done. 1: a check found violations, a comparison a difference, a
/// kit is weak, or leaf cells differ from their subcircuits in a transistor. 2: the words are no form. 3: an input is
/// refused, or the memory that it asks for can't be built soundly. 4: the store or the sink failed, and its count of
/// faults rose. 5: out of memory.
pub fn run<R: Threads + Sync, S: Store, K: Sink>(
    rt: &R,
    alloc: Global,
    words: &[String],
    store: &mut S,
    out: &mut K,
) -> u8
    ensures run { IsProgramRun (map string_bytes words.now) result (outside_at (S.state store.old) (K.state out.old))
        (outside_at (S.state store.new) (K.state out.new)) }
    // Over files of bytes words that build no memory have one answer at most, and the run ends as it says: status and
    // text are a function of words and files.
    ensures one { EndsAsAnswer (map string_bytes words.now) result (outside_at (S.state store.old) (K.state out.old))
        (outside_at (S.state store.new) (K.state out.new)) }
    // The same of words that build a memory: status, text and the files at the end.
    ensures work { EndAsAsked (map string_bytes words.now) result (outside_at (S.state store.old) (K.state out.old))
        (outside_at (S.state store.new) (K.state out.new)) }
    // A build whose kit `kit` finds no weakness in is refused with none of what such a kit rules out: no pins or taps
    // that are too close, no broken rule, no nets that differ.
    ensures good { EndsWithinGoodKit (map string_bytes words.now) result
        (outside_at (S.state store.old) (K.state out.old)) (outside_at (S.state store.new) (K.state out.new)) }
{
    run_gated(rt, alloc, &OpenGate, words, store, out)
}
