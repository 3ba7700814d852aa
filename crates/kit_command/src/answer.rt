ghost use Rattle.std.specs.Prelude.{◌≡◌, ◌<◌, ◌≤◌, false, IfOk};
ghost use Rattle.leaf_tables.specs.Kits.{IsKit};
ghost use Rattle.command_steps.specs.Outcome.{UnlessMemory, is_read_failed, is_usage_outcome};
ghost use Rattle.kit_check.specs.Good.{IsWeakness};
ghost use Rattle.macro_maker.specs.Assembled.{IsAssembled};
ghost use Rattle.kit_command.specs.WeakLines.{IsKitAnswered};

use crate::lines::weak_reply;
use kit_check::{Weak, passes_quick_check, weakness};
use leaf_tables::Kit;
use macro_facts::{macros_are_whole, macros_have_rows, unused_names_are_free};
use macro_maker::Assembler;
use or_geom::Memory;
use quick_checks::quick_checks_suffice;
use reply_lines::{Refusal, Reply};
use std::alloc::Global;
use std::thread::Threads;

/// The first weakness of a kit, if it has one. A kit that passes the quick check has none: only of one that doesn't,
/// all windows are looked at.
fn first_weakness<R: Threads + Sync>(
    rt: &R,
    alloc: Global,
    kit: &Kit,
    workers: u8,
) -> Result<Option<Weak>, Memory>
    requires kit { IsKit kit.now }
    requires some { 0 < workers }
    requires at_most { workers ≤ 64 }
    ensures { IfOk result (IsWeakness IsAssembled kit.now) }
{
    // The calls do nothing when the program runs: their contracts are the laws by which macros can be flattened, no
    // name is taken, and a kit that passes the quick check is good.
    macros_are_whole();
    macros_have_rows();
    unused_names_are_free();
    quick_checks_suffice();
    if passes_quick_check(rt, alloc, kit, &Assembler, workers)? {
        return Ok(None);
    }
    weakness(rt, alloc, kit, &Assembler, workers)
}

/// The first weakness of a kit as an answer, or no line where the kit is good: where its rules, its connections and its
/// leaf cells meet what is asked of them, and of 540 small macros those whose slices are wide enough, assembled as a
/// build does, are clean. It looks at nothing but the kit, and is the same for each number of workers. It is refused
/// only where memory runs out.
pub fn answer_kit<R: Threads + Sync>(
    rt: &R,
    alloc: Global,
    kit: &Kit,
    workers: u8,
) -> Result<Reply, Refusal>
    requires kit { IsKit kit.now }
    requires some { 0 < workers }
    requires at_most { workers ≤ 64 }
    ensures answer { UnlessMemory (IsKitAnswered kit.now) result }
    ensures small { IfOk result (λ reply. reply.status < 2) }
    ensures read { is_read_failed result ≡ false }
    ensures words { is_usage_outcome result ≡ false }
{
    let found = first_weakness(rt, alloc, kit, workers)?;
    Ok(weak_reply(alloc, &found)?)
}
