ghost use Rattle.std.specs.Prelude.{◌≡◌, ◌<◌, false, IfOk};
ghost use Rattle.gds_library.specs.Writable.{IsWritable};
ghost use Rattle.tech_rules.specs.Facts.{IsTech};
ghost use Rattle.device_lvs.specs.RoleSteps.{leaf_files};
ghost use Rattle.command_steps.specs.Outcome.{UnlessMemory, is_read_failed, is_usage_outcome};
ghost use Rattle.device_command.specs.DeviceLines.{AreDevicesAnswered};

use crate::lines::device_reply;
use crate::refusals::device_refusal;
use device_lvs::devices;
use gds_library::Library;
use netlist::Deck;
use reply_lines::{Refusal, Reply};
use std::alloc::Global;
use tech_rules::Tech;

/// What the leaf cells of a technology draw otherwise than their subcircuits say, if anything, as an answer: the first
/// difference of transistors, which looks at nothing but these three. Refused is what `devices` of device_lvs refuses,
/// or memory ran out.
pub fn answer_devices(
    alloc: Global,
    tech: &Tech,
    lib: &Library,
    deck: &Deck,
) -> Result<Reply, Refusal>
    requires tech { IsTech tech.now }
    requires writable { IsWritable lib.now }
    ensures answer { UnlessMemory (AreDevicesAnswered (leaf_files tech.now lib.now deck.now)) result }
    ensures small { IfOk result (λ reply. reply.status < 2) }
    ensures read { is_read_failed result ≡ false }
    ensures words { is_usage_outcome result ≡ false }
{
    match devices(alloc, tech, lib, deck) {
        Ok(difference) => Ok(device_reply(alloc, &difference)?),
        Err(fault) => Err(device_refusal(fault)),
    }
}
