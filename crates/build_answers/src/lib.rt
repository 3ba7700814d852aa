//! A law of builds: a kit, a plan and what is held have a sound macro under a name, or a fault.
#![tactic(auto)]

ghost use Rattle.build_answers.specs.Answers.{SoundMacrosOrFaultsAreThere};

use macro_answers::macros_or_faults_are_there;
use net_answers::{alike_or_different, nets_are_there};
use sram_rows::rows_equal_netlist;
use tile_checker::reports_are_there;

/// There is a sound macro or a fault, which isn't want of memory.
pub fn sound_macros_or_faults_are_there()
    ensures { SoundMacrosOrFaultsAreThere }
{
    // It follows by these laws.
    macros_or_faults_are_there();
    reports_are_there();
    rows_equal_netlist();
    nets_are_there();
    alike_or_different();
}
