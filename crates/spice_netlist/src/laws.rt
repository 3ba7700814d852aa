ghost use Rattle.spice_netlist.specs.NetKeys.{KeysTellNets, NetKeysAreFaithful};
ghost use Rattle.spice_netlist.specs.OneAnswer.{FlatFaultsAreUnique, FlatFaultsExcludeRows, RowsAreUnique};
ghost use Rattle.spice_netlist.specs.Whole.{WalksAreWhole};

use reference_graph::paths_are_short;

/// A law for readers: two nets with names in lower case that have one key are one net, since such a name has no `A`.
pub fn net_keys_are_faithful()
    ensures { NetKeysAreFaithful }
{}

/// A law for readers: two rows of a deck have one key exactly where they have one net.
pub fn keys_tell_nets()
    ensures { KeysTellNets }
{}

/// A law for readers: a walk has as many levels as it needs, where nothing below it reaches itself.
pub fn walks_are_whole()
    ensures { WalksAreWhole }
{
    paths_are_short();
}

/// A law for readers: a subcircuit has one list of flat rows.
pub fn rows_are_unique()
    ensures { RowsAreUnique }
{}

/// A law for readers: a subcircuit has one refusal, out of memory aside.
pub fn flat_faults_are_unique()
    ensures { FlatFaultsAreUnique }
{}

/// A law for readers: a subcircuit that is refused, out of memory aside, has no flat rows.
pub fn flat_faults_exclude_rows()
    ensures { FlatFaultsExcludeRows }
{}
