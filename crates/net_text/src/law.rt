//! What is printed is read again.
ghost use Rattle.std.specs.Prelude.{◌≡◌, Ok};
ghost use Rattle.net_base.specs.Network.{PlainNet, IsNet};
ghost use Rattle.net_text.specs.NetText.{net_text, HaveNames};
ghost use Rattle.topology.specs.Topology.{spelled};

/// The text of a network spells that network. Its sites have names by the rule of names, as those of every network that is
/// read or that is made of names.
pub fn printed_networks_are_read()
    ensures { (net : PlainNet) → IsNet net → HaveNames (net.routers) → HaveNames (net.peers) → spelled (net_text net) ≡ Ok net }
{}
