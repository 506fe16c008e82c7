//! The names of networks that are read.
ghost use Rattle.std.specs.Prelude.{◌≡◌, ℕ, IsTrue, List, Ok};
ghost use Rattle.std.specs.List.{AllByRecursion};
ghost use Rattle.net_base.specs.declared.net.Site.{Site};
ghost use Rattle.net_base.specs.NameRule.{is_name};
ghost use Rattle.net_base.specs.Network.{PlainNet, sites};
ghost use Rattle.topology.specs.Topology.{spelled};

/// Each router and each peer of a network that a text spells has a name by the rule of names, which is no word of
/// the policy language.
pub fn names_that_are_read_are_lawful()
    ensures { (bytes : List ℕ) (net : PlainNet) → spelled bytes ≡ Ok net → AllByRecursion (λ (s : Site). IsTrue (is_name s.name)) (sites net) }
{}
