//! What a topology text means, without faults and without their order.
//!
//! There is no code here. `specs/Meaning` says when bytes are a topology text that means a network: the keys of its objects, what stands
//! under them, and that what they say is a network. The function below is the proof of the law in its contract: that `spelled` of
//! `topology`, by which texts are read, gives a network exactly where the text means it.
ghost use Rattle.topology.specs.TopologyMeaningLaws.{SpelledNetworksAreMeant, MeantNetworksAreSpelled, TopologiesMeanOneNetwork};

/// A text is read as a network exactly where it means it, and it means no other.
pub fn topologies_mean_their_network()
    ensures only { SpelledNetworksAreMeant }
    ensures all { MeantNetworksAreSpelled }
    ensures one { TopologiesMeanOneNetwork }
{}
