//! What the answers of `read_topology` mean, in the words of its rules.
ghost use Rattle.std.specs.Prelude.{◌≡◌, ℕ, List, Some, Ok, Err, IsUtf8};
ghost use Rattle.serde_json.specs.Data.{Data};
ghost use Rattle.serde_json.specs.Read.{read};
ghost use Rattle.json_values.specs.TextRules.{Says, Keeps, KeepsBelow};
ghost use Rattle.net_base.specs.Network.{PlainNet, IsNet};
ghost use Rattle.topology.specs.Faults.{number_of};
ghost use Rattle.topology.specs.Laws.{rules};
ghost use Rattle.topology.specs.Shape.{Topology, shape_of};
ghost use Rattle.topology.specs.Topology.{spelled};

use crate::fault::TopoFault;
use crate::parts::Field;

/// A text is read exactly where it is a JSON value that has the shape of a topology and keeps all rules. What
/// it spells is a network.
pub fn texts_that_are_read()
    ensures only { (bytes : List ℕ) (net : PlainNet) → spelled bytes ≡ Ok net → (t : Topology) × Says shape_of bytes t × KeepsBelow (rules t) 13 }
    ensures all { (bytes : List ℕ) (t : Topology) → Says shape_of bytes t → KeepsBelow (rules t) 13 → (net : PlainNet) × (spelled bytes ≡ Ok net) }
    ensures network { (bytes : List ℕ) (net : PlainNet) → spelled bytes ≡ Ok net → IsNet net }
{}

/// A text is told as no JSON exactly where no value is read of it.
pub fn texts_that_are_no_json()
    ensures only { (bytes : List ℕ) → spelled bytes ≡ Err TopoFault.NotJson → (d : Data) → IsUtf8 bytes → read bytes ≡ Some d → ⊥ }
    ensures all { (bytes : List ℕ) → ((d : Data) → IsUtf8 bytes → read bytes ≡ Some d → ⊥) → spelled bytes ≡ Err TopoFault.NotJson }
{}

/// A text has a fault of the shape exactly where it is a JSON value that has not the shape of a topology; the
/// fault names the first part that differs.
pub fn texts_of_another_shape()
    ensures only { (bytes : List ℕ) (f : Field) → spelled bytes ≡ Err (TopoFault.Shape f) → (d : Data) × IsUtf8 bytes × (read bytes ≡ Some d) × (shape_of d ≡ Err (TopoFault.Shape f)) }
    ensures all { (bytes : List ℕ) (f : Field) (d : Data) → IsUtf8 bytes → read bytes ≡ Some d → shape_of d ≡ Err (TopoFault.Shape f) → spelled bytes ≡ Err (TopoFault.Shape f) }
{}

/// Of a text with the shape of a topology, a fault is told exactly where the rule of its number is broken and
/// every rule with a lesser number is kept.
pub fn first_broken_rule()
    ensures only { (bytes : List ℕ) (t : Topology) (e : TopoFault) → Says shape_of bytes t → spelled bytes ≡ Err e → KeepsBelow (rules t) (number_of e) × (Keeps (rules t) (number_of e) → ⊥) }
    ensures all { (bytes : List ℕ) (t : Topology) (k : ℕ) → Says shape_of bytes t → KeepsBelow (rules t) k → (Keeps (rules t) k → ⊥) → (e : TopoFault) × (spelled bytes ≡ Err e) × (number_of e ≡ k) }
{}
