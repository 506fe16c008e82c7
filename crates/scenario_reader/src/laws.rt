//! What the answers of `read_scenario` mean, in the words of its rules.
ghost use Rattle.std.specs.Prelude.{◌≡◌, ℕ, List, Some, Ok, Err, IsUtf8};
ghost use Rattle.serde_json.specs.Data.{Data};
ghost use Rattle.serde_json.specs.Read.{read};
ghost use Rattle.json_values.specs.TextRules.{Says, Keeps, KeepsBelow};
ghost use Rattle.net_base.specs.Network.{PlainNet};
ghost use Rattle.scenarios.specs.declared.scenario.Scenario.{Scenario};
ghost use Rattle.scenario_reader.specs.Faults.{number_of};
ghost use Rattle.scenario_reader.specs.Laws.{rules};
ghost use Rattle.scenario_reader.specs.Shape.{Said, shape_of};
ghost use Rattle.scenario_reader.specs.Spelled.{spelled};

use crate::fault::ScenarioFault;
use crate::parts::Field;

/// A text is read exactly where it is a JSON value that has the shape of a scenario and keeps all rules.
pub fn texts_that_are_read()
    ensures only { (net : PlainNet) (bytes : List ℕ) (scenario : Scenario) → spelled net bytes ≡ Ok scenario → (said : Said) × Says shape_of bytes said × KeepsBelow (rules net said) 7 }
    ensures all { (net : PlainNet) (bytes : List ℕ) (said : Said) → Says shape_of bytes said → KeepsBelow (rules net said) 7 → (scenario : Scenario) × (spelled net bytes ≡ Ok scenario) }
{}

/// A text is told as no JSON exactly where no value is read of it.
pub fn texts_that_are_no_json()
    ensures only { (net : PlainNet) (bytes : List ℕ) → spelled net bytes ≡ Err ScenarioFault.NotJson → (d : Data) → IsUtf8 bytes → read bytes ≡ Some d → ⊥ }
    ensures all { (net : PlainNet) (bytes : List ℕ) → ((d : Data) → IsUtf8 bytes → read bytes ≡ Some d → ⊥) → spelled net bytes ≡ Err ScenarioFault.NotJson }
{}

/// A text has a fault of the shape exactly where it is a JSON value that has not the shape of a scenario; the fault names the
/// first part that differs.
pub fn texts_of_another_shape()
    ensures only { (net : PlainNet) (bytes : List ℕ) (f : Field) → spelled net bytes ≡ Err (ScenarioFault.Shape f)
        → (d : Data) × IsUtf8 bytes × (read bytes ≡ Some d) × (shape_of d ≡ Err (ScenarioFault.Shape f)) }
    ensures all { (net : PlainNet) (bytes : List ℕ) (f : Field) (d : Data) → IsUtf8 bytes → read bytes ≡ Some d
        → shape_of d ≡ Err (ScenarioFault.Shape f) → spelled net bytes ≡ Err (ScenarioFault.Shape f) }
{}

/// Of a text with the shape of a scenario, a fault is told exactly where the rule of its number is broken and every rule with
/// a lesser number is kept.
pub fn first_broken_rule()
    ensures only { (net : PlainNet) (bytes : List ℕ) (said : Said) (e : ScenarioFault) → Says shape_of bytes said → spelled net bytes ≡ Err e
        → KeepsBelow (rules net said) (number_of e) × (Keeps (rules net said) (number_of e) → ⊥) }
    ensures all { (net : PlainNet) (bytes : List ℕ) (said : Said) (k : ℕ) → Says shape_of bytes said → KeepsBelow (rules net said) k
        → (Keeps (rules net said) k → ⊥) → (e : ScenarioFault) × (spelled net bytes ≡ Err e) × (number_of e ≡ k) }
{}
