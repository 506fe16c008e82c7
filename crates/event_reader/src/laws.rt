//! What the answers of `read_events` mean, in the words of its rules.
ghost use Rattle.std.specs.Prelude.{◌≡◌, ℕ, List, Some, Ok, Err, IsUtf8};
ghost use Rattle.serde_json.specs.Data.{Data};
ghost use Rattle.serde_json.specs.Read.{read};
ghost use Rattle.json_values.specs.TextRules.{Says, Keeps, KeepsBelow};
ghost use Rattle.net_base.specs.Network.{PlainNet};
ghost use Rattle.event_reader.specs.declared.events.Events.{Events};
ghost use Rattle.event_reader.specs.Faults.{number_of};
ghost use Rattle.event_reader.specs.Laws.{rules};
ghost use Rattle.event_reader.specs.Shape.{Said, shape_of};
ghost use Rattle.event_reader.specs.Spelled.{spelled};

use crate::fault::EventsFault;

/// A text is read exactly where it is a JSON value that has the shape of an event text and keeps all rules.
pub fn texts_that_are_read()
    ensures only { (net : PlainNet) (bytes : List ℕ) (events : Events) → spelled net bytes ≡ Ok events → (said : Said) × Says shape_of bytes said × KeepsBelow (rules net said) 6 }
    ensures all { (net : PlainNet) (bytes : List ℕ) (said : Said) → Says shape_of bytes said → KeepsBelow (rules net said) 6 → (events : Events) × (spelled net bytes ≡ Ok events) }
{}

/// A text is told as no JSON exactly where no value is read of it.
pub fn texts_that_are_no_json()
    ensures only { (net : PlainNet) (bytes : List ℕ) → spelled net bytes ≡ Err EventsFault.NotJson → (d : Data) → IsUtf8 bytes → read bytes ≡ Some d → ⊥ }
    ensures all { (net : PlainNet) (bytes : List ℕ) → ((d : Data) → IsUtf8 bytes → read bytes ≡ Some d → ⊥) → spelled net bytes ≡ Err EventsFault.NotJson }
{}

/// A text has a fault of the shape exactly where it is a JSON value that has not the shape of an event text; the fault names the
/// first event that differs.
pub fn texts_of_another_shape()
    ensures only { (net : PlainNet) (bytes : List ℕ) (place : ℕ) → spelled net bytes ≡ Err (EventsFault.Shape place)
        → (d : Data) × IsUtf8 bytes × (read bytes ≡ Some d) × (shape_of d ≡ Err (EventsFault.Shape place)) }
    ensures all { (net : PlainNet) (bytes : List ℕ) (place : ℕ) (d : Data) → IsUtf8 bytes → read bytes ≡ Some d
        → shape_of d ≡ Err (EventsFault.Shape place) → spelled net bytes ≡ Err (EventsFault.Shape place) }
{}

/// Of a text with the shape of an event text, a fault is told exactly where the rule of its number is broken and every rule with
/// a lesser number is kept.
pub fn first_broken_rule()
    ensures only { (net : PlainNet) (bytes : List ℕ) (said : Said) (e : EventsFault) → Says shape_of bytes said → spelled net bytes ≡ Err e
        → KeepsBelow (rules net said) (number_of e) × (Keeps (rules net said) (number_of e) → ⊥) }
    ensures all { (net : PlainNet) (bytes : List ℕ) (said : Said) (k : ℕ) → Says shape_of bytes said → KeepsBelow (rules net said) k
        → (Keeps (rules net said) k → ⊥) → (e : EventsFault) × (spelled net bytes ≡ Err e) × (number_of e ≡ k) }
{}
