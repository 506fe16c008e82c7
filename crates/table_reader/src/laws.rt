//! What the answers of `read_tables` mean, in the words of its rules.
ghost use Rattle.std.specs.Prelude.{◌≡◌, ℕ, List, Option, Some, Ok, Err, IsUtf8};
ghost use Rattle.serde_json.specs.Data.{Data};
ghost use Rattle.serde_json.specs.Read.{read};
ghost use Rattle.json_values.specs.TextRules.{Says, Keeps, KeepsBelow};
ghost use Rattle.net_base.specs.Network.{PlainNet};
ghost use Rattle.config_base.specs.declared.route.Route.{Route};
ghost use Rattle.table_reader.specs.Faults.{number_of};
ghost use Rattle.table_reader.specs.Laws.{rules};
ghost use Rattle.table_reader.specs.Shape.{Said, shape_of};
ghost use Rattle.table_reader.specs.Spelled.{spelled};

use crate::fault::TablesFault;

/// A text is read exactly where it is a JSON value that has the shape of tables and keeps all rules.
pub fn texts_that_are_read()
    ensures only { (net : PlainNet) (bytes : List ℕ) (routes : List (Option Route)) → spelled net bytes ≡ Ok routes
        → (said : List (Option Said)) × Says shape_of bytes said × KeepsBelow (rules net said) 6 }
    ensures all { (net : PlainNet) (bytes : List ℕ) (said : List (Option Said)) → Says shape_of bytes said → KeepsBelow (rules net said) 6
        → (routes : List (Option Route)) × (spelled net bytes ≡ Ok routes) }
{}

/// A text is told as no JSON exactly where no value is read of it.
pub fn texts_that_are_no_json()
    ensures only { (net : PlainNet) (bytes : List ℕ) → spelled net bytes ≡ Err TablesFault.NotJson → (d : Data) → IsUtf8 bytes → read bytes ≡ Some d → ⊥ }
    ensures all { (net : PlainNet) (bytes : List ℕ) → ((d : Data) → IsUtf8 bytes → read bytes ≡ Some d → ⊥) → spelled net bytes ≡ Err TablesFault.NotJson }
{}

/// A text has a fault of the shape exactly where it is a JSON value that has not the shape of tables; the fault names the
/// first entry that differs.
pub fn texts_of_another_shape()
    ensures only { (net : PlainNet) (bytes : List ℕ) (place : ℕ) → spelled net bytes ≡ Err (TablesFault.Shape place)
        → (d : Data) × IsUtf8 bytes × (read bytes ≡ Some d) × (shape_of d ≡ Err (TablesFault.Shape place)) }
    ensures all { (net : PlainNet) (bytes : List ℕ) (place : ℕ) (d : Data) → IsUtf8 bytes → read bytes ≡ Some d
        → shape_of d ≡ Err (TablesFault.Shape place) → spelled net bytes ≡ Err (TablesFault.Shape place) }
{}

/// Of a text with the shape of tables, a fault is told exactly where the rule of its number is broken and every rule with
/// a lesser number is kept.
pub fn first_broken_rule()
    ensures only { (net : PlainNet) (bytes : List ℕ) (said : List (Option Said)) (e : TablesFault) → Says shape_of bytes said
        → spelled net bytes ≡ Err e → KeepsBelow (rules net said) (number_of e) × (Keeps (rules net said) (number_of e) → ⊥) }
    ensures all { (net : PlainNet) (bytes : List ℕ) (said : List (Option Said)) (k : ℕ) → Says shape_of bytes said → KeepsBelow (rules net said) k
        → (Keeps (rules net said) k → ⊥) → (e : TablesFault) × (spelled net bytes ≡ Err e) × (number_of e ≡ k) }
{}
