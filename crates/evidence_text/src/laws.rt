//! What the answers of `read_evidence` mean, in the words of its rules.
ghost use Rattle.std.specs.Prelude.{◌≡◌, ℕ, List, Some, Ok, Err, IsUtf8};
ghost use Rattle.std.specs.List.{AllByRecursion};
ghost use Rattle.serde_json.specs.Data.{Data};
ghost use Rattle.serde_json.specs.Read.{read};
ghost use Rattle.json_values.specs.TextRules.{Says, Keeps, KeepsBelow};
ghost use Rattle.evidence_base.specs.Evidence.{IsCaseEvidence};
ghost use Rattle.evidence_base.specs.Made.{PlainCaseEvidence};
ghost use Rattle.evidence_text.specs.declared.raw.RawEvidence.{RawEvidence};
ghost use Rattle.evidence_text.specs.Faults.{number_of};
ghost use Rattle.evidence_text.specs.Laws.{IsEvidenceOf, rules};
ghost use Rattle.evidence_text.specs.Shape.{shape_of};
ghost use Rattle.evidence_text.specs.Spelled.{numbered, spelled};
ghost use Rattle.evidence_text.specs.Text.{evidence_text};
ghost use Rattle.evidence_text.specs.Writable.{IsWritable};

use crate::fault::EvidenceFault;
use crate::parts::Field;

/// A text is read exactly where it is a JSON value that has the shape of evidence and keeps all rules. What it spells is
/// what the text says, and keeps the rules of evidence.
pub fn texts_that_are_read()
    ensures only { (bytes : List ℕ) (cs : List PlainCaseEvidence) → spelled bytes ≡ Ok cs → (raw : RawEvidence) × Says shape_of bytes raw × KeepsBelow (rules raw) 6 × IsEvidenceOf raw cs }
    ensures all { (bytes : List ℕ) (raw : RawEvidence) (cs : List PlainCaseEvidence) → Says shape_of bytes raw → KeepsBelow (rules raw) 6 → IsEvidenceOf raw cs → spelled bytes ≡ Ok cs }
    ensures rules { (bytes : List ℕ) (cs : List PlainCaseEvidence) → spelled bytes ≡ Ok cs → AllByRecursion IsCaseEvidence cs }
{}

/// A text is told as no JSON exactly where no value is read of it.
pub fn texts_that_are_no_json()
    ensures only { (bytes : List ℕ) → spelled bytes ≡ Err EvidenceFault.NotJson → (d : Data) → IsUtf8 bytes → read bytes ≡ Some d → ⊥ }
    ensures all { (bytes : List ℕ) → ((d : Data) → IsUtf8 bytes → read bytes ≡ Some d → ⊥) → spelled bytes ≡ Err EvidenceFault.NotJson }
{}

/// A text has a fault of the shape exactly where it is a JSON value that has not the shape of evidence; the fault names
/// the first part that differs, whatever the numbers are.
pub fn texts_of_another_shape()
    ensures only { (bytes : List ℕ) (f : Field) → spelled bytes ≡ Err (EvidenceFault.Shape f) → (d : Data) × IsUtf8 bytes × (read bytes ≡ Some d) × (shape_of d ≡ Err (EvidenceFault.Shape f)) }
    ensures all { (bytes : List ℕ) (f : Field) (d : Data) → IsUtf8 bytes → read bytes ≡ Some d → shape_of d ≡ Err (EvidenceFault.Shape f) → spelled bytes ≡ Err (EvidenceFault.Shape f) }
{}

/// A text has a fault of a number exactly where it has the shape of evidence and a number isn't whole or is out of its
/// range; the fault names the first part that holds one.
pub fn texts_with_numbers_out_of_range()
    ensures only { (bytes : List ℕ) (f : Field) → spelled bytes ≡ Err (EvidenceFault.Number f) → (raw : RawEvidence) × Says shape_of bytes raw × (numbered raw ≡ Err (EvidenceFault.Number f)) }
    ensures all { (bytes : List ℕ) (f : Field) (raw : RawEvidence) → Says shape_of bytes raw → numbered raw ≡ Err (EvidenceFault.Number f) → spelled bytes ≡ Err (EvidenceFault.Number f) }
{}

/// Of a text with the shape of evidence, a fault is told exactly where the rule of its number is broken and every rule
/// with a lesser number is kept.
pub fn first_broken_rule()
    ensures only { (bytes : List ℕ) (raw : RawEvidence) (e : EvidenceFault) → Says shape_of bytes raw → spelled bytes ≡ Err e
        → KeepsBelow (rules raw) (number_of e) × (Keeps (rules raw) (number_of e) → ⊥) }
    ensures all { (bytes : List ℕ) (raw : RawEvidence) (k : ℕ) → Says shape_of bytes raw → KeepsBelow (rules raw) k → (Keeps (rules raw) k → ⊥)
        → (e : EvidenceFault) × (spelled bytes ≡ Err e) × (number_of e ≡ k) }
{}

/// The text of evidence spells that evidence.
pub fn printed_evidence_is_read()
    ensures { (cs : List PlainCaseEvidence) → AllByRecursion IsWritable cs → spelled (evidence_text cs) ≡ Ok cs }
{}
