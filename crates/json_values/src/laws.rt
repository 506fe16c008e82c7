//! What is printed is read again.
ghost use Rattle.std.specs.Prelude.{◌≡◌, ◌≤◌, ◌++◌, codes, Some};
ghost use Rattle.serde_json.specs.Data.{Data, depth};
ghost use Rattle.serde_json.specs.Written.{compact_text};
ghost use Rattle.json_values.specs.Json.{json_of};
ghost use Rattle.json_values.specs.Plain.{IsPlain};

/// The text without spaces of a value of whole numbers and texts, in which each object has its keys once and in order, is
/// read again as that value, also with a line feed behind it.
pub fn printed_values_are_read()
    ensures { (d : Data) → IsPlain d → depth d ≤ 127 → json_of (compact_text d ++ codes "\n") ≡ Some d }
{}
