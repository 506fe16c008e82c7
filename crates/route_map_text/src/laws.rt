//! What lines of maps texts are, in the words of their texts.
ghost use Rattle.std.specs.Prelude.{◌≡◌, ◌<◌, ◌^◌, ℕ, List, Ok};
ghost use Rattle.route_map_text.specs.declared.line.MapLine.{MapLine};
ghost use Rattle.route_map_text.specs.MapLineText.{map_line_text, IsMapLine, IsNumbered};
ghost use Rattle.route_map_text.specs.MapLines.{map_line_of};

/// Bytes that are read as a line are the text of that line, which keeps the rules of lines: each line has one text.
/// Left out are lines with a number over 4294967295 that has no range.
pub fn lines_have_texts()
    ensures { (bytes : List ℕ) (count : ℕ) (l : MapLine) → map_line_of bytes count ≡ Ok l → IsNumbered l → (bytes ≡ map_line_text l) × IsMapLine count l }
{}

/// The text of a line that keeps the rules of lines is read as that line.
pub fn texts_are_lines()
    ensures { (count : ℕ) (l : MapLine) → count < 2 ^ 32 → IsMapLine count l → map_line_of (map_line_text l) count ≡ Ok l }
{}
