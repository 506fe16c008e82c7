//! What lines are, in the words of their texts.
ghost use Rattle.std.specs.Prelude.{◌≡◌, ◌<◌, ◌^◌, ℕ, List, Ok};
ghost use Rattle.config_lines.specs.declared.edition.Edition.{Edition};
ghost use Rattle.config_lines.specs.declared.edition.Edition.TheVariants.{Second};
ghost use Rattle.config_lines.specs.declared.line.Line.{Line};
ghost use Rattle.config_lines.specs.LineText.{line_text, IsLine, IsNumbered};
ghost use Rattle.config_lines.specs.Lines.{line_of};

/// Bytes that are read as a line are the text of that line in the edition, which keeps the edition's rules: each line
/// has one text. Left out are `class` lines with a number over 4294967295.
pub fn lines_have_texts()
    ensures { (edition : Edition) (bytes : List ℕ) (count : ℕ) (l : Line) → line_of edition bytes count ≡ Ok l → IsNumbered l → (bytes ≡ line_text edition l) × IsLine edition count l }
{}

/// The text in an edition of a line that keeps the edition's rules is read as that line.
pub fn texts_are_lines()
    ensures { (edition : Edition) (count : ℕ) (l : Line) → count < 2 ^ 32 → IsLine edition count l → line_of edition (line_text edition l) count ≡ Ok l }
{}

/// The ranges of the first edition lie in those of the second: a line that keeps the rules of either keeps those of
/// the second.
pub fn lines_of_either_edition()
    ensures { (edition : Edition) (count : ℕ) (l : Line) → IsLine edition count l → IsLine Second count l }
{}
