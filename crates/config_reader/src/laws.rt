//! What the answers of `read_config` and `read_config_1` mean.
ghost use Rattle.std.specs.Prelude.{◌≡◌, ◌<◌, ◌+◌, ◌∷◌, ◌++◌, ℕ, List, Ok, Err, length};
ghost use Rattle.config_base.specs.Configs.{PlainConfig};
ghost use Rattle.config_lines.specs.declared.edition.Edition.{Edition};
ghost use Rattle.config_text.specs.Spelled.{SpellsIn};
ghost use Rattle.config_reader.specs.FirstFault.{IsFirstFault};
ghost use Rattle.config_reader.specs.Reading.{opening};
ghost use Rattle.config_reader.specs.Text.{with_line, with_lines, spelled_in};
ghost use Rattle.config_reader.specs.declared.fault.ConfigFault.{ConfigFault};
ghost use Rattle.config_reader.specs.declared.reading.Reading.{Reading};

/// A text of an edition is read as a configuration exactly where it is the text of that configuration in the edition,
/// which keeps the rules of configurations and the edition's ranges. So a configuration has one text and a text one
/// configuration, and what is printed is read again.
pub fn texts_are_read()
    ensures only { (edition : Edition) (bytes : List ℕ) (c : PlainConfig) → length bytes < 4294967295 → spelled_in edition bytes ≡ Ok c → SpellsIn edition bytes c }
    ensures all { (edition : Edition) (bytes : List ℕ) (c : PlainConfig) → SpellsIn edition bytes c → spelled_in edition bytes ≡ Ok c }
{}

/// Of the lines behind the first one, a fault is told exactly where it is the first: the lines before it are taken,
/// and the line of the fault can't follow them, whatever comes behind it.
pub fn first_fault_of_a_text()
    ensures only { (edition : Edition) (texts : List (List ℕ)) (e : ConfigFault) → with_lines edition 2 opening texts ≡ Err e → IsFirstFault edition texts e }
    ensures all { (edition : Edition) (taken more : List (List ℕ)) (line : List ℕ) (r : Reading) (e : ConfigFault)
        → with_lines edition 2 opening taken ≡ Ok r → with_line edition (length taken + 2) r line ≡ Err e
        → with_lines edition 2 opening (taken ++ line ∷ more) ≡ Err e }
{}
