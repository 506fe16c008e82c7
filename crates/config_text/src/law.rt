//! A text is the text of one configuration only.
ghost use Rattle.std.specs.Prelude.{◌≡◌, ◌++◌, ℕ, List, codes};
ghost use Rattle.std.specs.List.{flat_map};
ghost use Rattle.config_base.specs.Configs.{PlainConfig};
ghost use Rattle.config_lines.specs.Editions.{first_line};
ghost use Rattle.config_lines.specs.declared.edition.Edition.{Edition};
ghost use Rattle.config_lines.specs.declared.edition.Edition.TheVariants.{Second};
ghost use Rattle.config_text.specs.ConfigLines.{fed, lines};
ghost use Rattle.config_text.specs.ConfigText.{text_in, config_text};
ghost use Rattle.config_text.specs.Spelled.{IsLawful, HasLinesOf, SpellsIn, Spells};

/// Two configurations that one text spells in one edition are the same. So a text says all that there is to say of its
/// configuration, whoever reads it.
pub fn texts_spell_one_configuration()
    ensures { (edition : Edition) (bytes : List ℕ) (c d : PlainConfig) → SpellsIn edition bytes c → SpellsIn edition bytes d → c ≡ d }
{}

/// The text of a configuration is its first line and each of its lines, with their line feeds.
pub fn texts_are_lines()
    ensures { (edition : Edition) (c : PlainConfig) → text_in edition c ≡ first_line edition ++ codes "\n" ++ flat_map (fed edition) (lines c) }
{}

/// Every lawful configuration has a text in the second edition, so also one that was written in the first.
pub fn configurations_have_texts()
    ensures lines { (c : PlainConfig) → IsLawful c → HasLinesOf Second c }
    ensures texts { (c : PlainConfig) → IsLawful c → Spells (config_text c) c }
{}
