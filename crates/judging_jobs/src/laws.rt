//! What it means that a configuration was migrated.
ghost use Rattle.std.specs.Prelude.{◌≡◌, ◌<◌, ℕ, List, length};
ghost use Rattle.config_base.specs.Configs.{PlainConfig};
ghost use Rattle.config_lines.specs.declared.edition.Edition.TheVariants.{First};
ghost use Rattle.config_text.specs.ConfigText.{config_text};
ghost use Rattle.config_text.specs.Spelled.{SpellsIn, Spells};
ghost use Rattle.run_base.specs.Said.{text};
ghost use Rattle.judging_jobs.specs.Migrated.{IsMigrated, SaysOfText};

/// A text is written exactly where the old one spells a configuration in the first edition; then the new one spells the
/// same in the second.
pub fn lawful_texts_are_migrated()
    ensures only { (old new : List ℕ) → length old < 4294967295 → SaysOfText old (text new) → IsMigrated old new }
    ensures all { (old : List ℕ) (config : PlainConfig) → SpellsIn First old config → SaysOfText old (text (config_text config)) }
{}

/// Whatever configurations the old and the new text spell, they are one. So evidence that passes with the one passes with
/// the other.
pub fn migrated_texts_spell_one_configuration()
    ensures { (old new : List ℕ) (was is : PlainConfig) → IsMigrated old new → SpellsIn First old was → Spells new is → was ≡ is }
{}
