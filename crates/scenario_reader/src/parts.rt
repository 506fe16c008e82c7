//! The parts that a fault can name.

/// A part of a scenario text.
#[derive(Clone, Copy, Debug, PartialEq, Eq)]
pub enum Field {
    /// The object of the text.
    Top,
    /// The prefix.
    Prefix,
    /// The dead locations.
    Dead,
    /// The dead links.
    DeadLinks,
    /// The silent sessions.
    Silent,
}

impl Field {
    ghost use Rattle.std.specs.Prelude.{◌≡◌};
    ghost use Rattle.scenario_reader.specs.Parts.{field_word};

    /// The word of the part.
    pub fn word(self) -> &'static [u8]
        ensures { result.now ≡ field_word self }
    {
        match self {
            Field::Top => b"top",
            Field::Prefix => b"prefix",
            Field::Dead => b"dead",
            Field::DeadLinks => b"dead_links",
            Field::Silent => b"silent",
        }
    }
}
