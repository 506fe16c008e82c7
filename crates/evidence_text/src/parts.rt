//! The parts that a fault can name.

/// A part of an evidence text.
#[derive(Clone, Copy, Debug, PartialEq, Eq)]
pub enum Field {
    /// The object of the text.
    Top,
    /// Its version.
    Version,
    /// The array of cases.
    Cases,
    /// A case.
    Case,
    /// The number of a case's statement.
    Statement,
    /// The prefixes of a case.
    Prefixes,
    /// The origins of a case.
    Origins,
    /// Whether a case is external.
    External,
    /// The nodes of a case.
    Nodes,
    /// The starts of a case.
    Starts,
    /// The steps of a case.
    Steps,
}

impl Field {
    ghost use Rattle.std.specs.Prelude.{◌≡◌};
    ghost use Rattle.evidence_text.specs.Parts.{field_word};

    /// The word of the part.
    pub fn word(self) -> &'static [u8]
        ensures { result.now ≡ field_word self }
    {
        match self {
            Field::Top => b"top",
            Field::Version => b"version",
            Field::Cases => b"cases",
            Field::Case => b"case",
            Field::Statement => b"statement",
            Field::Prefixes => b"prefixes",
            Field::Origins => b"origins",
            Field::External => b"external",
            Field::Nodes => b"nodes",
            Field::Starts => b"starts",
            Field::Steps => b"steps",
        }
    }
}
