//! The parts that a fault can name, and what it can count.

/// A part of a topology text.
#[derive(Clone, Copy, Debug, PartialEq, Eq)]
pub enum Field {
    /// The object of the text.
    Top,
    /// An entry of `routers`, `peers` or `links`.
    Entry,
    /// The array of routers.
    Routers,
    /// The array of peers.
    Peers,
    /// The array of links.
    Links,
    /// The name of an entry.
    Name,
    /// The AS number of an entry.
    Asn,
    /// The BGP identifier of an entry.
    Id,
}

impl Field {
    ghost use Rattle.std.specs.Prelude.{◌≡◌};
    ghost use Rattle.topology.specs.Parts.{field_word};

    /// The word of the part.
    pub fn word(self) -> &'static [u8]
        ensures { result.now ≡ field_word self }
    {
        match self {
            Field::Top => b"top",
            Field::Entry => b"entry",
            Field::Routers => b"routers",
            Field::Peers => b"peers",
            Field::Links => b"links",
            Field::Name => b"name",
            Field::Asn => b"asn",
            Field::Id => b"id",
        }
    }
}

/// What a count of a topology counts.
#[derive(Clone, Copy, Debug, PartialEq, Eq)]
pub enum Kind {
    /// Routers.
    Routers,
    /// Peers.
    Peers,
    /// Links.
    Links,
}

impl Kind {
    ghost use Rattle.std.specs.Prelude.{◌≡◌};
    ghost use Rattle.topology.specs.Parts.{kind_word};

    /// The word of what is counted.
    pub fn word(self) -> &'static [u8]
        ensures { result.now ≡ kind_word self }
    {
        match self {
            Kind::Routers => b"routers",
            Kind::Peers => b"peers",
            Kind::Links => b"links",
        }
    }
}
