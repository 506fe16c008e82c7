//! Lines of a class, about a tag.
ghost use Rattle.std.specs.Prelude.{◌≡◌, ℕ};
ghost use Rattle.net_base.specs.declared.numbers.Tag.{Tag as PlainTag};

use config_base::{Export, Import};
use net_base::Tag;

/// A line of a neighbour's block, of a class and about a tag.
pub trait TagLine: Copy + Drop {
    /// Its class.
    ghost class_of: { Self → ℕ };

    /// Its tag.
    ghost tag_of: { Self → PlainTag };

    /// The line in another class.
    ghost put: { ℕ → Self → Self };

    /// The class of the line.
    fn class(&self) -> u32
        ensures { result ≡ class_of self.now };

    /// The tag that the line is about.
    fn tag(&self) -> Tag
        ensures { result ≡ tag_of self.now };

    /// The same line in another class.
    fn in_class(&self, class: u32) -> Self
        ensures { result ≡ put class self.now };
}

impl TagLine for Import {
    ghost use Rattle.stage_blocks.specs.Merging.{put_import};

    ghost class_of = { λ r. r.class };

    ghost tag_of = { λ r. r.tag };

    ghost put = { put_import };

    fn class(&self) -> u32 {
        self.class
    }

    fn tag(&self) -> Tag {
        self.tag
    }

    fn in_class(&self, class: u32) -> Import {
        Import {
            class,
            tag: self.tag,
            set: self.set,
            pref: self.pref,
        }
    }
}

impl TagLine for Export {
    ghost use Rattle.stage_blocks.specs.Merging.{put_export};

    ghost class_of = { λ e. e.class };

    ghost tag_of = { λ e. e.tag };

    ghost put = { put_export };

    fn class(&self) -> u32 {
        self.class
    }

    fn tag(&self) -> Tag {
        self.tag
    }

    fn in_class(&self, class: u32) -> Export {
        Export {
            class,
            tag: self.tag,
        }
    }
}
