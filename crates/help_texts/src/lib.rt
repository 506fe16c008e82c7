//! What the program says of itself: a line for each command, a page for each, the usage and the version.
//!
//! Each is one constant, and the definition of what a run writes names it (`help_text`, `version_text` of `specs/Pages`). So
//! a text isn't written twice, once in code and once in what is promised of it. `Topic` is a command as its word names it,
//! and the one place where the words of the commands stand: which words are which command is asked of it, and `help` finds
//! its page by it.
//!
//! All pages have one form: the usage, paragraphs, and the sections `reads`, `writes`, `status` and `example`, each of lines
//! with two blanks in front, none longer than 80 columns. A test of tools/ asks that form of each. So a manual page and
//! completions can be made of them. Words that are no command get the usage line alone, and `help` of such a word is no
//! command either.
//!
//! A reader begins with `help` and `version`. A new command needs a variant of `Topic`, its page, and its line in `COMMANDS`.
//!
//! It knows nothing of what a command does.
#![tactic(auto)]

ghost use Rattle.std.specs.Prelude.{◌≡◌};
ghost use Rattle.help_texts.specs.Pages.{help_text, version_text};

mod pages;
mod topic;

pub use pages::USAGE;
pub use topic::Topic;

/// What `help` writes: the page of a command, or a line for each.
pub fn help(topic: Option<Topic>) -> &'static str
    ensures { result.now ≡ help_text topic }
{
    match topic {
        Some(topic) => topic.page(),
        None => pages::COMMANDS,
    }
}

/// What `version` writes: the name, the version and the kit.
pub fn version() -> &'static str
    ensures { result.now ≡ version_text }
{
    pages::VERSION
}
