//! Which command the words are: the first word names it, and it takes as many more as it has names and other words.
//!
//! The word of a command is `help_texts::Topic`'s alone. Here stands what a command makes of the words after its own
//! (`Command::of`), how many names it reads (`Command::name_count`), and how many words it takes besides
//! (`Command::other_words`). Commands that compile and then answer what a third text asks are one kind for each kind
//! of text, since all is alike of them but what they write.
ghost use Rattle.std.specs.Prelude.{◌≡◌, IfSome, length, map, string_bytes};
ghost use Rattle.propane_run.specs.Words.{
  words_are,
  topic_asked,
  command_of,
  sample_number,
  prefix_word,
  stage_word,
  help_of,
  name_count,
  other_words,
  places_of,
  renewing as renewing_by,
  HasNumber,
  IsWithin,
};

use compile_jobs::Part;
use help_texts::Topic;
use net_base::{Prefix, read_length, read_prefix};
use stage_check::Stage;

// The places in the words at which the names of a command stand: they follow its own word.
const PLACES: [u32; 6] = [1, 2, 3, 4, 5, 6];

/// What is asked of a compiled network in which something has failed: the third text is a scenario.
#[derive(Clone, Copy, Debug, PartialEq, Eq)]
pub enum Outlook {
    /// `replay TOPO POLICY SCENARIO`.
    Replay,
    /// `drain TOPO POLICY SCENARIO`.
    Drain,
    /// `whatif TOPO POLICY SCENARIO`.
    WhatIf,
    /// `multipath TOPO POLICY SCENARIO`.
    Multipath,
}

/// What is asked of a compiled network to which something happens: the third text is a list of events.
#[derive(Clone, Copy, Debug, PartialEq, Eq)]
pub enum Course {
    /// `trace TOPO POLICY EVENTS`.
    Trace,
    /// `settle TOPO POLICY EVENTS`.
    Settle,
    /// `waiting TOPO POLICY EVENTS`.
    Waiting,
}

/// A command, with what isn't a name in its words.
#[derive(Clone, Copy, Debug, PartialEq, Eq)]
pub enum Command {
    /// `compile TOPO POLICY`.
    Compile,
    /// `evidence TOPO POLICY`.
    Evidence,
    /// `check TOPO POLICY CONFIG EVIDENCE`.
    Check,
    /// `explain TOPO POLICY`.
    Explain,
    /// `sample N`: the number of leaves, from 2 to 96, without leading zeros.
    Sample(u16),
    /// `migrate CONFIG`.
    Migrate,
    /// `impact TOPO POLICY PREFIX`.
    Impact(Prefix),
    /// `routemap TOPO POLICY`.
    RouteMap,
    /// `checkmap CONFIG MAPS`.
    CheckMap,
    /// `lint TOPO POLICY`.
    Lint,
    /// `audit TOPO POLICY CONFIG EVIDENCE SCENARIO TABLES`.
    Audit,
    /// `help`, or `help COMMAND`.
    Help(Option<Topic>),
    /// `version`.
    Version,
    /// `promises TOPO POLICY`.
    Promises,
    /// `maps CONFIG`.
    Maps,
    /// `between BEFORE AFTER STAGE`.
    Between(Stage),
    /// `renew TOPO POLICY CONFIG`, or `renewal` of the same: the part that it writes.
    Renew(Part),
    /// `renew TOPO POLICY CONFIG EVIDENCE`, or `renewal` of the same: the part that it writes.
    Reuse(Part),
    /// `compare TOPO OLD NEW`.
    Compare,
    /// A command on a topology, a policy and a scenario.
    Under(Outlook),
    /// A command on a topology, a policy and events.
    After(Course),
}

impl Command {
    // The command that a word names, with what the words after it say besides names; None where one of them says nothing of
    // the kind. How many there are isn't asked here.
    fn of(topic: Topic, rest: &[String]) -> Option<Command>
        ensures { result ≡ command_of topic (map string_bytes rest.now) }
    {
        match topic {
            Topic::Compile => Some(Command::Compile),
            Topic::Evidence => Some(Command::Evidence),
            Topic::Check => Some(Command::Check),
            Topic::Explain => Some(Command::Explain),
            Topic::Replay => Some(Command::Under(Outlook::Replay)),
            Topic::Trace => Some(Command::After(Course::Trace)),
            Topic::Sample => Some(Command::Sample(number_of(rest.first()?.as_str())?)),
            Topic::Migrate => Some(Command::Migrate),
            Topic::Impact => Some(Command::Impact(prefix_of(rest.get(2)?.as_str())?)),
            Topic::RouteMap => Some(Command::RouteMap),
            Topic::CheckMap => Some(Command::CheckMap),
            Topic::Lint => Some(Command::Lint),
            Topic::Audit => Some(Command::Audit),
            Topic::Help => Some(Command::Help(help_topic(rest)?)),
            Topic::Version => Some(Command::Version),
            Topic::Drain => Some(Command::Under(Outlook::Drain)),
            Topic::Settle => Some(Command::After(Course::Settle)),
            Topic::Promises => Some(Command::Promises),
            Topic::WhatIf => Some(Command::Under(Outlook::WhatIf)),
            Topic::Multipath => Some(Command::Under(Outlook::Multipath)),
            Topic::Maps => Some(Command::Maps),
            Topic::Between => Some(Command::Between(stage_of(rest.get(2)?.as_str())?)),
            Topic::Renew => Some(renewing(Part::Config, rest)),
            Topic::Renewal => Some(renewing(Part::Evidence, rest)),
            Topic::Waiting => Some(Command::After(Course::Waiting)),
            Topic::Compare => Some(Command::Compare),
        }
    }

    /// How many names the command reads.
    pub fn name_count(&self) -> usize
        ensures { result ≡ name_count self.now }
    {
        match *self {
            Command::Sample(_) | Command::Help(_) | Command::Version => 0,
            Command::Migrate | Command::Maps => 1,
            Command::Compile
            | Command::Evidence
            | Command::Explain
            | Command::Impact(_)
            | Command::RouteMap
            | Command::CheckMap
            | Command::Lint
            | Command::Promises
            | Command::Between(_) => 2,
            Command::Renew(_) | Command::Compare | Command::Under(_) | Command::After(_) => 3,
            Command::Check | Command::Reuse(_) => 4,
            Command::Audit => 6,
        }
    }

    // How many words follow its names: the number of a sample, a prefix, the number of a stage, or the word of a command.
    fn other_words(&self) -> usize
        ensures { result ≡ other_words self.now }
    {
        match *self {
            Command::Sample(_)
            | Command::Impact(_)
            | Command::Between(_)
            | Command::Help(Some(_)) => 1,
            _ => 0,
        }
    }

    /// The places of these names in the words, in order.
    pub fn places(&self) -> &'static [u32]
        ensures { result.now ≡ places_of self.now }
    {
        &PLACES[..self.name_count()]
    }
}

// To renew, with the evidence of the old configuration where it is named.
fn renewing(part: Part, rest: &[String]) -> Command
    ensures { result ≡ renewing_by part (map string_bytes rest.now) }
{
    if rest.len() == 4 {
        Command::Reuse(part)
    } else {
        Command::Renew(part)
    }
}

// The number of a sample.
fn number_of(digits: &str) -> Option<u16>
    ensures { result ≡ sample_number digits.now }
{
    let number = read_length(digits.as_bytes())?;
    if number >= 2 && number <= 96 {
        Some(number)
    } else {
        None
    }
}

// The prefix that a word is.
fn prefix_of(word: &str) -> Option<Prefix>
    ensures { result ≡ prefix_word word.now }
{
    read_prefix(word.as_bytes()).ok()
}

// The stage that a word is.
fn stage_of(word: &str) -> Option<Stage>
    ensures { result ≡ stage_word word.now }
{
    match word {
        "1" => Some(Stage::One),
        "2" => Some(Stage::Two),
        _ => None,
    }
}

// Which command help is asked of.
fn help_topic(rest: &[String]) -> Option<Option<Topic>>
    ensures { result ≡ help_of (map string_bytes rest.now) }
{
    match rest {
        [] => Some(None),
        [word, ..] => Some(Some(Topic::named(word.as_str())?)),
    }
}

// The command of a word: its own, or one by which every program is asked for help and for its version.
fn topic_of(word: &str) -> Option<Topic>
    ensures { result ≡ topic_asked word.now }
{
    match word {
        "--help" | "-h" => Some(Topic::Help),
        "--version" => Some(Topic::Version),
        _ => Topic::named(word),
    }
}

/// The command that the words are, or None exactly where they are none. It takes no memory.
pub fn words_of(words: &[String]) -> Option<Command>
    ensures is { result ≡ words_are (map string_bytes words.now) }
    ensures within { IfSome result (λ c. IsWithin (length words.now) c) }
{
    match words {
        [word, rest @ ..] => {
            let command = Command::of(topic_of(word.as_str())?, rest)?;
            if rest.len() == command.name_count() + command.other_words() {
                Some(command)
            } else {
                None
            }
        }
        [] => None,
    }
}
