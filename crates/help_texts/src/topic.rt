//! The commands, each with its word and its page.
ghost use Rattle.std.specs.Prelude.{◌≡◌};
ghost use Rattle.help_texts.specs.Pages.{page_of, topic_named};

use crate::pages;

/// A command of the program, as its word names it.
#[derive(Clone, Copy, Debug, PartialEq, Eq)]
pub enum Topic {
    /// `compile`.
    Compile,
    /// `evidence`.
    Evidence,
    /// `check`.
    Check,
    /// `explain`.
    Explain,
    /// `replay`.
    Replay,
    /// `trace`.
    Trace,
    /// `sample`.
    Sample,
    /// `migrate`.
    Migrate,
    /// `impact`.
    Impact,
    /// `routemap`.
    RouteMap,
    /// `checkmap`.
    CheckMap,
    /// `lint`.
    Lint,
    /// `audit`.
    Audit,
    /// `help`.
    Help,
    /// `version`.
    Version,
    /// `drain`.
    Drain,
    /// `settle`.
    Settle,
    /// `promises`.
    Promises,
    /// `whatif`.
    WhatIf,
    /// `multipath`.
    Multipath,
    /// `maps`.
    Maps,
    /// `between`.
    Between,
    /// `renew`.
    Renew,
    /// `renewal`.
    Renewal,
    /// `waiting`.
    Waiting,
    /// `compare`.
    Compare,
}

impl Topic {
    /// The command of this word, or None where the word is that of no command.
    pub fn named(word: &str) -> Option<Topic>
        ensures { result ≡ topic_named word.now }
    {
        match word {
            "compile" => Some(Topic::Compile),
            "evidence" => Some(Topic::Evidence),
            "check" => Some(Topic::Check),
            "explain" => Some(Topic::Explain),
            "replay" => Some(Topic::Replay),
            "trace" => Some(Topic::Trace),
            "sample" => Some(Topic::Sample),
            "migrate" => Some(Topic::Migrate),
            "impact" => Some(Topic::Impact),
            "routemap" => Some(Topic::RouteMap),
            "checkmap" => Some(Topic::CheckMap),
            "lint" => Some(Topic::Lint),
            "audit" => Some(Topic::Audit),
            "help" => Some(Topic::Help),
            "version" => Some(Topic::Version),
            "drain" => Some(Topic::Drain),
            "settle" => Some(Topic::Settle),
            "promises" => Some(Topic::Promises),
            "whatif" => Some(Topic::WhatIf),
            "multipath" => Some(Topic::Multipath),
            "maps" => Some(Topic::Maps),
            "between" => Some(Topic::Between),
            "renew" => Some(Topic::Renew),
            "renewal" => Some(Topic::Renewal),
            "waiting" => Some(Topic::Waiting),
            "compare" => Some(Topic::Compare),
            _ => None,
        }
    }

    /// Its page: its words, what it reads and writes, its statuses and an example.
    pub fn page(self) -> &'static str
        ensures { result.now ≡ page_of self }
    {
        match self {
            Topic::Compile => pages::COMPILE,
            Topic::Evidence => pages::EVIDENCE,
            Topic::Check => pages::CHECK,
            Topic::Explain => pages::EXPLAIN,
            Topic::Replay => pages::REPLAY,
            Topic::Trace => pages::TRACE,
            Topic::Sample => pages::SAMPLE,
            Topic::Migrate => pages::MIGRATE,
            Topic::Impact => pages::IMPACT,
            Topic::RouteMap => pages::ROUTEMAP,
            Topic::CheckMap => pages::CHECKMAP,
            Topic::Lint => pages::LINT,
            Topic::Audit => pages::AUDIT,
            Topic::Help => pages::HELP,
            Topic::Version => pages::VERSION_PAGE,
            Topic::Drain => pages::DRAIN,
            Topic::Settle => pages::SETTLE,
            Topic::Promises => pages::PROMISES,
            Topic::WhatIf => pages::WHATIF,
            Topic::Multipath => pages::MULTIPATH,
            Topic::Maps => pages::MAPS,
            Topic::Between => pages::BETWEEN,
            Topic::Renew => pages::RENEW,
            Topic::Renewal => pages::RENEWAL,
            Topic::Waiting => pages::WAITING,
            Topic::Compare => pages::COMPARE,
        }
    }
}
