//! The rules that are checked.

/// A rule of evidence. Rules are judged in this order, each over all cases.
#[derive(Clone, Copy, Debug, PartialEq, Eq)]
pub enum CheckRule {
    /// The cases are those of the policy, and each is within the limits on alternatives, nodes and steps.
    Cases,
    /// The graph of a case has exactly the walks that can still be permitted, and each of its nodes ends one.
    Walks,
    /// Each node has the rank of the walks that end there.
    Ranks,
    /// Each node at a claimed router has a rank.
    Mixed,
    /// At a claimed router no node with a greater preference number has a worse rank.
    PrefRank,
    /// A node steps to each router to which a node steps that isn't over it, to a node of no less a number.
    PrefStep,
    /// No node that may loop back has a lesser number than the one to which a step leads.
    PrefLoop,
    /// A node is heard at each peer at which a node is heard that isn't over it, with no worse a rank.
    PrefListener,
    /// The tags of a router's nodes carry its AS number and differ; nodes at peers have none.
    Tags,
    /// The configuration is the one that is made of the evidence.
    ConfigDiffers,
}

impl CheckRule {
    ghost use Rattle.std.specs.Prelude.{◌≡◌};
    ghost use Rattle.evidence_verdicts.specs.Rules.{rule_number, rule_word};

    /// The number of the rule, from 1 to 10.
    pub fn number(self) -> u8
        ensures { result ≡ rule_number self }
    {
        match self {
            CheckRule::Cases => 1,
            CheckRule::Walks => 2,
            CheckRule::Ranks => 3,
            CheckRule::Mixed => 4,
            CheckRule::PrefRank => 5,
            CheckRule::PrefStep => 6,
            CheckRule::PrefLoop => 7,
            CheckRule::PrefListener => 8,
            CheckRule::Tags => 9,
            CheckRule::ConfigDiffers => 10,
        }
    }

    /// The word by which a line tells the rule.
    pub fn word(self) -> &'static str
        ensures { result.now ≡ rule_word self }
    {
        match self {
            CheckRule::Cases => "cases",
            CheckRule::Walks => "walks",
            CheckRule::Ranks => "ranks",
            CheckRule::Mixed => "mixed",
            CheckRule::PrefRank => "pref-rank",
            CheckRule::PrefStep => "pref-step",
            CheckRule::PrefLoop => "pref-loop",
            CheckRule::PrefListener => "pref-listener",
            CheckRule::Tags => "tags",
            CheckRule::ConfigDiffers => "config-differs",
        }
    }
}
