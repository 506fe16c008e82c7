//! The numbers of a text, and what they make.
ghost use Rattle.std.specs.Prelude.{◌≡◌, ◌≤◌, ◌<◌, option_and_then, IfOk};
ghost use Rattle.std.specs.Option.{ForSome};
ghost use Rattle.serde_json.specs.Find.{as_number, as_u64};
ghost use Rattle.serde_json.specs.View.{view};
ghost use Rattle.net_base.specs.Gives.{GivesUnless};
ghost use Rattle.evidence_text.specs.Entries.{entry as entry_of, pair as pair_of, rank_of, within as in_range};
ghost use Rattle.evidence_text.specs.Shape.{number_of};

use crate::fault::EvidenceFault;
use crate::parts::Field;
use crate::raw::NodeEntry;
use graph_base::Node;
use net_base::{Loc, Tag};
use serde_json::Value;

/// The number, where it is in the range.
pub fn within(number: u64, least: u32, most: u32) -> Option<u32>
    ensures { result ≡ in_range least most number }
{
    if u64::from(least) <= number && number <= u64::from(most) {
        Some(number as u32)
    } else {
        None
    }
}

// The whole number that a JSON number is, where it is in the range.
fn whole(value: &Value, least: u32, most: u32) -> Option<u32>
    ensures { result ≡ option_and_then (λ n. option_and_then (in_range least most) (as_u64 n)) (as_number (view value.now)) }
{
    within(value.as_u64()?, least, most)
}

/// A JSON number, and which number it is where it is whole and in the range.
#[tactic(auto, unfolding(crate::specs::Shape::number_of))]
pub fn number(
    field: Field,
    least: u32,
    most: u32,
    value: &Value,
) -> Result<Option<u32>, EvidenceFault>
    ensures number { GivesUnless EvidenceFault.NoMemory (λ n. n) result (number_of field least most (view value.now)) }
    ensures range { IfOk result (λ n. ForSome n (λ k. k ≤ most)) }
{
    if value.is_number() {
        Ok(whole(value, least, most))
    } else {
        Err(EvidenceFault::Shape(field))
    }
}

// The rank that a number stands for: 0 says that there is none.
fn rank(number: u32) -> Option<u32>
    ensures { result ≡ rank_of number }
{
    if number == 0 { None } else { Some(number) }
}

/// The six numbers of a node.
#[derive(Clone, Copy)]
pub struct Numbers {
    /// The location, from 0 to 767.
    pub location: Option<u32>,
    /// Whether the node stands at a peer that hears: 1, or 0 where it doesn't.
    pub listener: Option<u32>,
    /// The rank, from 1, or 0 for none.
    pub rank: Option<u32>,
    /// The preference number.
    pub number: Option<u32>,
    /// The AS number of the tag.
    pub asn: Option<u32>,
    /// The value of the tag.
    pub value: Option<u32>,
}

impl Numbers {
    /// The node of these numbers, where all are in their ranges.
    #[tactic(auto, unfolding(crate::specs::Entries::entry))]
    pub fn entry(self) -> Option<NodeEntry>
        requires { ForSome self.location (λ l. l ≤ 767) }
        ensures { result ≡ entry_of self.location self.listener self.rank self.number self.asn self.value }
    {
        let location = self.location?;
        let listener = self.listener?;
        let rank_number = self.rank?;
        let number = self.number?;
        let asn = self.asn?;
        let value = self.value?;
        let node = Node {
            loc: Loc::new(location as u16),
            listener: listener == 1,
            rank: rank(rank_number),
        };
        let tag = Tag { asn, value };
        Some(NodeEntry { node, number, tag })
    }
}

/// The step of two numbers, where both are in their range.
#[tactic(auto, unfolding(crate::specs::Entries::pair))]
pub fn pair(from: Option<u32>, to: Option<u32>) -> Option<(u32, u32)>
    ensures { result ≡ pair_of from to }
{
    Some((from?, to?))
}
