//! Which evidence a text spells.
ghost use Rattle.std.specs.List.{AllByRecursion};
ghost use Rattle.json_values.specs.Json.{json_of};
ghost use Rattle.serde_json.specs.View.{view};
ghost use Rattle.net_base.specs.Gives.{GivesUnless};
ghost use Rattle.net_base.specs.Steps.{or_fault};
ghost use Rattle.evidence_text.specs.Ranges.{HasRanges};
ghost use Rattle.evidence_text.specs.Spelled.{judged, spelled};

use crate::fault::EvidenceFault;
use crate::judge::{are_placed, evidence, numbered};
use crate::raw::RawEvidence;
use crate::shape::shape;
use crate::tokens::read_tokens;
use evidence_base::Evidence;
use json_values::{JsonFault, json_value};
use serde_json::Value;
use std::alloc::Global;

// The JSON value that the bytes spell.
fn value_of(alloc: Global, bytes: &[u8]) -> Result<Value, EvidenceFault>
    ensures { GivesUnless EvidenceFault.NoMemory view result (or_fault EvidenceFault.NotJson (json_of bytes.now)) }
{
    match json_value(alloc, bytes) {
        Ok(value) => Ok(value),
        Err(JsonFault::NotJson) => Err(EvidenceFault::NotJson),
        Err(JsonFault::NoMemory) => Err(EvidenceFault::NoMemory),
    }
}

// The evidence of what has the shape, or the least rule that is broken.
#[tactic(auto, unfolding(crate::specs::Spelled::judged))]
fn judge(alloc: Global, raw: &RawEvidence) -> Result<Evidence, EvidenceFault>
    requires { AllByRecursion HasRanges raw.now.cases }
    ensures { GivesUnless EvidenceFault.NoMemory (λ evidence. evidence.cases) result (judged raw.now) }
{
    let text = numbered(alloc, raw)?;
    if !are_placed(text.cases.as_slice()) {
        return Err(EvidenceFault::Place);
    }
    if text.version != 1 {
        return Err(EvidenceFault::Version);
    }
    evidence(alloc, text.cases)
}

/// The evidence that the bytes spell, or the least rule that they break. Any bytes are read or refused, in time and
/// memory in proportion to their number. Evidence as it is printed is read from its tokens; of any other text the JSON
/// value is made, which takes far more memory than what it says and is given back before the rules are judged.
#[tactic(auto, unfolding(crate::specs::Spelled::spelled))]
pub fn read_evidence(alloc: Global, bytes: &[u8]) -> Result<Evidence, EvidenceFault>
    ensures exact { GivesUnless EvidenceFault.NoMemory (λ evidence. evidence.cases) result (spelled bytes.now) }
{
    if let Some(raw) = read_tokens(alloc, bytes) {
        return judge(alloc, &raw);
    }
    let raw = {
        let value = value_of(alloc, bytes)?;
        shape(alloc, &value)?
    };
    judge(alloc, &raw)
}
