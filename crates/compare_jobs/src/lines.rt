//! The lines of policies that aren't compared.
ghost use Rattle.std.specs.Prelude.{◌≡◌, ◌≢◌, IfOk};
ghost use Rattle.case_graphs.specs.Limits.{compile_refusal as refusal_of};
ghost use Rattle.case_graphs.specs.declared.refusal.LimitRefusal.TheVariants.{NoMemory as no_memory};
ghost use Rattle.refusal_lines.specs.RefusalLines.{named_refusal_line as named_line};
ghost use Rattle.compare_jobs.specs.Refused.{IsLimit, refusal_line as line_of, too_many_pairs};

use case_graphs::{LimitRefusal, compile_refusal};
use compare_lines::push_number_or_none;
use comparison_maker::ComparisonRefusal;
use input_output::NoMemory;
use net_base::Net;
use refusal_lines::named_refusal_line;
use std::alloc::Global;
use text_parts::push_bytes;

// The line of the limit that a case passes of the policy which these words name.
fn limit_line(
    alloc: Global,
    words: &[u8],
    net: &Net,
    refusal: LimitRefusal,
) -> Result<Vec<u8>, NoMemory>
    ensures limit { IfOk result (λ v. refusal ≢ no_memory) }
    ensures is { IfOk result (λ v. v.items ≡ named_line words.now net.now (refusal_of refusal)) }
{
    match refusal {
        LimitRefusal::NoMemory => Err(NoMemory),
        LimitRefusal::TooManyRanks(_, _)
        | LimitRefusal::TooManyStates(_)
        | LimitRefusal::TooManySteps(_) => {
            named_refusal_line(alloc, words, net, &compile_refusal(refusal))
        }
    }
}

// The line that the graphs of pairs have too many steps, from the pair with these statements on.
#[tactic(auto, unfolding(crate::specs::Refused::too_many_pairs))]
fn pairs_line(alloc: Global, old: Option<u32>, new: Option<u32>) -> Result<Vec<u8>, NoMemory>
    ensures { IfOk result (λ v. v.items ≡ too_many_pairs old new) }
{
    let mut line = Vec::new(alloc);
    push_bytes(&mut line, b"propane: refused 9 too-many-pairs statement ")?;
    push_number_or_none(&mut line, old)?;
    push_bytes(&mut line, b" now ")?;
    push_number_or_none(&mut line, new)?;
    push_bytes(&mut line, b"\n")?;
    Ok(line)
}

/// The line that tells why two policies aren't compared. Want of memory has none.
pub fn refusal_line(
    alloc: Global,
    net: &Net,
    refusal: ComparisonRefusal,
) -> Result<Vec<u8>, NoMemory>
    ensures limit { IfOk result (λ v. IsLimit refusal) }
    ensures is { IfOk result (λ v. v.items ≡ line_of net.now refusal) }
{
    match refusal {
        ComparisonRefusal::Old(limit) => limit_line(alloc, b"old ", net, limit),
        ComparisonRefusal::New(limit) => limit_line(alloc, b"new ", net, limit),
        ComparisonRefusal::TooManySteps(old, new) => pairs_line(alloc, old, new),
        ComparisonRefusal::NoMemory => Err(NoMemory),
    }
}
