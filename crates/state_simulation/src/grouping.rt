//! Lists of members by group.
ghost use Rattle.std.specs.Prelude.{◌≡◌, ◌<◌, All, ℕ, IfOk, length};
ghost use Rattle.reach_prune.specs.Searches.{is_listed};
ghost use Rattle.relation_law.specs.Rounds.{is_in};

use bit_rows::{NodeList, empty_lists};
use std::alloc::{AllocError, Global};

/// For each of so many groups its members. A pair names a group and a member of it.
pub fn grouped(
    alloc: Global,
    groups: usize,
    pairs: &[(u32, u32)],
) -> Result<Vec<NodeList>, AllocError>
    requires { All (λ p. p.0 < groups) pairs.now }
    ensures groups { IfOk result (λ lists. length lists.items ≡ groups) }
    ensures members { IfOk result (λ lists. (a b : ℕ) → is_listed lists.items a b ≡ is_in pairs.now a b) }
{
    let mut lists = empty_lists(alloc, groups)?;
    for (group, member) in pairs {
        lists[*group as usize].push(*member)?;
    }
    Ok(lists)
}
