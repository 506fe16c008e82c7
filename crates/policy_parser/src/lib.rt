//! Reads a policy item by item: it has what each rule says of the items so far, and the policy while no rule is broken; at
//! the end it gives the policy of the text, or the least rule that the text breaks.
//!
//! `read_policy` is the call to begin with, and `spelled` of `specs/Spelled` says what it gives: of several rules that are
//! broken the first in their order decides, and of that one the first token that breaks it. A verdict is reported when the
//! whole text has been read, since a later item may break a rule that comes first.
//!
//! So each item goes into two things. `Told` has for each rule the first fault so far, and how much there is of what a
//! limit counts. `Kept` has the policy, until some rule is broken. Reading takes the memory of the policy so far, of the
//! names of its groups and of its originated prefixes. What stands behind an unknown name isn't looked at, as this rule
//! comes before all others that an item can break.
//!
//! Brackets are counted before anything is read, so that no tree of more than 256 calls is made or dropped. That bounds how
//! deep an expression can be: 321 levels, which `read_policy` promises (`depth`).
//!
//! `policies_that_are_read_fit` says that a policy which is read is one for its network: within the limits, over prefixes
//! and patterns, with routers alone as origins.
//!
//! It knows nothing of cases and expressions over locations.
#![tactic(auto)]

mod fitting;
mod group_items;
mod item_values;
mod once;
mod read;
mod told;
mod values;
mod verdicts;

pub use fitting::policies_that_are_read_fit;
pub use policy_tokens::{PolicyFault, Token, TokenKind, tokens};
pub use read::read_policy;
