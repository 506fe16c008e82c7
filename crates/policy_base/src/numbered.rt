//! Statements by their numbers.
ghost use Rattle.std.specs.Prelude.{◌≡◌, option_map};
ghost use Rattle.policy_base.specs.Policies.{policy_of, plain_statement, statement_at as plain_statement_at};

use crate::{Policy, Statement};

/// The statement with a number: 1 is the first. None for 0, and past the last.
pub fn statement_at(policy: &Policy, number: u32) -> Option<&Statement>
    ensures { option_map (λ s. plain_statement s.now) result ≡ plain_statement_at (policy_of policy.now) number }
{
    let statements = policy.statements();
    let number = number as usize;
    if number == 0 || number > statements.len() {
        return None;
    }
    Some(&statements[number - 1])
}
