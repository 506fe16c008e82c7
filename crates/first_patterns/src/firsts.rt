//! The patterns of a policy, found by the prefixes of which they are the first.
ghost use Rattle.std.specs.Prelude.{◌≡◌, ◌++◌, map, IfOk, OnOk};
ghost use Rattle.std.specs.Option.{option_and_then};
ghost use Rattle.policy_base.specs.Policies.{PlainPolicy, policy_of, plain_statement};
ghost use Rattle.first_patterns.specs.Firsts.{first_pattern, listed, place_for, placed, stated};

use crate::table::{Head, least_under, lengths_of, places_of};
use indexmap::IndexMap;
use input_output::NoMemory;
use net_base::{Pattern, Prefix};
use policy_base::Policy;
use std::alloc::Global;

/// A pattern, with the number of its statement, from 1.
#[derive(Clone, Copy, Debug, PartialEq, Eq, Hash)]
pub struct Stated {
    /// The number of the statement, from 1.
    pub statement: u32,
    /// The pattern.
    pub pattern: Pattern,
}

// Puts the patterns of a statement behind the others.
fn push_patterns(
    all: &mut Vec<Stated>,
    statement: u32,
    patterns: &[Pattern],
) -> Result<(), NoMemory>
    ensures { OnOk result (all.new.items ≡ all.old.items ++ map (stated statement) patterns.now) }
{
    for pattern in patterns {
        all.push(Stated {
            statement,
            pattern: *pattern,
        })?;
    }
    Ok(())
}

// The patterns of all statements, in order of the text.
fn patterns_of(alloc: Global, policy: &Policy) -> Result<Vec<Stated>, NoMemory>
    ensures { IfOk result (λ all. all.items ≡ listed (map plain_statement policy.now.statements) 1) }
{
    let mut all = Vec::new(alloc);
    let statements = policy.statements();
    for i in 0..statements.len() {
        push_patterns(&mut all, i as u32 + 1, statements[i].patterns.as_slice())?;
    }
    Ok(all)
}

/// The patterns of a policy, ready to be asked.
#[derive(Drop)]
pub struct FirstPatterns {
    patterns: Vec<Stated>,
    places: IndexMap<Head, usize>,
    lengths: Vec<bool>,
}

impl FirstPatterns {
    ghost use Rattle.first_patterns.specs.Tables.{AreFirsts};

    /// The patterns of a policy, put into a table.
    pub fn new(alloc: Global, policy: &Policy) -> Result<FirstPatterns, NoMemory>
        ensures { IfOk result (λ firsts. AreFirsts firsts (policy_of policy.now)) }
    {
        let patterns = patterns_of(alloc, policy)?;
        let places = places_of(alloc, &patterns)?;
        let lengths = lengths_of(alloc, &patterns)?;
        Ok(FirstPatterns {
            patterns,
            places,
            lengths,
        })
    }

    // The pattern at a place, from 1.
    fn at(&self, place: Option<usize>) -> Option<Stated>
        ensures { result ≡ option_and_then (placed self.now.patterns.items) place }
    {
        match place {
            None | Some(0) => None,
            Some(place) => self.patterns.get(place - 1).copied(),
        }
    }

    /// The place, from 1, of the first pattern of the policy that contains the prefix. None exactly where no statement governs it.
    pub fn place(&self, prefix: Prefix) -> Option<usize>
        ensures { (policy : PlainPolicy) → AreFirsts self.now policy → result ≡ place_for policy prefix }
    {
        least_under(&self.places, self.lengths.as_slice(), prefix)
    }

    /// The first pattern of the policy that contains the prefix. None exactly where no statement governs it.
    pub fn first(&self, prefix: Prefix) -> Option<Stated>
        ensures { (policy : PlainPolicy) → AreFirsts self.now policy → result ≡ first_pattern policy prefix }
    {
        self.at(self.place(prefix))
    }
}
