//! The automata that are kept for the statements of a policy.
ghost use Rattle.std.specs.Prelude.{◌≡◌, ◌-◌, ◌≤◌, IfOk, None, Some, length, replicate, slice_get, slice_set};
ghost use Rattle.net_base.specs.Network.{PlainNet};
ghost use Rattle.policy_base.specs.Policies.{policy_of};
ghost use Rattle.case_core.specs.Automata.{AllFit};

use crate::automata::StatementAutomata;
use policy_base::Policy;
use std::alloc::{AllocError, Global};

/// The automata of a policy's statements: each is made for the first case of its statement, and there for the later ones.
///
/// However many statements there are, few states are held, as is reckoned by hand and said by no clause. Each state of an
/// automaton but the first and the dead one is that of a node, and a node is where a walk starts or a step ends: so all automata
/// together hold no more states than the cases have starts and steps, and two for each statement. Of the steps no more than
/// 131,072 are accepted.
#[derive(Drop)]
pub struct KeptAutomata {
    /// A place for each statement.
    pub(crate) of: Vec<Option<StatementAutomata>>,
}

// So many places without an automaton.
fn no_automata(alloc: Global, count: usize) -> Result<Vec<Option<StatementAutomata>>, AllocError>
    ensures { IfOk result (λ all. all.items ≡ replicate count None) }
{
    let mut all = Vec::new(alloc);
    for _ in 0..count {
        all.push(None)?;
    }
    Ok(all)
}

impl KeptAutomata {
    /// A place for each statement of a policy, and no automaton yet.
    pub fn new(alloc: Global, policy: &Policy) -> Result<KeptAutomata, AllocError>
        ensures { (net : PlainNet) → IfOk result (AllFit net (policy_of policy.now)) }
    {
        let of = no_automata(alloc, policy.statements().len())?;
        Ok(KeptAutomata { of })
    }

    /// The automaton at the place of the statement with this number, from 1, if there is one. The place is empty then.
    pub(crate) fn take(&mut self, statement: u32) -> Option<StatementAutomata>
        requires from_one { 1 ≤ statement }
        requires within { statement ≤ length self.old.of.items }
        ensures taken { slice_get self.old.of.items (statement - 1) ≡ Some result }
        ensures gone { self.new.of.items ≡ slice_set self.old.of.items (statement - 1) None }
    {
        self.of[statement as usize - 1].take()
    }

    /// Puts an automaton at the place of its statement.
    pub(crate) fn keep(&mut self, automata: StatementAutomata)
        requires from_one { 1 ≤ automata.statement }
        requires within { automata.statement ≤ length self.old.of.items }
        ensures { self.new.of.items ≡ slice_set self.old.of.items (automata.statement - 1) (Some automata) }
    {
        let place = automata.statement as usize - 1;
        self.of[place] = Some(automata);
    }
}
