//! The automaton of a statement, which all its cases share.
ghost use Rattle.std.specs.Prelude.{◌≡◌, ◌≤◌, ℕ, IfErr, IfOk, IfSome, OnOk, Some};
ghost use Rattle.policy_base.specs.declared.limits.TheConstants.{ALTERNATIVES};
ghost use Rattle.policy_base.specs.declared.case.Case.{Case as PlainCase};
ghost use Rattle.policy_base.specs.Meaning.{alternative_count};
ghost use Rattle.policy_base.specs.Policies.{plain_statement, ranking_of};
ghost use Rattle.path_exprs.specs.Forward.{expressions};
ghost use Rattle.case_core.specs.Automata.{FitsStatement, IsAutomatonOf};
ghost use Rattle.case_core.specs.Refusals.{IsCause, IsPastLimit};

use crate::refusal::CompileRefusal;
use constraint_expand::{ExpandFault, expand};
use net_base::Net;
use path_automata::Automata;
use path_exprs::RankedExpr;
use path_exprs::limits::NODES;
use policy_base::{Case, Statement};
use std::alloc::Global;

/// The automaton of the statement with this number, from 1, with the states that its cases found so far.
#[derive(Drop)]
pub struct StatementAutomata {
    pub(crate) statement: u32,
    pub(crate) automata: Automata,
    /// How many nodes further graphs may have before the automaton is made anew. Each state but the first one and the
    /// dead one is that of a node, so no more states are held than two cases may find.
    pub(crate) nodes: usize,
}

// The expressions of a statement's alternatives.
fn expressions_of(
    alloc: Global,
    net: &Net,
    number: u32,
    statement: &Statement,
) -> Result<RankedExpr, CompileRefusal>
    ensures ranks { OnOk result (alternative_count (ranking_of statement.now.ranked) ≤ ALTERNATIVES) }
    ensures expressions { IfOk result (λ r. r ≡ expressions net.now (ranking_of statement.now.ranked)) }
    ensures limits { IfErr result IsPastLimit }
    ensures refused { (room : ℕ) (c : PlainCase) → IfErr result (λ e. IsCause net.now number room (plain_statement statement.now) c e) }
{
    match expand(alloc, &statement.ranked, net) {
        Ok(ranked) => Ok(ranked),
        Err(ExpandFault::TooManyRanks(count)) => Err(CompileRefusal::TooManyRanks(number, count)),
        Err(ExpandFault::NoMemory) => Err(CompileRefusal::NoMemory),
    }
}

// A new automaton of a case's statement, which has served no node yet.
fn new_automata(
    alloc: Global,
    net: &Net,
    number: u32,
    case: &Case,
    statement: &Statement,
) -> Result<StatementAutomata, CompileRefusal>
    ensures automata { IfOk result (λ made. IsAutomatonOf net.now (plain_statement statement.now) made.automata) }
    ensures statement { IfOk result (λ made. made.statement ≡ case.now.statement) }
    ensures limits { IfErr result IsPastLimit }
    ensures refused { (room : ℕ) (c : PlainCase) → IfErr result (λ e. IsCause net.now number room (plain_statement statement.now) c e) }
{
    let ranked = expressions_of(alloc, net, number, statement)?;
    let automata = Automata::new(alloc, &ranked, net)?;
    Ok(StatementAutomata {
        statement: case.statement,
        automata,
        nodes: NODES as usize,
    })
}

// The automaton that is kept, where it is of the case's statement and has served few nodes.
fn serving(kept: Option<StatementAutomata>, case: &Case) -> Option<StatementAutomata>
    ensures kept { IfSome result (λ given. kept ≡ Some given) }
    ensures statement { IfSome result (λ given. given.statement ≡ case.now.statement) }
{
    let kept = kept?;
    if kept.statement == case.statement && kept.nodes > 0 {
        Some(kept)
    } else {
        None
    }
}

/// The automaton of a case's statement, or why the case is refused: the one that is kept, where it is of this statement
/// and has served few nodes.
pub fn automata_for(
    alloc: Global,
    net: &Net,
    number: u32,
    case: &Case,
    statement: &Statement,
    kept: Option<StatementAutomata>,
) -> Result<StatementAutomata, CompileRefusal>
    requires kept { IfSome kept (FitsStatement net.now case.now.statement (plain_statement statement.now)) }
    ensures automata { IfOk result (λ made. IsAutomatonOf net.now (plain_statement statement.now) made.automata) }
    ensures statement { IfOk result (λ made. made.statement ≡ case.now.statement) }
    ensures limits { IfErr result IsPastLimit }
    ensures refused { (room : ℕ) (c : PlainCase) → IfErr result (λ e. IsCause net.now number room (plain_statement statement.now) c e) }
{
    match serving(kept, case) {
        Some(kept) => Ok(kept),
        None => new_automata(alloc, net, number, case, statement),
    }
}
