//! Laws of the compiler, each the contract of a function without a body.
ghost use Rattle.std.specs.Prelude.{◌≡◌, ◌⊎◌, ℕ};
ghost use Rattle.net_base.specs.Network.{PlainNet};
ghost use Rattle.policy_base.specs.declared.case.Case.{Case};
ghost use Rattle.policy_base.specs.Policies.{PlainStatement};
ghost use Rattle.case_core.specs.declared.cases.CaseGraph.{CaseGraph};
ghost use Rattle.case_core.specs.declared.refusal.CompileRefusal.{CompileRefusal};
ghost use Rattle.case_core.specs.declared.refusal.CompileRefusal.TheVariants.{NoMemory};
ghost use Rattle.case_core.specs.Refusals.{IsCause, IsGraphOf};
ghost use Rattle.case_core.specs.Sources.{HavePaths, NoneMixed};

/// Where a graph is given for a case, nothing refuses it: so each refusal comes exactly where its cause applies.
pub fn given_cases_are_not_refused()
    ensures { (net : PlainNet) (number room : ℕ) (s : PlainStatement) (c : Case) (given : CaseGraph) (e : CompileRefusal) → IsGraphOf net room s c given
        → HavePaths net s c → NoneMixed net s c → IsCause net number room s c e → e ≡ NoMemory }
{}

/// A case is refused for one cause, if memory is not refused.
pub fn refusals_exclude_one_another()
    ensures { (net : PlainNet) (number room : ℕ) (s : PlainStatement) (c : Case) (e f : CompileRefusal) → IsCause net number room s c e
        → IsCause net number room s c f → (e ≡ NoMemory) ⊎ (f ≡ NoMemory) ⊎ (e ≡ f) }
{}
