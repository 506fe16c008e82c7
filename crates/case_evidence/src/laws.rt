//! Laws of accepted cases, each the contract of a function without a body.
ghost use Rattle.std.specs.Prelude.{◌≡◌, ◌⊎◌, ℕ};
ghost use Rattle.net_base.specs.Network.{PlainNet};
ghost use Rattle.policy_base.specs.declared.case.Case.{Case};
ghost use Rattle.policy_base.specs.Policies.{PlainStatement};
ghost use Rattle.case_core.specs.declared.refusal.CompileRefusal.{CompileRefusal};
ghost use Rattle.case_core.specs.declared.refusal.CompileRefusal.TheVariants.{NoMemory};
ghost use Rattle.case_evidence.specs.declared.accepted.AcceptedCase.{AcceptedCase};
ghost use Rattle.case_evidence.specs.Accepted.{IsAccepted, IsCaseCause};

/// Where a case is accepted, nothing refuses it: so each refusal comes exactly where its cause applies.
pub fn accepted_cases_are_not_refused()
    ensures { (net : PlainNet) (number room : ℕ) (s : PlainStatement) (c : Case) (given : AcceptedCase) (e : CompileRefusal) → IsAccepted net room s c given
        → IsCaseCause net number room s c e → e ≡ NoMemory }
{}

/// A case is accepted with one graph and one list of numbers.
pub fn accepted_cases_are_one()
    ensures { (net : PlainNet) (room : ℕ) (s : PlainStatement) (c : Case) (given other : AcceptedCase) → IsAccepted net room s c given → IsAccepted net room s c other → given ≡ other }
{}

/// A case is refused for one cause, if memory is not refused.
pub fn case_causes_exclude_one_another()
    ensures { (net : PlainNet) (number room : ℕ) (s : PlainStatement) (c : Case) (e f : CompileRefusal) → IsCaseCause net number room s c e
        → IsCaseCause net number room s c f → (e ≡ NoMemory) ⊎ (f ≡ NoMemory) ⊎ (e ≡ f) }
{}
