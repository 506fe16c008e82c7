//! Laws of the compiler, each the contract of a function without a body.
ghost use Rattle.std.specs.Prelude.{◌≡◌, ◌⊎◌, ℕ, List};
ghost use Rattle.net_base.specs.Network.{IsNet, PlainNet};
ghost use Rattle.policy_base.specs.Policies.{IsPolicy, PlainPolicy};
ghost use Rattle.graph_base.specs.declared.refutation.Refutation.{Refutation};
ghost use Rattle.graph_base.specs.Graphs.{PlainGraph};
ghost use Rattle.config_base.specs.Configs.{PlainConfig};
ghost use Rattle.evidence_base.specs.Made.{PlainCaseEvidence};
ghost use Rattle.evidence_law.specs.Passes.{Passes};
ghost use Rattle.policy_base.specs.CaseNumbers.{OriginsAreRouters};
ghost use Rattle.case_core.specs.declared.refusal.CompileRefusal.{CompileRefusal};
ghost use Rattle.case_core.specs.declared.refusal.CompileRefusal.TheVariants.{NoEvidence, NoMemory};
ghost use Rattle.compile_core.specs.Compiling.{IsMade, IsRefusal};

/// What is made of a policy, which is within the limits, passes: so the configuration is right.
pub fn made_evidence_passes()
    ensures { (net : PlainNet) (policy : PlainPolicy) (config : PlainConfig) (cs : List PlainCaseEvidence) → IsNet net → IsPolicy policy → OriginsAreRouters net policy.origins
        → IsMade net policy config cs → Passes net policy config cs }
{}

/// Where something is made of a policy, nothing refuses it: so each refusal comes exactly where its cause applies.
pub fn made_policies_are_not_refused()
    ensures { (net : PlainNet) (policy : PlainPolicy) (config : PlainConfig) (cs : List PlainCaseEvidence) (e : CompileRefusal) → IsMade net policy config cs
        → IsRefusal net policy e → e ≡ NoMemory }
{}

/// Where a policy is refused since no numbers meet the rules for a case, no evidence passes for it, over whatever graphs.
pub fn policies_without_numbers_have_no_evidence()
    ensures { (net : PlainNet) (policy : PlainPolicy) (config : PlainConfig) (cs : List PlainCaseEvidence) (number : ℕ) (g : PlainGraph) (r : Refutation)
        → IsRefusal net policy (NoEvidence number g r) → ¬ Passes net policy config cs }
{}

/// A policy is refused for one cause, if memory is not refused.
pub fn refusals_of_policies_exclude_one_another()
    ensures { (net : PlainNet) (policy : PlainPolicy) (e f : CompileRefusal) → IsRefusal net policy e → IsRefusal net policy f → (e ≡ NoMemory) ⊎ (f ≡ NoMemory) ⊎ (e ≡ f) }
{}

/// There is one evidence for a policy, and one configuration.
pub fn made_pairs_are_one()
    ensures { (net : PlainNet) (policy : PlainPolicy) (config other : PlainConfig) (cs ds : List PlainCaseEvidence) → IsMade net policy config cs
        → IsMade net policy other ds → (cs ≡ ds) × (config ≡ other) }
{}
