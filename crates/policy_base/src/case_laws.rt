//! Laws of the cases of a policy: each has a statement, and its origins are all peers or else routers. There is no code here.

ghost use Rattle.std.specs.Prelude.{◌≡◌, ℕ, Some, slice_get};
ghost use Rattle.net_base.specs.Network.{PlainNet};
ghost use Rattle.policy_base.specs.declared.case.Case.{Case};
ghost use Rattle.policy_base.specs.Cases.{case_list};
ghost use Rattle.policy_base.specs.Policies.{PlainPolicy, PlainStatement, statement_at};
ghost use Rattle.policy_base.specs.CaseNumbers.{FitsOrigins, OriginsAreRouters};

/// Each case of a policy is of a statement of it.
pub fn cases_have_statements()
    ensures { (net : PlainNet) (policy : PlainPolicy) (k : ℕ) (c : Case) → slice_get (case_list net policy) k ≡ Some c
        → (s : PlainStatement) × (statement_at policy c.statement ≡ Some s) }
{}

/// Where each `originate` item names routers alone, the origins of each case are all peers of the network, or routers of it.
pub fn cases_fit_their_origins()
    ensures { (net : PlainNet) (policy : PlainPolicy) (k : ℕ) (c : Case) → OriginsAreRouters net policy.origins
        → slice_get (case_list net policy) k ≡ Some c → FitsOrigins net c }
{}
