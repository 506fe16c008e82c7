//! Laws of findings, each the contract of a function without a body.
ghost use Rattle.std.specs.Prelude.{◌≡◌, ℕ, List};
ghost use Rattle.net_base.specs.Network.{PlainNet};
ghost use Rattle.policy_base.specs.Policies.{PlainPolicy};
ghost use Rattle.policy_lint.specs.declared.finding.Finding.{Finding};
ghost use Rattle.policy_lint.specs.Findings.{AreFindings};

/// A policy and its text have one list of findings.
pub fn one_list_of_findings_is_told()
    ensures { (bytes : List ℕ) (net : PlainNet) (policy : PlainPolicy) (one other : List Finding) → AreFindings bytes net policy one → AreFindings bytes net policy other → one ≡ other }
{}
