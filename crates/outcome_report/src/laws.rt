//! A report is one.
ghost use Rattle.std.specs.Prelude.{◌≡◌, ℕ, List};
ghost use Rattle.net_base.specs.Network.{PlainNet};
ghost use Rattle.net_base.specs.Prefixes.{PlainPrefix};
ghost use Rattle.policy_base.specs.Policies.{PlainPolicy};
ghost use Rattle.config_base.specs.Configs.{PlainConfig};
ghost use Rattle.outcome_report.specs.Lines.{Shown};
ghost use Rattle.outcome_report.specs.Report.{IsReport};

/// What is shown for a prefix has one report.
pub fn reports_are_one()
    ensures { (net : PlainNet) (policy : PlainPolicy) (config : PlainConfig) (p : PlainPrefix) (shown : Shown) (a b : List ℕ)
        → IsReport net policy config p shown a → IsReport net policy config p shown b → a ≡ b }
{}
