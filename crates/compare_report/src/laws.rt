//! What the text of a comparison tells, each the contract of a function without a body.
ghost use Rattle.std.specs.Prelude.{◌≡◌, ◌<◌, ◌^◌, ℕ, List, length};
ghost use Rattle.std.specs.List.{count_by};
ghost use Rattle.net_base.specs.Network.{PlainNet};
ghost use Rattle.policy_base.specs.Policies.{PlainPolicy};
ghost use Rattle.comparison.specs.Changed.{is_changed};
ghost use Rattle.comparison.specs.declared.values.ComparedPair.{ComparedPair as PlainPair};
ghost use Rattle.compare_report.specs.Changes.{compare_text, last_line};

/// The text is `cases N changed 0` exactly where no pair has changed.
pub fn texts_tell_whether_something_changed()
    ensures told { (net : PlainNet) (old new : PlainPolicy) (xs : List PlainPair) (n : ℕ) → length xs < 2 ^ 64 → n < 2 ^ 64
        → compare_text net old new xs ≡ last_line n 0 → count_by (is_changed net) xs ≡ 0 }
    ensures untold { (net : PlainNet) (old new : PlainPolicy) (xs : List PlainPair) → count_by (is_changed net) xs ≡ 0
        → compare_text net old new xs ≡ last_line (length xs) 0 }
{}
