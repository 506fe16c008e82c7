//! The laws of expressions over locations, and of the expressions of calls and of ranked expressions; no code.
//!
//! Each law is the contract of a function without a body. Those of expressions alone:
//!
//! - A test decides which lists an expression holds (`membership_is_decided`).
//! - The normal form for a network holds the same lists of its locations (`normal_form_keeps_membership`), and its members ascend
//!   (`members_ascend`).
//! - The derivative takes off a location, and the reversal reverses the lists (`derivative_takes_off_a_location`,
//!   `reversal_reverses_lists`).
//!
//! Together they say that derivatives of reversed normal forms, one location after another from the origin end, find the first expression
//! that holds a list (`derivatives_decide`). So following states is reading the policy.
//!
//! Those of policies: a list of at least two locations is in the expression of an alternative exactly where it meets the alternative
//! (`alternatives_are_expressions`), and its rank is the place, from 1, of the first such expression (`ranks_are_first_places`). Lists of
//! one location are left out, since a walk has a source and an origin.
//!
//! It knows nothing of graphs.
#![tactic(auto)]

ghost use Rattle.std.specs.Prelude.{◌≡◌, ◌≤◌, ◌↔◌, ◌∷◌, [], ℕ, List, length, map, reverse, true};
ghost use Rattle.std.specs.List.{list_all};
ghost use Rattle.net_base.specs.Network.{IsNet, PlainNet, is_location};
ghost use Rattle.policy_base.specs.Meaning.{alternatives, rank_of};
ghost use Rattle.policy_base.specs.Policies.{Ranking};
ghost use Rattle.path_exprs.specs.Derivative.{derivative};
ghost use Rattle.path_exprs.specs.Expression.{Expression};
ghost use Rattle.path_exprs.specs.Forward.{expressions};
ghost use Rattle.path_exprs.specs.Membership.{Member, member};
ghost use Rattle.net_base.specs.NetSets.{locations};
ghost use Rattle.path_exprs.specs.Normal.{normal, reversed, sorted};
ghost use Rattle.path_exprs.specs.Order.{Ascends};
ghost use Rattle.path_exprs.specs.Runs.{along, first_with, start_of};

/// The test of membership holds exactly of the lists that are in an expression.
pub fn membership_is_decided()
    ensures { (e : Expression) (xs : List ℕ) → (member e xs ≡ true) ↔ Member e xs }
{}

/// The normal form for a network holds the lists of its locations that the expression holds.
pub fn normal_form_keeps_membership()
    ensures { (net : PlainNet) (e : Expression) (xs : List ℕ) → IsNet net → list_all (is_location net) xs ≡ true
        → member (normal (locations net) e) xs ≡ member e xs }
{}

/// The derivative by a location holds the lists that, with the location in front, are in the expression.
pub fn derivative_takes_off_a_location()
    ensures { (e : Expression) (x : ℕ) (xs : List ℕ) → member (derivative x e) xs ≡ member e (x ∷ xs) }
{}

/// The reversed expression holds the reversed lists.
pub fn reversal_reverses_lists()
    ensures { (e : Expression) (xs : List ℕ) → member (reversed e) xs ≡ member e (reverse xs) }
{}

/// The members of a normal alternation or intersection ascend, each strictly.
pub fn members_ascend()
    ensures { (es : List Expression) → Ascends (sorted es) }
{}

/// After a list of locations of the network, the first of the reversed normal forms' derivatives that holds
/// the empty list is the first expression that holds the reversed list.
pub fn derivatives_decide()
    ensures { (net : PlainNet) (es : List Expression) (xs : List ℕ) → IsNet net → list_all (is_location net) xs ≡ true
        → first_with [] (along xs (start_of (locations net) es)) ≡ first_with (reverse xs) es }
{}

/// A list of at least two locations of the network is in the expression of each alternative of a ranked expression exactly
/// where it meets the alternative.
pub fn alternatives_are_expressions()
    ensures { (net : PlainNet) (ranked : Ranking) (path : List ℕ) → IsNet net → 2 ≤ length path → list_all (is_location net) path ≡ true
        → map (λ e. member e path) (expressions net ranked) ≡ map (λ test. test path) (alternatives net ranked) }
{}

/// The rank of such a list is the place, from 1, of the first expression that holds it.
pub fn ranks_are_first_places()
    ensures { (net : PlainNet) (ranked : Ranking) (path : List ℕ) → IsNet net → 2 ≤ length path → list_all (is_location net) path ≡ true
        → first_with path (expressions net ranked) ≡ rank_of net ranked path }
{}
