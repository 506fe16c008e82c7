//! What a policy text means, said of the grammar's tree, and the law that reading meets it. There is no code here.
//!
//! `specs/Trees` reads the tree off the grammar, and `specs/Meaning` says what it means: for each rule all places that
//! break it, in the order of the text, and the policy where none is broken. What is reported is the first place that breaks
//! the first broken rule. Each function below is the proof of the law in its contract: that the functions of `policy_rules`
//! and `policy_parser`, by which texts are read, come to just that. They go over items with stacks, which is how a text is
//! read in little memory, and not how one would say the rules.
//!
//! A name is known only below its definition. Once each name is known and defined once, it means the same in the whole
//! text, so values are said with what names stand for at its end. A value is also said where a rule is broken: an unknown
//! name has no location, and a figure that is no prefix stands for all prefixes. So the value needs no premise; it counts
//! only where no rule is broken. A count past 18446744073709551615 is reported as that number.
//!
//! | Law | It says |
//! |---|---|
//! | `texts_spell_their_meaning` | a text spells what it means, and its fault is that of the first rule it breaks, at the first place |
//! | `policies_mean_what_they_spell` | a text spells a policy exactly where it means it, said without faults and without their order (`specs/Texts`) |
//! | `places_are_in_order` | the places that break a rule are listed in the order of the text |
//! | `trees_are_what_is_read` | the trees are those of the items that are read |
//! | `first_rank_is_told`, `names_have_their_sense`, `expressions_have_their_value` | what single passes of the code come to |
//! | `ranks_stand_beside_calls`, `unknown_names_come_first` | small cases, worked: where a `>>` may stand, and which rule is told |
//! | `lists_hold_their_names` | a list of names has exactly the locations of its names |
//! | `origins_are_sets` | the routers of an `originate` item are a set as the program keeps it |
//!
//! Compiling doesn't need it.
//!
//! It knows nothing of cases and configurations.
#![tactic(auto)]

ghost use Rattle.std.specs.Prelude.{◌≡◌, ℕ, List, [], ◌∷◌, ◌++◌, Err};
ghost use Rattle.net_base.specs.declared.place.Place.{Place};
ghost use Rattle.net_base.specs.Network.{PlainNet};
ghost use Rattle.policy_grammar.specs.Raw.{RawCall};
ghost use Rattle.policy_law.specs.Trees.{Expression, Written};
ghost use Rattle.policy_law.specs.Ranks.{ranks, ranks_under};
ghost use Rattle.policy_law.specs.Meaning.{unknown_names, meaning};
ghost use Rattle.policy_law.specs.Laws.{
  StepsAreTrees,
  ItemsAreTrees,
  FirstRankIsTold,
  NamesHaveTheirSense,
  ListsHoldTheirNames,
  OriginsAreSets,
  ExpressionsHaveTheirValue,
  PlacesAreInOrder,
  TextsSpellTheirMeaning,
  SpelledPoliciesAreMeant,
  PoliciesAreMeant,
  MeantPoliciesAreSpelled,
  TextsMeanOnePolicy,
};

use grammar_law::{every_policy_is_read, what_is_read_is_a_policy};
use policy_tokens::PolicyFault;

/// The expression that the grammar finds in some tokens is the one whose steps are read of them, and likewise the items.
pub fn trees_are_what_is_read()
    ensures steps { StepsAreTrees }
    ensures items { ItemsAreTrees }
{}

/// Of several `>>` under an `or` or a `not` the first in the text is told.
pub fn first_rank_is_told()
    ensures { FirstRankIsTold }
{}

/// The names that are known of a text stand for what they do in its sense.
pub fn names_have_their_sense()
    ensures { NamesHaveTheirSense }
{}

/// A list of names has exactly the locations that some name of it stands for.
pub fn lists_hold_their_names()
    ensures { ListsHoldTheirNames }
{}

/// The routers of each `originate` item are a set as the program keeps it, so that two such sets are one where they have the same routers.
pub fn origins_are_sets()
    ensures { OriginsAreSets }
{}

/// The steps of an expression make the value of the expression.
pub fn expressions_have_their_value()
    ensures { ExpressionsHaveTheirValue }
{}

/// The places that break a rule are listed in the order of the text, so that the first of them is told.
pub fn places_are_in_order()
    ensures { PlacesAreInOrder }
{}

/// A text whose tokens are a policy by the grammar spells what this policy means, or is refused by the first rule that it breaks;
/// and no other text spells a policy.
pub fn texts_spell_their_meaning()
    ensures all { TextsSpellTheirMeaning }
    ensures only { SpelledPoliciesAreMeant }
{
    every_policy_is_read();
    what_is_read_is_a_policy();
}

/// A text is read as a policy exactly where it means it, and it means no other. This is said by what is right in a text alone
/// (`specs/Texts`): its tokens, the grammar, and what each item keeps.
pub fn policies_mean_what_they_spell()
    ensures only { PoliciesAreMeant }
    ensures all { MeantPoliciesAreSpelled }
    ensures one { TextsMeanOnePolicy }
{}

/// Each `>>` of a side of an `or` is told; between two calls alone none is.
pub fn ranks_stand_beside_calls()
    ensures under { (a b c : Expression) (p : Place) → ranks_under (Expression.either (Expression.above a p b) c) ≡ ranks a ++ p ∷ ranks b ++ ranks c }
    ensures alone { (a b : RawCall) (p : Place) → ranks_under (Expression.above (Expression.call a) p (Expression.call b)) ≡ [] }
{}

/// Where a name stands for nothing, the first such is told, whatever other rule is broken.
pub fn unknown_names_come_first()
    ensures { (net : PlainNet) (bytes : List ℕ) (items : List Written) (p : Place) (others : List Place) → unknown_names net bytes items ≡ p ∷ others
        → meaning net bytes items ≡ Err (PolicyFault.Unknown p) }
{}
