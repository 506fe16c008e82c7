//! The laws of the comparison of two policies: there is one, no pair is told as differing exactly where they say the same of
//! every prefix, a prefix whose pair isn't told is told the same by both, and each pair that is told differs. There is no
//! code.
//!
//! A comparison has all pairs of cases that prefixes have, each with what changes for its prefixes (`specs/Comparisons`). So it says what
//! the policies say of every prefix. Where a pair has no other origins and no kind of difference, the rows of each place agree, and then
//! both policies say the same of its prefixes. Where none has, they say the same of all, and one configuration serves both.
//!
//! That the rows of a place are a list is needed for this, and nobody has to make the list here: there are finitely many ranks, and what
//! is asked of the rows is decided (`proofs/Listed`).
//!
//! Pairs, kinds, places and walks stand in an order that is said, and which walks show a kind is said, too. So two policies have one
//! comparison (`proofs/One`), and what is told of it doesn't hang on how it was found.
//!
//! Compiling doesn't need it.
//!
//! It knows nothing of graphs, or of how a comparison is made or told.
#![tactic(auto)]

ghost use Rattle.comparison_law.specs.One.{ChangesAreOne, ComparisonsAreOne};
ghost use Rattle.comparison_law.specs.Laws.{SamePoliciesAreUnchanged, ToldPairsDiffer, UnchangedPoliciesAreSame, UnchangedPoliciesAreServedAlike, UntoldPrefixesAreAlike};

/// Of a prefix whose pair isn't told as differing, or that has none, both policies say the same.
pub fn untold_prefixes_are_alike()
    ensures { UntoldPrefixesAreAlike }
{}

/// Each pair that is told as differing has a prefix, and of none that has it both policies say the same.
pub fn told_pairs_differ()
    ensures { ToldPairsDiffer }
{}

/// No pair is told as differing exactly where both policies say the same of every prefix. A configuration is then right for the one exactly
/// where it is right for the other.
pub fn none_is_told_where_all_is_same()
    ensures same { UnchangedPoliciesAreSame }
    ensures untold { SamePoliciesAreUnchanged }
    ensures served { UnchangedPoliciesAreServedAlike }
{}

/// What two policies change for a prefix is one thing: the kinds in their order, each with its words, rows, places and walks, and who carries
/// in one policy alone.
pub fn changes_are_one()
    ensures { ChangesAreOne }
{}

/// Two policies have one comparison.
pub fn comparisons_are_one()
    ensures { ComparisonsAreOne }
{}
