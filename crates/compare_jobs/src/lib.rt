//! The job of `compare`: what a new policy changes beside an old one, from bytes to bytes, or why the two aren't compared.
//!
//! Three texts are read: a topology, the old policy and the new one. What is wrong first is told: a fault of the topology, of the old
//! policy, or of the new one, and the line says of which policy it is. Then the comparison is made (`comparison_maker`) and written
//! (`compare_report`).
//!
//! | Answer | Where |
//! |---|---|
//! | the text of the comparison | no limit is passed |
//! | `old refused ..`, `new refused ..` | a case of this policy passes a limit; the old one is judged first |
//! | `refused 9 too-many-pairs statement S now S'` | the graphs of pairs of cases have too many steps together, at this pair |
//! | a fault of one of the texts | `old policy` and `new policy` tell which |
//!
//! Neither policy is compiled, so policies that the compiler refuses for another cause are compared, too. `specs/Compared` has what is
//! said.
//!
//! `compare` alone needs it.
//!
//! It knows nothing of words, names or sinks.
#![tactic(auto)]

ghost use Rattle.compare_jobs.specs.Laws.{ComparedTextsAreOne, SamePoliciesAreTold, ToldPairsDiffer, UnchangedTextsTellSamePolicies, UntoldPrefixesAreAlike};

mod compare;
mod lines;

pub use compare::compare_texts;
pub use lines::refusal_line;

/// Two policies have one text of their comparison.
pub fn texts_of_comparisons_are_one()
    ensures { ComparedTextsAreOne }
{}

/// The text of a comparison is `cases N changed 0` exactly where the policies say the same of every prefix, and then one configuration serves
/// both or neither. Of a prefix whose pair isn't told they say the same, too.
pub fn texts_tell_what_is_the_same()
    ensures unchanged { UnchangedTextsTellSamePolicies }
    ensures same { SamePoliciesAreTold }
    ensures untold { UntoldPrefixesAreAlike }
{}

/// Each pair of cases that is told as differing has a prefix, and of none that has it the policies say the same.
pub fn texts_tell_what_differs()
    ensures { ToldPairsDiffer }
{}
