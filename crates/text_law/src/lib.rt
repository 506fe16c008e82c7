//! What a policy text means and what the text of a configuration is, in the few words of the claim, with the laws that what
//! is read and written is just that. There is no code here.
//!
//! `specs/PolicyText` says what a policy text means: one grammar, in each rule of which the value stands beside what is
//! written. `specs/ConfigText` says which bytes are the text of a configuration. Each function below is the proof of the
//! law in its contract: that what is read means this, and that what is written is this text.
//!
//! There are longer accounts of both texts, which say also which texts are refused: for a limit, for the place of a `>>`,
//! for the order of lines. What the claim says of a text doesn't hang on that, so these accounts leave it out, and a reader
//! of the claim has half as much to read. The same run promises the longer accounts beside the claim.
//!
//! Compiling doesn't need it.
//!
//! It knows nothing of cases and commands.
#![tactic(auto)]

ghost use Rattle.text_law.specs.Laws.{ReadPoliciesAreMeant, TextsMeanOne, SpellingsAreTexts, TextsAreOfOne};

/// A text that is read as a policy means this policy, and no text means two.
pub fn policies_mean_what_is_read()
    ensures only { ReadPoliciesAreMeant }
    ensures one { TextsMeanOne }
{}

/// A text that spells a configuration is its text, and that of no other.
pub fn configurations_have_their_text()
    ensures only { SpellingsAreTexts }
    ensures one { TextsAreOfOne }
{}
