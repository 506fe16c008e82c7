//! The laws of a change of policy by what `renew` and `between` write: nothing forbidden on the way, rest in between in two layers,
//! the new outcome in the end. There is no code.
//!
//! The laws of rollouts are said of lines, prefix by prefix: tags are apart, preferences are above, stages lie between. The commands
//! promise words on whole texts: nothing is in the way of stages, no tag stands in both, the four are a rollout. Here these give those, so
//! each law of rollouts is one of what the commands write.
//!
//! `IsChange` of `specs/Change` is what `check` and `between` tell of an old and a new configuration. For each prefix both do the same, or the
//! new one takes over (`TakesOver`). `specs/Phases` says which of the four configurations a router runs, and what it has then.
//!
//! | Law | It says | It needs |
//! |---|---|---|
//! | `changes_are_safe` | nothing is ever held or heard that neither policy allows, and the end is the new outcome; and so back | `IsChange` |
//! | `prefixes_stay_or_go_over` | each prefix stays, as both do the same with it, or the new one takes over for it | that nothing is in the way of stages |
//! | `renewals_replace_all` | what `renew` writes without evidence passes, and takes over for each prefix | that it is renewed |
//! | `changes_come_to_rest` | in between, too, messages come to an end | `IsChange`, that the prefix stays or goes over, and who announces |
//! | `resting_prefixes_stay` | of a prefix that stays each router holds then what it holds where all run what it runs | the same |
//! | `resting_changes_are_layered` | of one for which the new configuration takes over, what is held then is two layers, each the outcome of its own side | the same |
//!
//! Why preferences and tags are apart: one that a line gives stands in the text (`proofs/Prefs`, `rollout_law`), and among the lines of its class
//! (`proofs/Cells`).
//!
//! Compiling doesn't need it.
//!
//! It knows nothing of texts, of commands, or of how stages and renewed evidence are made.
#![tactic(auto)]

ghost use Rattle.renewal_law.specs.Laws.{
  ChangesAreSafe,
  ChangesComeToRest,
  ChangesLeadBack,
  PhasesAreBetween,
  PrefixesStayOrGoOver,
  RenewalsReplaceAll,
  ReplacementsTakeOver,
  RestingChangesAreLayered,
  RestingPrefixesStay,
};

/// From its first load to its last a change is safe, whichever of the four configurations each router runs and loads, and so is the way back.
pub fn changes_are_safe()
    ensures there { ChangesAreSafe }
    ensures back { ChangesLeadBack }
{}

/// Where nothing is in the way of stages, each prefix stays, or the new configuration takes over for it. Then each router is between old and new,
/// with the starts and the lines of its phase.
pub fn prefixes_stay_or_go_over()
    ensures prefixes { PrefixesStayOrGoOver }
    ensures between { PhasesAreBetween }
{}

/// The evidence of a configuration that is renewed without evidence passes. No tag stands in it and in the old one, and each of its preferences is
/// above each old one. So it takes over for each prefix.
pub fn renewals_replace_all()
    ensures all { RenewalsReplaceAll }
    ensures prefixes { ReplacementsTakeOver }
{}

/// From the moment on when nobody loads any more, so many rounds of deliveries end all messages, whichever of the four configurations each
/// router runs.
pub fn changes_come_to_rest()
    ensures { ChangesComeToRest }
{}

/// Where no message waits, each router holds of a prefix that stays what it holds in the settled outcome of the policy that it runs. The outcomes of both are
/// the same but for the own routes of who is an origin by one policy alone; peers have heard what both offer.
pub fn resting_prefixes_stay()
    ensures { RestingPrefixesStay }
{}

/// Where no message waits, what routers hold of a prefix for which the new configuration takes over is two layers: the settled outcome of the new side and that of the old side, each right by its
/// own policy under its failures.
pub fn resting_changes_are_layered()
    ensures { RestingChangesAreLayered }
{}
