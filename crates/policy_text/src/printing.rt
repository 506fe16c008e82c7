//! Policies that were read can be printed, and are read again as they were.
//!
//! There is no code here. What `policy_parser` reads for a network is what `policy_text` asks of a policy that it prints.
ghost use Rattle.policy_text.specs.Laws.{ReadPoliciesArePrintable, ReadNetsHaveNames, ReadPoliciesAreReadAgain, SomePoliciesHaveNoText, SomeNetsHaveNoNames};

/// What printing asks of a policy and of a network holds of those that were read. Each policy that a text spells for a
/// network is printable for it, and keeps what the program's types keep of a policy. The names of a network that a text
/// spells are names by the rule, none of them a word of the policy language.
pub fn policies_that_are_read_are_printable()
    ensures policies { ReadPoliciesArePrintable }
    ensures names { ReadNetsHaveNames }
{}

/// What is printed of a policy that was read is read again as that policy.
pub fn policies_that_are_read_are_read_again()
    ensures { ReadPoliciesAreReadAgain }
{}

/// These laws say something: for each network some policy has no text, as one with a statement without patterns, and some
/// network has a name that no text can hold.
pub fn not_all_can_be_printed()
    ensures policies { SomePoliciesHaveNoText }
    ensures networks { SomeNetsHaveNoNames }
{}
