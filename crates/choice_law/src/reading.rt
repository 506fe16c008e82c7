//! The law.
ghost use Rattle.choice_law.specs.Laws.{ChoicesAreReadAgain};

/// What is printed of an alternative, in the place of its statement's whole expression, is read as the alternative, where the statement
/// is printable.
pub fn printed_choices_are_read()
    ensures { ChoicesAreReadAgain }
{}
