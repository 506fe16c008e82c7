//! The grammar of JSON in the few words of the claim, where a value is its own text, and the law that each text which
//! `serde_json` reads is written so. There is no code here.
//!
//! `specs/Grammar` has the grammar of RFC 8259. A value is its own text, so no type of values is needed: a text is a value,
//! the texts of the items of an array are these, and the members of an object are these keys with these texts. What a
//! reader of the claim must believe of JSON is this grammar, and nothing of how `serde_json` and `json` read.
//!
//! `specs/Written` says of the tree that `json` reads how it is written, and the law `read_texts_are_written` that each
//! text which `serde_json` reads is written so. The other direction isn't said: a text of the grammar may nest too deep to
//! be read, or have a number too large for a float.
//!
//! Compiling doesn't need it.
//!
//! It knows nothing of networks, and of what is read of them.
#![tactic(auto)]

ghost use Rattle.json_law.specs.Laws.{ReadTextsAreWritten};

/// A text that is read as a JSON value is written as the grammar has it.
pub fn read_texts_are_written()
    ensures { ReadTextsAreWritten }
{}
