//! The JSON value of a text, and its parts; and facts on steps that may fail, taken one after another, with which the
//! readers of JSON texts say which rule a text breaks first.
//!
//! `json_value` reads the bytes with `serde_json` (RFC 8259): they have to be UTF-8, and the 128th array or object that is
//! open at once is refused. Of a repeated key the last one counts. A whole number is what `serde_json` gives as an unsigned
//! integer, so `1.0`, `1e2` and `-0` aren't whole numbers. A whole number that is merely too large breaks a range and not
//! the shape. `specs/Json` is what JSON is taken to be here.
//!
//! A reader of a JSON text has numbered rules. `specs/TextRules` says of any such text which rules it keeps, and which
//! fault comes where it keeps not all of them: the one with the least number. The lemmas beside it speak of steps of any
//! kind: of the items that are read already, of those that are still to be read, and of the faults that can be found. Each
//! reader cites them with its own step, so that no reader proves them anew.
//!
//! `json_value` tells only that there is no value; each reader has a fault of its own for that. `printed_values_are_read`
//! says that a value which is written without spaces, its keys in order, is read again as that value.
//!
//! It knows nothing of networks, and of what the rules are.
#![tactic(auto)]

pub mod laws;
mod parts;
mod value;

pub use parts::{has, list, member_count};
pub use value::{JsonFault, json_value};
