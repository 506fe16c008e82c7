//! What the parts of a policy are read with.
use crate::whole::Whole;
use policy_rules::Known;
use std::alloc::Global;

/// The text that is read, its network, and the names above the part that is read. A part begins at a lexeme of the text, `at`,
/// which is the one behind the part once this is read.
#[derive(Clone, Copy)]
pub struct Reader<'a> {
    /// Where memory is taken from.
    pub alloc: Global,
    /// The bytes of the text.
    pub text: &'a [u8],
    /// The network.
    pub whole: &'a Whole<'a>,
    /// The names above the part.
    pub known: &'a Known<'a>,
}
