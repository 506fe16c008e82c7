//! What two texts come to.

/// What a topology's text and a policy's text come to.
#[derive(Drop)]
pub enum Came {
    /// The text of the configuration that is compiled from them.
    Compiled(Vec<u8>),
    /// The policy is refused: the line that tells why.
    Refused(Vec<u8>),
    /// A text is too long or breaks a rule: the line that tells which.
    Faulty(Vec<u8>),
    /// The room that was given doesn't hold what was to be written.
    NoRoom,
}
