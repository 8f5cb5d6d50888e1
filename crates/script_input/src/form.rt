// What an input holds.

/// What an input holds.
#[derive(Clone, Copy, Debug, PartialEq, Eq)]
pub enum Form {
    /// A replay script.
    Script,
    /// A replay script or the report of a session, of which the script is read.
    Report,
}
