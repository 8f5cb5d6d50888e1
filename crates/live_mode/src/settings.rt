// What the options of the mode `live` set.
use keepalive_core::KeepRule;

/// What the options of the mode set.
#[derive(Clone, Copy, Debug, PartialEq, Eq)]
pub struct LiveSettings {
    /// The seed of the random words.
    pub seed: u64,
    /// How many workers keep links open, at most.
    pub nets: u32,
    /// The rule of the keepalives, where there are some.
    pub keep: Option<KeepRule>,
}
