// What the options of the mode `relay` set.
ghost use Rattle.std.specs.Prelude.{◌≤◌};

/// What the options of the mode set.
#[derive(Clone, Copy, Debug, PartialEq, Eq)]
pub struct RelaySettings {
    /// The port of 127.0.0.1; at 0 the listener takes a free one.
    pub port: u16,
    /// How many links are accepted, from 1 to 1,024.
    pub links: u32,
    /// The seed of the random words.
    pub seed: u64,
    /// How many workers keep links open, at most.
    pub nets: u32,
    pub ghost few: { links ≤ 1024 },
}
