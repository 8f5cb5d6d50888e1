// The rule of a keepalive, its answers, and how they stand in a list.

/// How long a link may be still before a ping is sent, and how long its answer may take, in nanoseconds.
#[derive(Clone, Copy, Debug, PartialEq, Eq)]
pub struct KeepRule {
    pub time: u64,
    pub timeout: u64,
}

/// Why a rule is refused.
#[derive(Clone, Copy, Debug, PartialEq, Eq)]
pub enum KeepFault {
    /// A duration is 0 or above 1,000,000,000,000,000,000 ns.
    BadRule,
}

/// What is to be done about a link.
#[derive(Clone, Copy, Debug, PartialEq, Eq)]
pub enum KeepTurn {
    Nothing,
    /// The ping of this number, from 1, is to be sent.
    SendPing { word: u64 },
    /// The link is lost: bytes last came at `heard`, and the ping that was sent at `sent` was not answered.
    Lost { heard: u64, sent: u64 },
}

/// What was done about a link: bytes came, or a turn answered so.
#[derive(Clone, Copy, Debug, PartialEq, Eq)]
pub enum KeepKind {
    Octets,
    Quiet,
    Ping(u64),
    Lost,
}

/// One thing that was done about a link.
#[derive(Clone, Copy, Debug, PartialEq, Eq)]
pub struct KeepEntry {
    pub moment: u64,
    pub kind: KeepKind,
}
