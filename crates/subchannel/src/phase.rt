// Where a subchannel stands ("gRPC Connectivity Semantics and API"; "Connection Backoff Protocol").
//
//   Idle ---> Waiting ---> Dialing ---> AwaitingPreface ---> Ready
//     ^  wished     TakeDial  |  LinkUp        |  SETTINGS      |
//     |                       |                |                | its link is lost, broken or retiring
//     |       `until` came, or DialFailed      | or its link is |
//     |                       v                v lost or broken |
//     +---- `again` came --- Failure <---------+                |
//     +---------------------------------------------------------+
//
// Shutdown comes from any of these, for good, once its address is in no list.

/// A connectivity state with the moments that go with it, in nanoseconds.
#[derive(Clone, Copy, Debug, PartialEq, Eq)]
pub enum Phase {
    Idle,
    /// CONNECTING, and its dial is not taken.
    Waiting,
    /// CONNECTING, and its dial is taken.
    Dialing { again: u64, until: u64 },
    /// CONNECTING, with a link that has not shown the server's SETTINGS.
    AwaitingPreface { again: u64, until: u64 },
    Ready,
    /// TRANSIENT_FAILURE.
    Failure { again: u64 },
    Shutdown,
}
