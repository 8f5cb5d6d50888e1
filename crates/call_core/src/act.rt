// What a change of a call asks of the channel.
use grpc_base::EndCause;

/// What the channel has to do for a call. Rows are named by their places, from 1.
#[derive(Clone, Copy, Debug, PartialEq, Eq)]
pub enum CallAct {
    /// The row was outstanding and was given up: its stream is reset where it is open.
    Cut(u64),
    /// The row was queued and is dropped: it leaves the queue.
    Drop(u64),
    /// The row joins the queue.
    Queue(u64),
    /// The call ended.
    End(EndCause),
}
