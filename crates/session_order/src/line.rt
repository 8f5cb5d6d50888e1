// The lines of the session's definition that come before anything else (`session_actions`: `of_calls`, `of_links`, `of_policies`).

/// What may follow at once from what is. Of calls:
#[derive(Clone, Copy, Debug, PartialEq, Eq)]
pub enum Line {
    /// An attempt is cut off.
    Cut,
    /// A transparent retry is made.
    Transparent,
    /// It takes a commitment over.
    Inherited,
    /// A call ends by its committed attempt.
    Row,
    /// An end that no further attempt follows commits its call.
    Final,
    /// A call ends that was cancelled; that was sent too long a message; whose response has too long a message.
    Cancelled,
    Request,
    Response,
    /// A call is committed by the bytes that were accepted; by the head of a response.
    Overflow,
    Head,
    // of links
    /// The answer of a pick request is acted on.
    Pick,
    /// A subchannel becomes READY, or loses its link.
    Link,
    /// An attempt ends by the wire.
    WireEnd,
    /// RST_STREAM is queued for its stream.
    Reset,
    // of policies
    /// A call ends, since the channel was shut down.
    Shut,
    /// A policy is retired; begins; gets addresses.
    Retire,
    Begin,
    Give,
    /// A subchannel is shut down; is added.
    Drop,
    Add,
}
