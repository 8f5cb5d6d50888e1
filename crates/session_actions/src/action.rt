// The actions of a session: each thing that happens at once.
use crate::{ReadFrame, Sent};
use attempt_ledger::{Placed, RowEnd, RowKind};
use grpc_base::{Address, ConfigFault, EndCause, Event, Kind, Moment, Pick, Refusal, Reply};
use service_config::Config;

/// Why a call is committed to an attempt.
#[derive(Clone, Copy, Debug, PartialEq, Eq)]
pub enum CommitCause {
    /// The head of its response came.
    Head,
    /// More bytes of messages were accepted than are kept for attempts to come.
    Overflow,
    /// It ended, and no further attempt follows.
    Final,
    /// It follows, transparently, the attempt to which the call was committed.
    Inherited,
}

/// An action. Rows are named by their places, and all else by its number.
#[derive(Debug, Drop)]
pub enum Action {
    // entry and clock
    /// An event is posted, with its moment and random word: an entry begins.
    EntryOpens {
        posted: Moment,
        word: u64,
        event: Event,
    },
    /// The event is refused: it has no effect of its own.
    EventRefused {
        refusal: Refusal,
    },
    /// An event has no effect by itself, or only by what follows from it.
    EventAnswered {
        reply: Reply,
    },
    /// The event is done with: what is due by now comes next.
    SettlingBegins,
    /// Nothing is left to do: the entry joins the journal, with the state of the channel.
    EntryCloses,

    // applications
    /// The application begins a call, and gets its number.
    CallBegins,
    /// A message of the application is kept, for each attempt of the call to send.
    MessageAccepted {
        call: u32,
    },
    /// The application sends no further message.
    RequestFinished {
        call: u32,
    },
    /// The application takes the head, a message or the end of a response.
    ItemTaken {
        call: u32,
        item: Reply,
    },
    /// The call ends, once: by its committed attempt, or by the channel.
    CallEnds {
        call: u32,
        cause: EndCause,
    },

    // configuration
    /// The resolver's result is read: its service config, or the fault of that.
    ConfigRead {
        config: Result<Config, ConfigFault>,
    },
    /// The resolver answers without a result.
    ResolutionFailed,
    /// The call gets the service config that is held, and its first attempt is due.
    CallConfigured {
        call: u32,
        config: u64,
    },

    // attempts
    /// An attempt is made: a row at the end of the ledger, queued until a pick places it.
    AttemptMade {
        call: u32,
        number: u32,
        kind: RowKind,
        due: u64,
    },
    /// A hedge is due, and the tokens forbid it: no further one is made.
    HedgeWithheld {
        call: u32,
    },
    /// The current load balancing policy is asked for a pick for a queued attempt, and answers.
    PickRequested {
        row: u64,
        generation: u32,
        answer: Pick,
    },
    /// The attempt is on a link, and waits there for a stream.
    AttemptPlaced {
        row: u64,
        at: Placed,
    },
    /// The attempt ends, with the whole end as the ledger keeps it.
    AttemptEnds {
        row: u64,
        end: RowEnd,
    },
    /// The call is committed to this attempt: its other attempts are cut off.
    CallCommitted {
        row: u64,
        why: CommitCause,
    },
    /// RST_STREAM is queued for the stream of an attempt that ended.
    StreamReset {
        row: u64,
        code: u32,
    },

    // policies
    /// A load balancing policy begins: as the current one where there is none, and else as the pending one of a graceful switch.
    PolicyBegins {
        kind: Kind,
    },
    /// A load balancing policy gets the addresses of the resolver's result.
    AddressesGiven {
        generation: u32,
    },
    /// The pending load balancing policy becomes the current one, and the one before is retired: the end of a graceful switch.
    PolicyTakesOver {
        generation: u32,
    },
    /// A load balancing policy is given up: a pending one for a config of another kind, or any by a shutdown.
    PolicyRetired {
        generation: u32,
    },

    // subchannels
    /// An address that a load balancing policy lists gets a subchannel, which is IDLE.
    SubchannelAdded {
        address: Address,
    },
    /// No load balancing policy lists its address any longer: it is SHUTDOWN.
    SubchannelShut {
        sub: u32,
    },
    /// IDLE becomes CONNECTING: a policy wishes it.
    SubchannelConnects {
        sub: u32,
    },
    /// The environment takes a dial. Should it fail, the subchannel stays in TRANSIENT_FAILURE until `again`; the dial is given up at `until`.
    DialTaken {
        sub: u32,
        again: u64,
        until: u64,
    },
    /// The environment could not connect: CONNECTING becomes TRANSIENT_FAILURE.
    DialFails {
        sub: u32,
    },
    /// The dial did not come up, or no SETTINGS came on it, by `until`: TRANSIENT_FAILURE.
    ConnectTimesOut {
        sub: u32,
    },
    /// Its wait after a failure is over: TRANSIENT_FAILURE becomes IDLE.
    BackoffEnds {
        sub: u32,
    },
    /// The dial is a connection. Its subchannel stays CONNECTING until SETTINGS come.
    LinkUp {
        sub: u32,
    },
    /// The server's first SETTINGS came on its link: the subchannel is READY, and its backoff begins anew.
    SettingsArrive {
        sub: u32,
    },
    /// The link of a subchannel was lost or broken, or its server sent GOAWAY: the subchannel no longer has it. After GOAWAY its open streams go on.
    LinkDown {
        sub: u32,
    },

    // the wire, read
    /// Bytes of the server came. Their whole frames are read next, one by one.
    BytesArrive {
        link: u32,
    },
    /// A whole frame that breaks no rule of the link is read; what it makes the client owe is queued.
    FrameRead {
        link: u32,
        read: ReadFrame,
    },
    /// The peer broke a rule of the whole link, which is over from then on. No GOAWAY is sent.
    LinkBreaks {
        link: u32,
        code: u32,
    },
    /// The environment lost the link, which is over from then on.
    LinkLost {
        link: u32,
    },

    // the wire, written
    /// A PING of the environment is queued.
    PingQueued {
        link: u32,
    },
    /// A frame, or the preface, is added to the bytes that a Drain gives.
    FrameWritten {
        link: u32,
        sent: Sent,
    },
    /// The channel is shut down, for good.
    ChannelShuts,
}
