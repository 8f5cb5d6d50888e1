// The entry that is being made.
use grpc_base::{Event, Moment, Reply};

/// How far an entry has come.
#[derive(Clone, Copy, Debug, PartialEq, Eq)]
pub enum Stage {
    /// Calls whose deadline has come end, and then its event is applied.
    Event,
    /// Its event was replied to, and its frames follow one by one: of a piece those that are read, of a drain those that are written.
    Replied,
    /// The channel settles: what is due by now is done.
    Settling,
}

/// The last pick request of a pass over the queue.
#[derive(Clone, Copy, Debug, PartialEq, Eq)]
pub struct Turn {
    pub call: u32,
    /// The place of the row.
    pub row: u64,
}

/// The entry that is being made.
#[derive(Debug, Drop)]
pub struct OpenEntry {
    pub moment: Moment,
    pub word: u64,
    pub event: Event,
    pub stage: Stage,
    /// What the event was answered, once it was.
    pub reply: Option<Reply>,
    /// How many random words were drawn in it.
    pub drawn: u64,
    /// The last pick request of the pass over the queue that is going on.
    pub turn: Option<Turn>,
}
