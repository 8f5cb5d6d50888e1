// What those that keep links open are still to be notified of.
use gate_io::Woken;
use grpc_base::Event;

/// What a handle posted that may give them something to send, and of which they were not notified. A call that is sent whole at once goes out in
/// one piece, so its Begin and its first message wait for what comes after them: its Finish, a further message, or a wait of the handle.
#[derive(Clone, Copy, Debug, PartialEq, Eq)]
pub(crate) enum Owed {
    Nothing,
    /// A call was begun.
    Call,
    /// A call was begun and has its first message.
    Message,
    /// They are to be notified now.
    News,
    /// All are to be notified now, also those without links.
    End,
}

impl Owed {
    /// What is owed after an event.
    pub(crate) fn afterwards(self, event: &Event) -> Owed {
        match event {
            Event::Begin { .. } => Owed::Call,
            Event::Send { .. } => match self {
                Owed::Call => Owed::Message,
                _ => Owed::News,
            },
            Event::Take { .. } | Event::TakeDial | Event::Drain { .. } => self,
            Event::Shutdown => Owed::End,
            _ => Owed::News,
        }
    }

    /// What is owed after a message that a handle had waited for room with.
    pub(crate) fn after_send(self) -> Owed {
        match self {
            Owed::Call => Owed::Message,
            _ => Owed::News,
        }
    }

    /// Who is to be notified now.
    pub(crate) fn now(self) -> Woken {
        match self {
            Owed::Nothing | Owed::Call | Owed::Message => Woken::Nobody,
            Owed::News => Woken::Linked,
            Owed::End => Woken::All,
        }
    }

    /// What is owed still once these were notified.
    pub(crate) fn left(self) -> Owed {
        match self {
            Owed::Call | Owed::Message => self,
            _ => Owed::Nothing,
        }
    }

    /// Who is to be notified as the handle is to wait.
    pub(crate) fn at_wait(self) -> Woken {
        match self {
            Owed::Nothing => Woken::Nobody,
            Owed::Call | Owed::Message | Owed::News => Woken::Linked,
            Owed::End => Woken::All,
        }
    }
}
