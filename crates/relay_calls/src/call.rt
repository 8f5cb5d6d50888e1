// One call of a connection at its channel.
ghost use Rattle.std.specs.Prelude.{◌≡◌, ◌<◌, IfSome, length, position};
ghost use Rattle.relay_calls.specs.Calls.{is_live, is_of, number_of};

/// A call that was begun for a stream.
#[derive(Clone, Copy, Debug)]
pub struct RelayCall {
    pub stream: u32,
    /// Its number at the channel.
    pub call: u32,
    /// Whether its stream may ask more: neither its Finish nor its Cancel was posted.
    pub asking: bool,
    /// Whether more of it is to be taken: its end was not given, and no Cancel was posted.
    pub is_open: bool,
}

impl RelayCall {
    fn is_of(&self, stream: u32) -> bool
        ensures { result ≡ is_of stream self.now }
    {
        self.stream == stream
    }

    /// Whether its stream may ask more, or more of it is to be taken.
    pub(crate) fn is_live(&self) -> bool
        ensures { result ≡ is_live self.now }
    {
        self.asking || self.is_open
    }
}

/// The place of the call of a stream.
pub(crate) fn place_of(calls: &[RelayCall], stream: u32) -> Option<usize>
    ensures place { result ≡ position (is_of stream) calls.now }
    ensures within { IfSome result (λ place. place < length calls.now) }
{
    calls.iter().position(|c| c.is_of(stream))
}

/// The number of the call of a stream, if it has one.
pub(crate) fn number_of(calls: &[RelayCall], stream: u32) -> Option<u32>
    ensures { result ≡ number_of calls.now stream }
{
    match place_of(calls, stream) {
        Some(place) => Some(calls[place].call),
        None => None,
    }
}
