// Words for what actions hold.
use grpc_base::{Address, ConfigFault, Conn, Event, Pick, Pushback, Reply};
use service_config::Config;
use session_actions::WireFrame;
use std::fmt;

/// The name of an event.
pub fn event_name(event: &Event) -> &'static str {
    match event {
        Event::Begin { .. } => "Begin",
        Event::Send { .. } => "Send",
        Event::Finish { .. } => "Finish",
        Event::Take { .. } => "Take",
        Event::Cancel { .. } => "Cancel",
        Event::Resolved { .. } => "Resolved",
        Event::ResolveFailed => "ResolveFailed",
        Event::TakeDial => "TakeDial",
        Event::LinkUp { .. } => "LinkUp",
        Event::DialFailed { .. } => "DialFailed",
        Event::Arrived { .. } => "Arrived",
        Event::LinkLost { .. } => "LinkLost",
        Event::Drain { .. } => "Drain",
        Event::Ping { .. } => "Ping",
        Event::Tick => "Tick",
        Event::Shutdown => "Shutdown",
    }
}

/// The name of a reply.
pub fn reply_name(reply: &Reply) -> &'static str {
    match reply {
        Reply::Call { .. } => "Call",
        Reply::Done => "Done",
        Reply::Full { .. } => "Full",
        Reply::Head { .. } => "Head",
        Reply::Message { .. } => "Message",
        Reply::End { .. } => "End",
        Reply::NotYet => "NotYet",
        Reply::BadConfig { .. } => "BadConfig",
        Reply::Dial { .. } => "Dial",
        Reply::Link { .. } => "Link",
        Reply::Octets { .. } => "Octets",
        Reply::Refused { .. } => "Refused",
    }
}

/// What a service config was read as.
pub fn config_word(config: &Result<Config, ConfigFault>) -> &'static str {
    match config {
        Ok(_) => "valid",
        Err(fault) => match fault {
            ConfigFault::Json { .. } => "Json",
            ConfigFault::Field { .. } => "Field",
            ConfigFault::BothPolicies { .. } => "BothPolicies",
            ConfigFault::RepeatedName { .. } => "RepeatedName",
            ConfigFault::NoSupportedPolicy => "NoSupportedPolicy",
            ConfigFault::NoMemory => "NoMemory",
        },
    }
}

/// A state of the channel ("gRPC Connectivity Semantics and API").
pub fn state_name(state: Conn) -> &'static str {
    match state {
        Conn::Idle => "IDLE",
        Conn::Connecting => "CONNECTING",
        Conn::Ready => "READY",
        Conn::Failure => "TRANSIENT_FAILURE",
        Conn::Shutdown => "SHUTDOWN",
    }
}

/// A truth in a word.
pub fn yes_or_no(is_so: bool) -> &'static str {
    if is_so { "yes" } else { "no" }
}

/// A number that may not be there.
#[derive(Clone, Copy)]
pub struct Dash(pub Option<u64>);

impl fmt::Display for Dash {
    fn fmt<W: fmt::Write>(&self, f: &mut fmt::Formatter<W>) -> fmt::Result {
        match self.0 {
            Some(number) => write!(f, "{number}"),
            None => write!(f, "-"),
        }
    }
}

/// What a server asks of the next retry.
#[derive(Clone, Copy)]
pub struct PushbackText(pub Pushback);

impl fmt::Display for PushbackText {
    fn fmt<W: fmt::Write>(&self, f: &mut fmt::Formatter<W>) -> fmt::Result {
        match self.0 {
            Pushback::None => write!(f, "-"),
            Pushback::After(millis) => write!(f, "After {millis}"),
            Pushback::Stop => write!(f, "Stop"),
        }
    }
}

/// The answer to a pick request.
#[derive(Clone, Copy)]
pub struct PickText(pub Pick);

impl fmt::Display for PickText {
    fn fmt<W: fmt::Write>(&self, f: &mut fmt::Formatter<W>) -> fmt::Result {
        match self.0 {
            Pick::Place(sub) => write!(f, "Place {sub}"),
            Pick::Fail => write!(f, "Fail"),
            Pick::Wait => write!(f, "Wait"),
        }
    }
}

/// An address.
#[derive(Clone, Copy)]
pub struct PlaceText(pub Address);

impl fmt::Display for PlaceText {
    fn fmt<W: fmt::Write>(&self, f: &mut fmt::Formatter<W>) -> fmt::Result {
        let ip = self.0.ip;
        let port = self.0.port;
        let first = ip / 16_777_216;
        let second = ip / 65_536 % 256;
        let third = ip / 256 % 256;
        let fourth = ip % 256;
        write!(f, "{first}.{second}.{third}.{fourth}:{port}")
    }
}

/// The name of a frame type (RFC 9113, section 6).
fn frame_name(kind: u8) -> Option<&'static str> {
    let name = match kind {
        0 => "DATA",
        1 => "HEADERS",
        2 => "PRIORITY",
        3 => "RST_STREAM",
        4 => "SETTINGS",
        5 => "PUSH_PROMISE",
        6 => "PING",
        7 => "GOAWAY",
        8 => "WINDOW_UPDATE",
        9 => "CONTINUATION",
        _ => return None,
    };
    Some(name)
}

/// A frame in words: its type, its stream, its flags and its length.
#[derive(Clone, Copy)]
pub struct FrameText {
    kind: u8,
    stream: u32,
    flags: u8,
    len: usize,
}

/// A frame in words.
pub fn frame_text(frame: &WireFrame) -> FrameText {
    FrameText {
        kind: frame.kind,
        stream: frame.stream,
        flags: frame.flags,
        len: frame.payload.len(),
    }
}

impl fmt::Display for FrameText {
    fn fmt<W: fmt::Write>(&self, f: &mut fmt::Formatter<W>) -> fmt::Result {
        let kind = self.kind;
        match frame_name(kind) {
            Some(name) => write!(f, "{name}")?,
            None => write!(f, "a frame of type {kind}")?,
        }
        let stream = self.stream;
        if stream != 0 {
            write!(f, " on stream {stream}")?;
        }
        let flags = self.flags;
        let len = self.len;
        write!(f, ", flags {flags}, {len} bytes")
    }
}
