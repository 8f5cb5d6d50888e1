// The names of events.
ghost use Rattle.std.specs.Prelude.{◌≡◌, ◌≢◌, IfSome, IfNone};
ghost use Rattle.script_lines.specs.declared.name.EventName as event_name;
ghost use Rattle.script_lines.specs.Events.{name_text};

/// What an event is named for.
#[derive(Clone, Copy, Debug, PartialEq, Eq)]
pub enum EventName {
    Begin,
    Send,
    Finish,
    Take,
    Cancel,
    Resolved,
    Unresolved,
    Dial,
    Up,
    NoDial,
    Arrived,
    Lost,
    Drain,
    Ping,
    Tick,
    Shutdown,
}

/// The event of this name.
pub fn name_of(text: &[u8]) -> Option<EventName>
    ensures some { IfSome result (λ name. text.now ≡ name_text name) }
    ensures none { IfNone result ((name : event_name.EventName) → text.now ≢ name_text name) }
{
    let name = match text {
        b"begin" => EventName::Begin,
        b"send" => EventName::Send,
        b"finish" => EventName::Finish,
        b"take" => EventName::Take,
        b"cancel" => EventName::Cancel,
        b"resolved" => EventName::Resolved,
        b"unresolved" => EventName::Unresolved,
        b"dial" => EventName::Dial,
        b"up" => EventName::Up,
        b"nodial" => EventName::NoDial,
        b"arrived" => EventName::Arrived,
        b"lost" => EventName::Lost,
        b"drain" => EventName::Drain,
        b"ping" => EventName::Ping,
        b"tick" => EventName::Tick,
        b"shutdown" => EventName::Shutdown,
        _ => return None,
    };
    Some(name)
}
