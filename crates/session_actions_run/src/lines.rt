// An action in a line: its name, and what it holds. Of what is long only the name or the size stands there: of an event and a reply, whose line a
// report has, the name; of a frame its type, stream, flags and length.
use crate::words::{
    Dash, PickText, PlaceText, PushbackText, config_word, event_name, frame_text, reply_name,
    state_name, yes_or_no,
};
use attempt_ledger::{Placed, RowEnd};
use grpc_base::Conn;
use session_actions::{Action, Sent};
use std::io;

/// Writes the line of an action.
pub fn print_action<R: Print>(rt: &R, action: &Action) -> io::Result<()> {
    match action {
        Action::EntryOpens {
            posted,
            word,
            event,
        } => {
            let posted = posted.nanos();
            let event = event_name(event);
            println!(rt; "    EntryOpens         posted {posted}, word {word}, event {event}")
        }
        Action::EventRefused { refusal } => {
            println!(rt; "    EventRefused       refusal {refusal:?}")
        }
        Action::EventAnswered { reply } => {
            let reply = reply_name(reply);
            println!(rt; "    EventAnswered      reply {reply}")
        }
        Action::SettlingBegins => println!(rt; "    SettlingBegins"),
        other => print_of_calls(rt, other),
    }
}

/// Writes the line of the action that closes an entry, with the state of the channel after it.
pub fn print_closing<R: Print>(rt: &R, state: Conn) -> io::Result<()> {
    let state = state_name(state);
    println!(rt; "    EntryCloses        state {state}")
}

/// Actions of calls and configurations, or those below.
fn print_of_calls<R: Print>(rt: &R, action: &Action) -> io::Result<()> {
    match action {
        Action::CallBegins => println!(rt; "    CallBegins"),
        Action::MessageAccepted { call } => println!(rt; "    MessageAccepted    call {call}"),
        Action::RequestFinished { call } => println!(rt; "    RequestFinished    call {call}"),
        Action::ItemTaken { call, item } => {
            let item = reply_name(item);
            println!(rt; "    ItemTaken          call {call}, item {item}")
        }
        Action::CallEnds { call, cause } => {
            println!(rt; "    CallEnds           call {call}, cause {cause:?}")
        }
        Action::ConfigRead { config } => {
            let config = config_word(config);
            println!(rt; "    ConfigRead         config {config}")
        }
        Action::ResolutionFailed => println!(rt; "    ResolutionFailed"),
        Action::CallConfigured { call, config } => {
            println!(rt; "    CallConfigured     call {call}, config {config}")
        }
        other => print_of_attempts(rt, other),
    }
}

/// Actions of attempts, or those below.
fn print_of_attempts<R: Print>(rt: &R, action: &Action) -> io::Result<()> {
    match action {
        Action::AttemptMade {
            call,
            number,
            kind,
            due,
        } => {
            println!(rt;
                "    AttemptMade        call {call}, number {number}, kind {kind:?}, due {due}"
            )
        }
        Action::HedgeWithheld { call } => println!(rt; "    HedgeWithheld      call {call}"),
        Action::PickRequested {
            row,
            generation,
            answer,
        } => {
            let answer = PickText(*answer);
            println!(rt;
                "    PickRequested      row {row}, generation {generation}, answer {answer}"
            )
        }
        Action::AttemptPlaced { row, at } => print_placing(rt, *row, *at),
        Action::AttemptEnds { row, end } => print_end(rt, *row, end),
        Action::CallCommitted { row, why } => {
            println!(rt; "    CallCommitted      row {row}, why {why:?}")
        }
        Action::StreamReset { row, code } => {
            println!(rt; "    StreamReset        row {row}, code {code}")
        }
        other => print_of_policies(rt, other),
    }
}

fn print_placing<R: Print>(rt: &R, row: u64, at: Placed) -> io::Result<()> {
    let entry = at.entry;
    let moment = at.moment.nanos();
    let generation = at.generation;
    let sub = at.sub;
    let link = at.link;
    println!(rt;
        "    AttemptPlaced      row {row}, entry {entry}, moment {moment}, generation {generation}, sub {sub}, link {link}"
    )
}

fn print_end<R: Print>(rt: &R, row: u64, end: &RowEnd) -> io::Result<()> {
    let entry = end.entry;
    let moment = end.moment.nanos();
    let code = end.code;
    let pushback = PushbackText(end.pushback);
    let unseen = yes_or_no(end.unseen);
    let seen = end.seen;
    let cause = end.cause;
    print!(rt;
        "    AttemptEnds        row {row}, entry {entry}, moment {moment}, code {code:?}, pushback {pushback}, unseen {unseen}, seen {seen}, cause {cause:?}"
    )?;
    print_drawn(rt, end)
}

/// What an end drew: the tokens after it, and a random word.
fn print_drawn<R: Print>(rt: &R, end: &RowEnd) -> io::Result<()> {
    let tokens = Dash(match end.tokens {
        Some(tokens) => Some(u64::from(tokens)),
        None => None,
    });
    let word = Dash(end.word);
    println!(rt; ", tokens {tokens}, word {word}")
}

/// Actions of policies, or those below.
fn print_of_policies<R: Print>(rt: &R, action: &Action) -> io::Result<()> {
    match action {
        Action::PolicyBegins { kind } => println!(rt; "    PolicyBegins       kind {kind:?}"),
        Action::AddressesGiven { generation } => {
            println!(rt; "    AddressesGiven     generation {generation}")
        }
        Action::PolicyTakesOver { generation } => {
            println!(rt; "    PolicyTakesOver    generation {generation}")
        }
        Action::PolicyRetired { generation } => {
            println!(rt; "    PolicyRetired      generation {generation}")
        }
        other => print_of_subs(rt, other),
    }
}

/// Actions of subchannels, or those below.
fn print_of_subs<R: Print>(rt: &R, action: &Action) -> io::Result<()> {
    match action {
        Action::SubchannelAdded { address } => {
            let address = PlaceText(*address);
            println!(rt; "    SubchannelAdded    address {address}")
        }
        Action::SubchannelShut { sub } => println!(rt; "    SubchannelShut     sub {sub}"),
        Action::SubchannelConnects { sub } => println!(rt; "    SubchannelConnects sub {sub}"),
        Action::DialTaken { sub, again, until } => {
            println!(rt; "    DialTaken          sub {sub}, again {again}, until {until}")
        }
        Action::DialFails { sub } => println!(rt; "    DialFails          sub {sub}"),
        Action::ConnectTimesOut { sub } => println!(rt; "    ConnectTimesOut    sub {sub}"),
        Action::BackoffEnds { sub } => println!(rt; "    BackoffEnds        sub {sub}"),
        Action::LinkUp { sub } => println!(rt; "    LinkUp             sub {sub}"),
        Action::SettingsArrive { sub } => println!(rt; "    SettingsArrive     sub {sub}"),
        Action::LinkDown { sub } => println!(rt; "    LinkDown           sub {sub}"),
        other => print_of_wire(rt, other),
    }
}

/// Actions on the wire. (The others stand above.)
fn print_of_wire<R: Print>(rt: &R, action: &Action) -> io::Result<()> {
    match action {
        Action::BytesArrive { link } => println!(rt; "    BytesArrive        link {link}"),
        Action::FrameRead { link, read } => {
            let frame = frame_text(&read.frame);
            let end = read.end;
            println!(rt; "    FrameRead          link {link}, {frame}, end {end}")
        }
        Action::LinkBreaks { link, code } => {
            println!(rt; "    LinkBreaks         link {link}, code {code}")
        }
        Action::LinkLost { link } => println!(rt; "    LinkLost           link {link}"),
        Action::PingQueued { link } => println!(rt; "    PingQueued         link {link}"),
        Action::FrameWritten { link, sent } => print_sent(rt, *link, sent),
        Action::ChannelShuts => println!(rt; "    ChannelShuts"),
        _ => Ok(()),
    }
}

fn print_sent<R: Print>(rt: &R, link: u32, sent: &Sent) -> io::Result<()> {
    match sent {
        Sent::Preface => println!(rt; "    FrameWritten       link {link}, the preface"),
        Sent::Frame { frame } => {
            let frame = frame_text(frame);
            println!(rt; "    FrameWritten       link {link}, {frame}")
        }
    }
}
