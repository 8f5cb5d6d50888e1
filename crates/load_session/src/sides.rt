// One event for the channel, and the bytes of one link between the channel and the server.
ghost use Rattle.std.specs.Prelude.{◌≡◌, ℕ, Option, [], Err, IfOk, OnOk};
ghost use Rattle.loop_server.specs.Steps.{CoreArrives};
ghost use Rattle.load_session.specs.Playing.{ArriveAt, Receives, Posts, Sends, octets_in};
ghost use Rattle.load_session.specs.Stopping.{LacksRoom, StopsReceiving, StopsSending};

use crate::fault::LoadFault;
use channel_core::{ChannelCore, CoreError};
use grpc_base::{Event, Moment, Octets, Reply, Stamped};
use journal_room::keeps_its_types;
use lb_policy::Balancer;
use load_plan::EVENT_WORD;
use loop_server::{ServerCore, ServerFault};

/// The room of a drain, in bytes.
const ROOM: u32 = 65_536;

/// Gives the channel an event.
#[tactic(none)]
pub(crate) fn post<P: Balancer>(
    core: &mut ChannelCore<P>,
    moment: Moment,
    event: Event,
) -> Result<Reply, LoadFault>
    ensures ok { IfOk result (λ r. Posts moment event core.old core.new r) }
    ensures full { result ≡ Err LoadFault.SessionFull → LacksRoom event core.old }
{
    keeps_its_types(&event);
    let stamped = Stamped {
        moment,
        word: EVENT_WORD,
        event,
    };
    match core.step(stamped) {
        Ok(reply) => Ok(reply),
        Err(error) => match error {
            CoreError::SessionFull {
                entries: _,
                octets: _,
            } => Err(LoadFault::SessionFull),
            CoreError::NoMemory { spent: _ } => Err(LoadFault::NoMemory),
        },
    }
}

/// Takes what the channel has to send on a link to the server.
#[tactic(none)]
pub(crate) fn send<P: Balancer>(
    core: &mut ChannelCore<P>,
    server: &mut ServerCore,
    moment: Moment,
    link: u32,
) -> Result<(), LoadFault>
    ensures ok { OnOk result (Sends moment link (record { channel = core.old; server = server.old }) (record { channel = core.new; server = server.new })) }
    ensures full { result ≡ Err LoadFault.SessionFull → StopsSending link core.old }
{
    if !core.can_drain(link) {
        return Ok(());
    }
    let reply = post(core, moment, Event::Drain { link, room: ROOM })?;
    let octets = octets_in(reply);
    deliver(server, link, &octets)
}

/// Hands the server bytes of a link, whether they break it or not.
#[tactic(none)]
fn deliver(server: &mut ServerCore, link: u32, octets: &Octets) -> Result<(), LoadFault>
    ensures ok { OnOk result ((broken : Option ℕ) × CoreArrives server.old link octets.now server.new broken) }
    ensures full { result ≡ Err LoadFault.SessionFull → ⊥ }
{
    match server.arrived(link, octets.as_slice()) {
        Ok(()) => Ok(()),
        Err(fault) => match fault {
            ServerFault::Broken { code: _ } => Ok(()),
            ServerFault::NoMemory => Err(LoadFault::NoMemory),
        },
    }
}

/// Takes what the server has to send on a link to the channel.
#[tactic(none)]
pub(crate) fn receive<P: Balancer>(
    core: &mut ChannelCore<P>,
    server: &mut ServerCore,
    moment: Moment,
    link: u32,
) -> Result<(), LoadFault>
    ensures ok { OnOk result (Receives moment link (record { channel = core.old; server = server.old }) (record { channel = core.new; server = server.new })) }
    ensures full { result ≡ Err LoadFault.SessionFull → StopsReceiving link (record { channel = core.old; server = server.old }) }
{
    let octets = server.drain(link)?;
    arrive(core, moment, link, octets)
}

/// Gives the channel bytes of a link, where there are some.
fn arrive<P: Balancer>(
    core: &mut ChannelCore<P>,
    moment: Moment,
    link: u32,
    octets: Octets,
) -> Result<(), LoadFault>
    ensures ok { OnOk result (ArriveAt moment link octets core.old core.new) }
    ensures full { result ≡ Err LoadFault.SessionFull → (octets ≡ [] → ⊥) × LacksRoom (Event.Arrived link octets) core.old }
{
    if octets.is_empty() {
        return Ok(());
    }
    let piece = octets;
    let _reply = post(core, moment, Event::Arrived { link, piece })?;
    Ok(())
}

/// The bytes that a reply gives.
fn octets_in(reply: Reply) -> Octets
    ensures { result ≡ octets_in reply }
{
    match reply {
        Reply::Octets { octets } => octets,
        _ => Octets::new(),
    }
}
