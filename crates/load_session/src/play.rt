// What each action of a load does, and all of them in order.
ghost use Rattle.std.specs.Prelude.{◌≡◌, ◌<◌, Err, IfOk, OnOk, flat_map};
ghost use Rattle.std.specs.List.{range_with_len};
ghost use Rattle.grpc_base.specs.declared.event.Reply.{Reply};
ghost use Rattle.load_plan.specs.Batches.{batches_of};
ghost use Rattle.load_plan.specs.Plan.{actions_of, batch_actions};
ghost use Rattle.load_session.specs.Playing.{Does, Exchanges, ExchangesOn, Plays, Posts, Takes, is_more};
ghost use Rattle.load_session.specs.Steps.{TakesOne};
ghost use Rattle.load_session.specs.Stopping.{LacksRoom, Stops, StopsExchange, StopsIn, StopsOn, StopsTaking};

use crate::fault::LoadFault;
use crate::sides::{post, receive, send};
use channel_core::ChannelCore;
use grpc_base::{Event, Moment, Reply};
use lb_policy::Balancer;
use load_plan::{Load, LoadAction, LoadStep};
use loop_server::ServerCore;
use std::alloc::Global;

/// The most entries of a journal: so many Takes fill it.
const ENTRIES: u64 = 1_048_576;

/// Plays a whole load.
#[tactic(none)]
pub(crate) fn play_load<P: Balancer>(
    alloc: Global,
    load: Load,
    core: &mut ChannelCore<P>,
    server: &mut ServerCore,
) -> Result<(), LoadFault>
    ensures ok { OnOk result (Plays (actions_of load.seed load.calls) (record { channel = core.old; server = server.old }) (record { channel = core.new; server = server.new })) }
    ensures full { result ≡ Err LoadFault.SessionFull → StopsIn (actions_of load.seed load.calls) (record { channel = core.old; server = server.old }) }
{
    let opening = load.opening(alloc)?;
    play_all(core, server, opening.into_vec())?;
    play_batches(alloc, load, core, server)
}

/// Plays the batches of a load, one after the other.
fn play_batches<P: Balancer>(
    alloc: Global,
    load: Load,
    core: &mut ChannelCore<P>,
    server: &mut ServerCore,
) -> Result<(), LoadFault>
    ensures ok { OnOk result (Plays (flat_map (batch_actions load.seed load.calls) (range_with_len 0 (batches_of load.calls))) (record { channel = core.old; server = server.old }) (record { channel = core.new; server = server.new })) }
    ensures full { result ≡ Err LoadFault.SessionFull → StopsIn (flat_map (batch_actions load.seed load.calls) (range_with_len 0 (batches_of load.calls))) (record { channel = core.old; server = server.old }) }
{
    for number in 0..load.batches() {
        play_batch(alloc, load, core, server, number)?;
    }
    Ok(())
}

/// Plays one batch of a load.
#[tactic(none)]
fn play_batch<P: Balancer>(
    alloc: Global,
    load: Load,
    core: &mut ChannelCore<P>,
    server: &mut ServerCore,
    number: u32,
) -> Result<(), LoadFault>
    requires { number < batches_of load.calls }
    ensures ok { OnOk result (Plays (batch_actions load.seed load.calls number) (record { channel = core.old; server = server.old }) (record { channel = core.new; server = server.new })) }
    ensures full { result ≡ Err LoadFault.SessionFull → StopsIn (batch_actions load.seed load.calls number) (record { channel = core.old; server = server.old }) }
{
    let batch = load.batch(alloc, number)?;
    play_all(core, server, batch.into_vec())
}

/// Plays these actions in order.
fn play_all<P: Balancer>(
    core: &mut ChannelCore<P>,
    server: &mut ServerCore,
    actions: Vec<LoadAction>,
) -> Result<(), LoadFault>
    ensures ok { OnOk result (Plays actions.items (record { channel = core.old; server = server.old }) (record { channel = core.new; server = server.new })) }
    ensures full { result ≡ Err LoadFault.SessionFull → StopsIn actions.items (record { channel = core.old; server = server.old }) }
{
    let mut rest = actions.into_iter();
    while let Some(action) = rest.next() {
        play(core, server, action)?;
    }
    Ok(())
}

/// Plays one action.
#[tactic(none)]
fn play<P: Balancer>(
    core: &mut ChannelCore<P>,
    server: &mut ServerCore,
    action: LoadAction,
) -> Result<(), LoadFault>
    ensures ok { OnOk result (Does action.moment action.step (record { channel = core.old; server = server.old }) (record { channel = core.new; server = server.new })) }
    ensures full { result ≡ Err LoadFault.SessionFull → Stops action.moment action.step (record { channel = core.old; server = server.old }) }
{
    let LoadAction { moment, step } = action;
    match step {
        LoadStep::Post(event) => post_only(core, moment, event),
        LoadStep::Exchange => exchange(core, server, moment),
        LoadStep::Takes { call } => take_all(core, moment, call),
    }
}

/// Gives the channel an event, whose reply the journal keeps.
#[tactic(none)]
fn post_only<P: Balancer>(
    core: &mut ChannelCore<P>,
    moment: Moment,
    event: Event,
) -> Result<(), LoadFault>
    ensures ok { OnOk result ((r : Reply) × Posts moment event core.old core.new r) }
    ensures full { result ≡ Err LoadFault.SessionFull → LacksRoom event core.old }
{
    let _reply = post(core, moment, event)?;
    Ok(())
}

/// What the channel has to send on links 1 and 2 goes to the server, and what the server has to send comes to the channel.
#[tactic(none)]
fn exchange<P: Balancer>(
    core: &mut ChannelCore<P>,
    server: &mut ServerCore,
    moment: Moment,
) -> Result<(), LoadFault>
    ensures ok { OnOk result (Exchanges moment (record { channel = core.old; server = server.old }) (record { channel = core.new; server = server.new })) }
    ensures full { result ≡ Err LoadFault.SessionFull → StopsExchange moment (record { channel = core.old; server = server.old }) }
{
    exchange_on(core, server, moment, 1)?;
    exchange_on(core, server, moment, 2)
}

/// The same on one link.
#[tactic(none)]
fn exchange_on<P: Balancer>(
    core: &mut ChannelCore<P>,
    server: &mut ServerCore,
    moment: Moment,
    link: u32,
) -> Result<(), LoadFault>
    ensures ok { OnOk result (ExchangesOn moment link (record { channel = core.old; server = server.old }) (record { channel = core.new; server = server.new })) }
    ensures full { result ≡ Err LoadFault.SessionFull → StopsOn moment link (record { channel = core.old; server = server.old }) }
{
    send(core, server, moment, link)?;
    receive(core, server, moment, link)
}

/// Takes what came for a call, up to its end or until nothing further has come.
#[tactic(none)]
fn take_all<P: Balancer>(
    core: &mut ChannelCore<P>,
    moment: Moment,
    call: u32,
) -> Result<(), LoadFault>
    ensures ok { OnOk result (Takes moment call core.old core.new) }
    ensures full { result ≡ Err LoadFault.SessionFull → StopsTaking moment call core.old }
{
    for _taken in 0..ENTRIES {
        let more = take_once(core, moment, call)?;
        if !more {
            return Ok(());
        }
    }
    Err(LoadFault::SessionFull)
}

/// Takes once; says whether more may have come after it.
#[tactic(none)]
fn take_once<P: Balancer>(
    core: &mut ChannelCore<P>,
    moment: Moment,
    call: u32,
) -> Result<bool, LoadFault>
    ensures ok { IfOk result (λ more. TakesOne more moment call core.old core.new) }
    ensures full { result ≡ Err LoadFault.SessionFull → LacksRoom (Event.Take call) core.old }
{
    let reply = post(core, moment, Event::Take { call })?;
    Ok(is_more(&reply))
}

/// Whether more may have come after this reply: it is a head or a message.
fn is_more(reply: &Reply) -> bool
    ensures { result ≡ is_more reply.now }
{
    match reply {
        Reply::Head { meta: _ } | Reply::Message { octets: _ } => true,
        _ => false,
    }
}
