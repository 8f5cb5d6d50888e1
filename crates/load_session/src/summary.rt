// The session of a load, played and summed up.
ghost use Rattle.std.specs.Prelude.{◌≡◌, ◌≤◌, Err, IfOk, OnOk, map, true};
ghost use Rattle.channel_core.specs.Core.{IsNewBy};
ghost use Rattle.loop_server.specs.Script.{all_lines};
ghost use Rattle.loop_server.specs.Server.{new_core};
ghost use Rattle.load_plan.specs.Answers.{server_script};
ghost use Rattle.load_plan.specs.Plan.{authority};
ghost use Rattle.policy_rack.specs.Kinds.{are_ready};
ghost use Rattle.load_session.specs.Session.{GetsFull, SumsUp};
ghost use Rattle.load_session.specs.Steps.{PlaysOn, StopsFrom, SumsFrom};
ghost use Rattle.load_session.specs.Sums.{summary_of};

use crate::ends::outcomes;
use crate::fault::LoadFault;
use crate::play::play_load;
use crate::rows::rows_with;
use attempt_ledger::{Journal, Ledger, RowKind};
use channel_core::ChannelCore;
use grpc_base::NoMemory;
use lb_policy::Balancer;
use load_plan::{Load, LoadSummary, authority};
use loop_server::ServerCore;
use std::alloc::Global;

/// Plays the session of a load in memory, with these policies, of which no two are of one kind and one is `pick_first`, and
/// sums it up.
#[tactic(none)]
pub fn summarize<P: Balancer>(
    alloc: Global,
    load: Load,
    policies: Vec<P>,
) -> Result<LoadSummary, LoadFault>
    requires { are_ready (map P.seen policies.items) ≡ true }
    ensures ok { IfOk result (SumsUp load (map P.seen policies.items)) }
    // The journal has no room for an event.
    ensures full { result ≡ Err LoadFault.SessionFull → GetsFull load (map P.seen policies.items) }
{
    let mut core = new_channel(alloc, policies)?;
    sum_up(alloc, load, &mut core)
}

/// A new channel whose requests have the authority of loads.
#[tactic(none)]
fn new_channel<P: Balancer>(alloc: Global, policies: Vec<P>) -> Result<ChannelCore<P>, NoMemory>
    requires { are_ready (map P.seen policies.items) ≡ true }
    ensures { IfOk result (IsNewBy alloc authority (map P.seen policies.items)) }
{
    let text = authority(alloc)?;
    ChannelCore::new(alloc, text, policies)
}

/// A new server by the script of a load.
#[tactic(none)]
fn new_server(alloc: Global, load: Load) -> Result<ServerCore, NoMemory>
    ensures { IfOk result (λ s. s ≡ new_core (all_lines (server_script load.seed load.calls))) }
{
    let script = load.server(alloc)?;
    ServerCore::new(alloc, script)
}

/// Plays the session of a load on a new channel, and sums it up.
#[tactic(none)]
fn sum_up<P: Balancer>(
    alloc: Global,
    load: Load,
    core: &mut ChannelCore<P>,
) -> Result<LoadSummary, LoadFault>
    ensures ok { IfOk result (SumsFrom load core.old) }
    ensures full { result ≡ Err LoadFault.SessionFull → StopsFrom load core.old }
{
    play_on(alloc, load, core)?;
    let summary = summary_of(alloc, load, core.journal(), core.ledger())?;
    Ok(summary)
}

/// Plays the session of a load on a new channel, against a new server.
#[tactic(none)]
fn play_on<P: Balancer>(
    alloc: Global,
    load: Load,
    core: &mut ChannelCore<P>,
) -> Result<(), LoadFault>
    ensures ok { OnOk result (PlaysOn load core.old core.new) }
    ensures full { result ≡ Err LoadFault.SessionFull → StopsFrom load core.old }
{
    let mut server = new_server(alloc, load)?;
    play_load(alloc, load, core, &mut server)
}

/// What a journal and its ledger come to.
fn summary_of(
    alloc: Global,
    load: Load,
    journal: &Journal,
    ledger: &Ledger,
) -> Result<LoadSummary, NoMemory>
    ensures { IfOk result (λ s. s ≡ summary_of load journal.now ledger.now) }
{
    let outcomes = outcomes(alloc, journal.entries.as_slice(), load.calls)?;
    let rows = ledger.rows.as_slice();
    Ok(LoadSummary {
        seed: load.seed,
        calls: load.calls,
        entries: journal.entries.len() as u64,
        rows: rows.len() as u64,
        ok: outcomes.well,
        failed: outcomes.failed,
        open: outcomes.unended,
        retries: rows_with(rows, RowKind::Retry),
        transparent: rows_with(rows, RowKind::Transparent),
    })
}
