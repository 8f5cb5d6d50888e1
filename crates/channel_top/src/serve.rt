// The mode `serve`.
ghost use Rattle.std.specs.Prelude.{◌≡◌, ◌⊎◌, ◌≢◌};
ghost use Rattle.gate_io.specs.Outside.{Appends, AppendsPrefix, Rises, one_more};
ghost use Rattle.grpc_base.specs.Scripts.{IsServerScript};
ghost use Rattle.channel_top.specs.Serve.{EndsNotListening, IsServeText, IsServed, StopsInServer, ReportsBadAnswer, served_text};
ghost use Rattle.session_text.specs.Writing.{WritesAll, WritesPrefix, WritesSome};

use crate::links::{Place, serve_at};
use crate::reporting::report_served;
use gate_io::{Listener, Sink, Source};
use grpc_base::ServerScript;
use link_server::{ScriptServer, Served};
use script_input::{InputFault, read_server};
use session_text::{report_bad, unwritten};
use std::alloc::Global;
use std::sync::Wait;

/// Reads a server script, serves so many links of the listener by it until each has ended, says so, and gives the status of
/// the program. It may never return.
///
/// | Status | When | Written |
/// |---|---|---|
/// | 0 | each link was accepted and has ended | `served <links>` |
/// | 3 | a line of the script is bad | `fault line <n> cause <c>` |
/// | 4 | a read failed before the input's end and its first bad line | nothing |
/// | 5 | a write failed | a prefix of the output |
/// | 6 | out of memory, also for one link | nothing, or a prefix of the output |
/// | 8 | the listener did not open, or did not accept a link | nothing |
pub fn run_serve<R: Wait, S: Source, K: Sink, L: Listener>(
    rt: &R,
    alloc: Global,
    place: Place,
    script: &mut S,
    report: &mut K,
    listener: &mut L,
) -> u8
    ensures done { result ≡ 0 → WritesAll (IsServed place.links (S.left script.old) (S.left script.new)) (K.taken report.old) (K.taken report.new) }
    ensures line { result ≡ 3 → WritesAll (ReportsBadAnswer (S.left script.old) (S.left script.new)) (K.taken report.old) (K.taken report.new) }
    ensures reading { result ≡ 4 → StopsInServer (S.left script.old) (S.left script.new) (K.taken report.old) (K.taken report.new) (S.faults script.old) (S.faults script.new) }
    ensures writing { result ≡ 5 → Rises (K.faults report.old) (K.faults report.new) × WritesPrefix (IsServeText place.links (S.left script.old) (S.left script.new)) (K.taken report.old) (K.taken report.new) }
    ensures memory { result ≡ 6 → WritesSome (IsServeText place.links (S.left script.old) (S.left script.new)) (K.taken report.old) (K.taken report.new) }
    ensures not_listening { result ≡ 8 → EndsNotListening (S.left script.old) (S.left script.new) (K.taken report.old) (K.taken report.new) (L.faults listener.old) (L.faults listener.new) }
    ensures listened { result ≢ 6 → result ≢ 8 → L.faults listener.new ≡ L.faults listener.old }
    ensures known { (result ≡ 0) ⊎ (result ≡ 3) ⊎ (result ≡ 4) ⊎ (result ≡ 5) ⊎ (result ≡ 6) ⊎ (result ≡ 8) }
{
    match read_server(alloc, script) {
        Ok(read) => serve_script(rt, alloc, place, read, report, listener),
        Err(fault) => match fault {
            InputFault::Empty => unreachable!(),
            InputFault::BadLine { line, cause } => report_bad(alloc, line, cause, report),
            InputFault::ReadFailed => 4,
            InputFault::NoMemory => 6,
        },
    }
}

/// Serves by a script that was read.
fn serve_script<R: Wait, K: Sink, L: Listener>(
    rt: &R,
    alloc: Global,
    place: Place,
    script: ServerScript,
    report: &mut K,
    listener: &mut L,
) -> u8
    requires { IsServerScript script }
    ensures done { result ≡ 0 → Appends (K.taken report.old) (K.taken report.new) (served_text place.links) }
    ensures writing { result ≡ 5 → Rises (K.faults report.old) (K.faults report.new) }
    ensures prefix { (result ≡ 5) ⊎ (result ≡ 6) → AppendsPrefix (K.taken report.old) (K.taken report.new) (served_text place.links) }
    ensures not_listening { result ≡ 8 → (K.taken report.new ≡ K.taken report.old) × (L.faults listener.new ≡ one_more (L.faults listener.old)) }
    ensures listened { result ≢ 6 → result ≢ 8 → L.faults listener.new ≡ L.faults listener.old }
    ensures known { (result ≡ 0) ⊎ (result ≡ 5) ⊎ (result ≡ 6) ⊎ (result ≡ 8) }
{
    let Ok(mut core) = ScriptServer::new(alloc, script) else {
        return 6;
    };
    match serve_at(rt, alloc, &mut core, place, listener) {
        Served::Whole => report_whole(alloc, place.links, report),
        Served::NotListening => 8,
        Served::NoMemory => 6,
    }
}

/// Reports that so many links were served, and gives the status of the program.
fn report_whole<K: Sink>(alloc: Global, links: u32, report: &mut K) -> u8
    ensures done { result ≡ 0 → Appends (K.taken report.old) (K.taken report.new) (served_text links) }
    ensures writing { result ≡ 5 → Rises (K.faults report.old) (K.faults report.new) }
    ensures prefix { (result ≡ 5) ⊎ (result ≡ 6) → AppendsPrefix (K.taken report.old) (K.taken report.new) (served_text links) }
    ensures known { (result ≡ 0) ⊎ (result ≡ 5) ⊎ (result ≡ 6) }
{
    match report_served(alloc, links, report) {
        Ok(()) => 0,
        Err(fault) => unwritten(fault),
    }
}
