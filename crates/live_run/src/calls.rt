// The calls of a live script, by the worker that makes them.
ghost use Rattle.std.specs.Prelude.{◌≡◌, ◌<◌, ◌+◌, ◌++◌, ◌∷◌, [], ℕ, IfOk, OnOk, length, slice_index_or};
ghost use Rattle.live_run.specs.ByWorker.{lines_of};

use grpc_base::{CallLine, NoMemory};
use script_input::WorkerLine;
use std::alloc::Global;

/// How many workers make calls, at most.
pub const WORKERS: usize = 16;

/// The calls of each worker in their order: those of worker n stand at place n - 1, for n from 1 to 16.
pub fn by_worker(alloc: Global, calls: Vec<WorkerLine>) -> Result<Vec<Vec<CallLine>>, NoMemory>
    ensures count { IfOk result (λ groups. length groups.items ≡ 16) }
    ensures each { IfOk result (λ groups. (n : ℕ) (d : _) → n < 16 → (slice_index_or groups.items n d).items ≡ lines_of (n + 1) calls.items) }
{
    let mut groups = no_groups(alloc)?;
    let mut rest = calls.into_iter();
    while let Some(call) = rest.next() {
        add_call(&mut groups, call)?;
    }
    Ok(groups)
}

/// A list of no calls for each worker.
fn no_groups(alloc: Global) -> Result<Vec<Vec<CallLine>>, NoMemory>
    ensures count { IfOk result (λ groups. length groups.items ≡ 16) }
    ensures each { IfOk result (λ groups. (n : ℕ) (d : _) → n < 16 → (slice_index_or groups.items n d).items ≡ []) }
{
    let mut groups = Vec::new(alloc);
    while groups.len() < WORKERS {
        groups.push(Vec::new(alloc))?;
    }
    Ok(groups)
}

/// Gives a call to its worker, where it is one of these.
fn add_call(groups: &mut Vec<Vec<CallLine>>, call: WorkerLine) -> Result<(), NoMemory>
    ensures count { length groups.new.items ≡ length groups.old.items }
    ensures each { OnOk result ((n : ℕ) (d : _) → n < length groups.old.items → (slice_index_or groups.new.items n d).items ≡ (slice_index_or groups.old.items n d).items ++ lines_of (n + 1) (call ∷ [])) }
{
    let WorkerLine { worker, line } = call;
    if let Some(before) = worker.checked_sub(1) {
        let at = before as usize;
        if at < groups.len() {
            groups[at].push(line)?;
        }
    }
    Ok(())
}
