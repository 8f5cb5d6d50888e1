// What every event is by its type; nothing runs.
ghost use Rattle.journal_room.specs.Posted.{IsPosted};

use grpc_base::Event;

/// That a request has what may be sent and no timeout above the longest duration, and that a list of addresses has none twice, which the types of an event keep.
/// Nothing runs: it is for proofs.
pub fn keeps_its_types(event: &Event)
    ensures { IsPosted event.now }
{
    match event {
        Event::Begin { request } => request.keeps_its_parts(),
        Event::Resolved { addresses, .. } => addresses.as_list().keeps_each_once(),
        _ => {}
    }
}
