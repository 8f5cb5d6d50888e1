// What goes out on links.
ghost use Rattle.std.specs.Prelude.{◌≡◌, IfOk};
ghost use Rattle.channel_core.specs.Draining.{DrainLeaves, streams_given};

use crate::state::State;
use attempt_ledger::Row;
use grpc_base::{Items, NoMemory, Octets, Reply};
use lb_policy::Balancer;
use ledger_stamps::give_stream;
use std::alloc::Global;

impl<P: Balancer> State<P> {
    pub fn drain(&mut self, link: u32, room: u32) -> Result<Reply, NoMemory>
        ensures { IfOk result (λ r. DrainLeaves link room self.old r self.new) }
    {
        match self.links.drain(link, room, &mut self.book)? {
            Some(drained) => {
                stamp_streams(
                    self.alloc,
                    &mut self.book.ledger.rows,
                    drained.opened.as_slice(),
                );
                Ok(Reply::Octets {
                    octets: drained.octets,
                })
            }
            None => Ok(Reply::Octets {
                octets: Octets::new(),
            }),
        }
    }
}

/// Stamps the rows whose streams were opened.
fn stamp_streams(alloc: Global, rows: &mut Items<Row>, opened: &[(u64, u32)])
    ensures { rows.new ≡ streams_given opened.now rows.old }
{
    for pair in opened {
        let (row, stream) = *pair;
        give_stream(alloc, rows, row, stream);
    }
}
