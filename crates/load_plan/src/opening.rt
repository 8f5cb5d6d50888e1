// How a load begins: the resolver's result, two links, and an exchange.
ghost use Rattle.std.specs.Prelude.{◌≡◌, Some, IfOk};
ghost use Rattle.grpc_base.specs.Authorities.{IsAuthority};
ghost use Rattle.grpc_base.specs.declared.event.Event.TheVariants as event;
ghost use Rattle.load_plan.specs.Plan.{addresses, authority, config, opening};

use crate::action::{LoadAction, LoadStep, append_step};
use crate::load::Load;
use grpc_base::{Address, AddressList, BoxedAddresses, Event, Items, NoMemory, Octets, Text};
use std::alloc::Global;

/// 127.0.0.1:50051.
const FIRST: Address = Address {
    ip: 0x7F00_0001,
    port: 50051,
};

/// 127.0.0.1:50052.
const SECOND: Address = Address {
    ip: 0x7F00_0001,
    port: 50052,
};

/// The service config of a load: calls go to both links in turn, and are tried again up to three times, as the bucket allows.
const CONFIG: &[u8] =
    b"{\"loadBalancingConfig\":[{\"round_robin\":{}}],\"methodConfig\":[{\"name\":[{}],\"retryPolicy\":{\"maxAttempts\":4,\"initialBackoff\":\"0.01s\",\"maxBackoff\":\"0.1s\",\"backoffMultiplier\":2,\"retryableStatusCodes\":[\"UNAVAILABLE\"]}}],\"retryThrottling\":{\"maxTokens\":100,\"tokenRatio\":0.1}}";

/// The authority of the requests: the first address.
const AUTHORITY: &[u8] = b"127.0.0.1:50051";

/// The authority that the requests of a load name: its first address.
pub fn authority(alloc: Global) -> Result<Text, NoMemory>
    ensures value { IfOk result (λ t. t ≡ authority) }
    ensures kept { IfOk result IsAuthority }
{
    Text::of_slice(alloc, AUTHORITY)
}

impl Load {
    /// What is done before the first call, all at moment 0.
    pub fn opening(self, alloc: Global) -> Result<Items<LoadAction>, NoMemory>
        ensures { IfOk result (λ actions. actions ≡ opening) }
    {
        let mut actions = Items::new(alloc);
        append_step(&mut actions, 0, LoadStep::Post(resolved(alloc)?))?;
        append_step(&mut actions, 0, LoadStep::Post(Event::TakeDial))?;
        append_step(&mut actions, 0, LoadStep::Post(Event::LinkUp { sub: 1 }))?;
        append_step(&mut actions, 0, LoadStep::Post(Event::TakeDial))?;
        append_step(&mut actions, 0, LoadStep::Post(Event::LinkUp { sub: 2 }))?;
        append_step(&mut actions, 0, LoadStep::Exchange)?;
        Ok(actions)
    }
}

/// The result of the resolver: both addresses and the service config.
fn resolved(alloc: Global) -> Result<Event, NoMemory>
    ensures { IfOk result (λ e. e ≡ event.Resolved addresses (Some config)) }
{
    let addresses = BoxedAddresses::new(alloc, both())?;
    Ok(Event::Resolved {
        addresses,
        config: Some(config()),
    })
}

/// Both addresses.
fn both() -> AddressList
    ensures { result ≡ addresses }
{
    let mut list = AddressList::new();
    let _first = list.push(FIRST);
    let _second = list.push(SECOND);
    list
}

/// The service config.
fn config() -> Octets
    ensures { result ≡ config }
{
    Octets::of_static(CONFIG)
}
