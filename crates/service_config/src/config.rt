// A service config as the channel keeps it, and its choice for a path.
ghost use Rattle.std.specs.Prelude.{◌≡◌, true, codes, Ok};
ghost use Rattle.std.specs.Option.{option_copied};
ghost use Rattle.grpc_base.specs.Kinds.{KindsSeen, has_kind};
ghost use Rattle.grpc_base.specs.Requests.{names_of_path};
ghost use Rattle.service_config.specs.Choice.{empty_config, entry_of, entry_for, limit_of, taken, chosen_for};
ghost use Rattle.service_config.specs.Reading.{config_of};

use grpc_base::{
    CallPlan, Chosen, Duration, Items, Kind, MessageLimit, Text, Throttle, names_of_path,
};
use std::alloc::Global;

/// What a config says of one name: a method of a service, a whole service (an empty method), or every method
/// (both empty).
#[derive(Debug, Drop)]
pub struct Method {
    pub service: Text,
    pub method: Text,
    /// Whether its calls wait for ready, where the config says so.
    pub wait: Option<bool>,
    /// The longest that a call may take.
    pub timeout: Option<Duration>,
    /// The limit on each message of the request, in bytes, as the config has it.
    pub request: Option<u32>,
    /// The limit on each message of the response, in bytes, as the config has it.
    pub response: Option<u32>,
    pub plan: CallPlan,
}

/// A valid service config.
#[derive(Debug, Drop)]
pub struct Config {
    /// The load balancing policy.
    pub kind: Kind,
    pub throttle: Option<Throttle>,
    /// What it says of each name, in the text's order.
    pub methods: Items<Method>,
}

/// The first entry of this service and this method.
fn entry_of<'a>(methods: &'a [Method], service: &[u8], method: &[u8]) -> Option<&'a Method>
    ensures { option_copied result ≡ entry_of service.now method.now methods.now }
{
    methods.iter().find(|m| m.service.as_slice() == service && m.method.as_slice() == method)
}

/// The entry that is taken: the exact one, else that of the service, else that of the empty name.
fn entry_for<'a>(methods: &'a [Method], path: &[u8]) -> Option<&'a Method>
    ensures { option_copied result ≡ entry_for methods.now (names_of_path path.now) }
{
    if let Some((service, method)) = names_of_path(path) {
        if let Some(entry) = entry_of(methods, service, method) {
            return Some(entry);
        }
        if let Some(entry) = entry_of(methods, service, b"") {
            return Some(entry);
        }
    }
    entry_of(methods, b"", b"")
}

/// A limit on messages as a call keeps it.
fn limit_of(limit: Option<u32>) -> MessageLimit
    ensures { result ≡ limit_of limit }
{
    let bytes = limit
        .unwrap_or(MessageLimit::LARGEST)
        .min(MessageLimit::LARGEST);
    MessageLimit::new(bytes).unwrap()
}

/// What an entry says, where there is one.
fn taken(throttle: Option<Throttle>, entry: Option<&Method>) -> Chosen
    ensures { result ≡ taken throttle (option_copied entry.entry) }
{
    match entry {
        None => Chosen {
            wait: None,
            timeout: None,
            request: limit_of(None),
            response: limit_of(None),
            plan: CallPlan::None,
            throttle,
        },
        Some(entry) => Chosen {
            wait: entry.wait,
            timeout: entry.timeout,
            request: limit_of(entry.request),
            response: limit_of(entry.response),
            plan: entry.plan,
            throttle,
        },
    }
}

impl Config {
    /// The empty config, which stands where no config is given. It needs no memory.
    #[tactic(auto, using(crate::proofs::Supported::empty_reads))]
    pub fn empty(alloc: Global) -> Config
        ensures empty { result ≡ empty_config }
        // It is what `{}` is read as.
        ensures reads { (kinds : KindsSeen) → has_kind kinds Kind.PickFirst ≡ true → config_of kinds (codes "{}") ≡ Ok result }
    {
        Config {
            kind: Kind::PickFirst,
            throttle: None,
            methods: Items::new(alloc),
        }
    }

    /// What the config chooses for a path: the entry of its service and method, else that of its service, else
    /// the default's, else nothing. A text that is no path has neither.
    pub fn chosen(&self, path: &Text) -> Chosen
        ensures { result ≡ chosen_for self.now path.now }
    {
        taken(
            self.throttle,
            entry_for(self.methods.as_slice(), path.as_slice()),
        )
    }
}
