// What the resolver and the dialers report.
ghost use Rattle.std.specs.Prelude.{◌≡◌, IfOk, OnOk};
ghost use Rattle.std.specs.Option.{option_copied};
ghost use Rattle.grpc_base.specs.declared.event.Reply.TheVariants as reply;
ghost use Rattle.channel_core.specs.Applying as applying;
ghost use Rattle.channel_core.specs.Arrivals as arrivals;
ghost use Rattle.channel_core.specs.Steps as steps;

use crate::state::State;
use crate::state::call_event::CallEvent;
use crate::state::timers::number_of;
use channel_net::LinkFault;
use grpc_base::{
    AddressList, ConfigFault, EndCause, Kind, KindSet, NoMemory, Octets, Refusal, Reply,
};
use lb_policy::Balancer;
use ledger_stamps::add_link;
use service_config::{Config, read_config};
use std::alloc::Global;

impl<P: Balancer> State<P> {
    pub fn resolved(
        &mut self,
        addresses: &AddressList,
        config: Option<&Octets>,
    ) -> Result<Reply, NoMemory>
        ensures state { OnOk result (self.new ≡ (applying.resolved addresses.now (option_copied config.entry) self.old).state) }
        ensures reply { IfOk result (λ r. r ≡ (applying.resolved addresses.now (option_copied config.entry) self.old).reply) }
    {
        self.resolver.accept(addresses);
        let read = read(self.alloc, config, self.net.kinds())?;
        let reply = self.take_config(read)?;
        self.readdress(addresses)?;
        Ok(reply)
    }

    /// Holds the config that was read, or reports its fault.
    fn take_config(&mut self, read: Result<Config, ConfigFault>) -> Result<Reply, NoMemory>
        ensures state { OnOk result (self.new ≡ (applying.config_taken read self.old).state) }
        ensures reply { IfOk result (λ r. r ≡ (applying.config_taken read self.old).reply) }
    {
        match read {
            Ok(config) => {
                self.book.buckets.follow(config.throttle)?;
                self.held = Some(config);
                Ok(Reply::Done)
            }
            Err(fault) => {
                self.unconfigured = self.held.is_none();
                Ok(Reply::BadConfig { fault })
            }
        }
    }

    /// The addresses go to the generation of the config's kind.
    fn readdress(&mut self, addresses: &AddressList) -> Result<(), NoMemory>
        ensures { OnOk result (self.new ≡ applying.readdressed addresses.now self.old) }
    {
        let Some(config) = &self.held else {
            return Ok(());
        };
        let kind = config.kind;
        self.readdress_to(kind, addresses)
    }

    fn readdress_to(&mut self, kind: Kind, addresses: &AddressList) -> Result<(), NoMemory>
        ensures { OnOk result (self.new ≡ applying.readdressed_to kind addresses.now self.old) }
    {
        let entry = self.book.ledger.entry;
        let shut = self
            .net
            .resolved(kind, addresses, &mut self.book.ledger.generations, entry)?;
        self.stamp_all_gone(shut);
        Ok(())
    }

    pub fn resolve_failed(&mut self) -> Reply
        ensures state { self.new ≡ (arrivals.resolve_failed self.old).state }
        ensures reply { result ≡ (arrivals.resolve_failed self.old).reply }
    {
        self.resolver.refuse();
        if self.held.is_none() {
            self.unconfigured = true;
        }
        Reply::Done
    }

    pub fn take_dial(&mut self) -> Reply
        ensures state { self.new ≡ (arrivals.dial_asked self.old).state }
        ensures reply { result ≡ (arrivals.dial_asked self.old).reply }
    {
        let word = self.next_word();
        match self.net.dial(self.book.moment, word) {
            Some(dialing) => {
                self.count_draw(dialing.drew);
                Reply::Dial {
                    sub: dialing.sub,
                    address: dialing.address,
                    until: dialing.until,
                }
            }
            None => Reply::NotYet,
        }
    }

    /// The random word of the step's next draw.
    pub fn next_word(&self) -> u64
        ensures { result ≡ steps.next_word self.now }
    {
        self.word.wrapping_add(self.drawn.wrapping_mul(STRIDE))
    }

    /// Counts a draw, if one was made.
    pub fn count_draw(&mut self, drew: bool)
        ensures { self.new ≡ steps.drawn_if drew self.old }
    {
        if drew {
            self.drawn = self.drawn.wrapping_add(1);
        }
    }

    pub fn link_up(&mut self, sub: u32) -> Result<Reply, NoMemory>
        ensures state { OnOk result (self.new ≡ (arrivals.linked_up sub self.old).state) }
        ensures reply { IfOk result (λ r. r ≡ (arrivals.linked_up sub self.old).reply) }
    {
        let link = self.links.next_number();
        match self.net.up(sub, link) {
            Ok(()) => {
                self.links.add()?;
                let entry = self.book.ledger.entry;
                let _number = add_link(&mut self.book.ledger.links, sub, entry)?;
                Ok(Reply::Link { link })
            }
            Err(LinkFault::Refused(refusal)) => Ok(Reply::Refused { refusal }),
            Err(LinkFault::NoMemory) => Err(NoMemory),
        }
    }

    pub fn dial_failed(&mut self, sub: u32) -> Reply
        ensures state { self.new ≡ (arrivals.dial_failed_by sub self.old).state }
        ensures reply { result ≡ (arrivals.dial_failed_by sub self.old).reply }
    {
        match self.net.dial_failed(sub) {
            Ok(()) => {
                self.resolver.want();
                Reply::Done
            }
            Err(refusal) => Reply::Refused { refusal },
        }
    }

    pub fn shut_down(&mut self) -> Result<Reply, NoMemory>
        ensures state { OnOk result (self.new ≡ applying.shut_down self.old) }
        ensures reply { IfOk result (λ r. r ≡ reply.Done) }
    {
        if self.shut {
            return Ok(Reply::Done);
        }
        self.shut = true;
        self.close_all()?;
        let entry = self.book.ledger.entry;
        let shut = self.net.shut(&mut self.book.ledger.generations, entry)?;
        self.stamp_all_gone(shut);
        Ok(Reply::Done)
    }

    #[tactic(auto, using(crate::proofs::SettlingLaws::closed_step))]
    fn close_all(&mut self) -> Result<(), NoMemory>
        ensures { OnOk result (self.new ≡ applying.all_closed self.old) }
    {
        let count = self.book.calls.count();
        for index in 0..count {
            self.close_at(index)?;
        }
        Ok(())
    }

    fn close_at(&mut self, index: usize) -> Result<(), NoMemory>
        ensures { OnOk result (self.new ≡ applying.closed_at index self.old) }
    {
        let call = number_of(index as u64).saturating_add(1);
        drop(self.act_on(call, &CallEvent::Close(EndCause::Shut))?);
        Ok(())
    }

    pub fn lacks_link(&self, link: u32) -> Option<Refusal>
        ensures { result ≡ applying.link_refusal link self.now }
    {
        if self.links.get(link).is_none() {
            Some(Refusal::NoSuchLink)
        } else {
            self.is_gone(link).then_some(Refusal::LinkGone)
        }
    }
}

/// What the words of one step's draws differ by: 2^64 over the golden ratio.
const STRIDE: u64 = 0x9E37_79B9_7F4A_7C15;

/// The config that a result of the resolver brings, the empty one where it brings none; or its fault.
fn read(
    alloc: Global,
    config: Option<&Octets>,
    kinds: KindSet,
) -> Result<Result<Config, ConfigFault>, NoMemory>
    ensures { IfOk result (λ read. read ≡ applying.config_read kinds (option_copied config.entry)) }
{
    let Some(text) = config else {
        return Ok(Ok(Config::empty(alloc)));
    };
    match read_config(alloc, text.as_slice(), kinds) {
        Ok(config) => Ok(Ok(config)),
        Err(ConfigFault::NoMemory) => Err(NoMemory),
        Err(fault) => Ok(Err(fault)),
    }
}
