// Looking a name up: the answer, and what a caller may rest on.
ghost use Rattle.std.specs.Prelude.{◌≡◌, ◌≤◌, ◌∷◌, ℕ, true, false, [], List, Option, MatchOption, Some, length};
ghost use Rattle.grpc_base.specs.Addresses.{with_address};
ghost use Rattle.grpc_base.specs.Counts.{one_more};
ghost use Rattle.grpc_base.specs.declared.host.DnsName.{DnsName};
ghost use Rattle.dns_watch.specs.Lookups.{Answers, CountsFaults, addresses_at, found_or_failed, is_found, looked_of};
ghost use Rattle.dns_watch.specs.declared.lookup.Looked.{Looked};

use grpc_base::{Address, AddressList, DnsName};

/// What a lookup answers.
#[derive(Debug, Drop)]
pub enum Looked {
    /// The first 64 IPv4 addresses of the name, at least one, each with the name's port.
    Found(AddressList),
    /// The lookup failed, or the name has no IPv4 address.
    Failed,
}

/// What looks names up.
pub trait Lookup: Send + Drop {
    /// How many lookups were made.
    ghost lookups: { Self → ℕ };

    /// How many of them failed.
    ghost faults: { Self → ℕ };

    /// The answer of the last one.
    ghost last: { Self → Option Looked };

    /// The IPv4 addresses, in their order, that the next lookup of a name may find; none where it fails.
    ghost may_find: { Self → DnsName → List ℕ → Type 0 };

    /// Looks a name up.
    fn lookup(&mut self, name: &DnsName) -> Looked
        ensures answer { Answers (may_find self.old) name.now result }
        ensures lookups { lookups self.new ≡ one_more (lookups self.old) }
        ensures faults { CountsFaults (faults self.old) (faults self.new) result }
        ensures last { last self.new ≡ Some result };
}

/// The first 64 of these IPv4 addresses with a port, each of them once.
#[tactic(auto, using(crate::proofs::ListLaws::whole_list, crate::proofs::ListLaws::full_list))]
fn addresses_at(port: u16, ips: &[u32]) -> AddressList
    ensures { result ≡ addresses_at port ips.now }
{
    let mut addresses = AddressList::new();
    let mut rest = ips;
    while let Some((ip, later)) = first_ip(rest) {
        if !fits(&mut addresses, Address { ip, port }) {
            return addresses;
        }
        rest = later;
    }
    addresses
}

/// The first address, and those after it.
fn first_ip(ips: &[u32]) -> Option<(u32, &[u32])>
    ensures { MatchOption result (ips.now ≡ []) (λ x. ips.now ≡ x.0 ∷ x.1.now) }
{
    let (first, later) = ips.split_first()?;
    Some((*first, later))
}

/// Appends an address, unless it is there; false where there is no room for it.
fn fits(addresses: &mut AddressList, address: Address) -> bool
    ensures kept { result ≡ true → addresses.new ≡ with_address addresses.old address }
    ensures within { length addresses.new ≤ 64 }
    ensures full { result ≡ false → (addresses.new ≡ addresses.old) × (length addresses.old ≡ 64) }
{
    let fits = addresses.push(address).is_ok();
    // The slice's contract says that the list keeps its limit.
    let _kept = addresses.as_slice();
    fits
}

/// The answer of a lookup that found these IPv4 addresses.
pub(crate) fn looked_of(port: u16, ips: &[u32]) -> Looked
    ensures { result ≡ looked_of port ips.now }
{
    found_or_failed(addresses_at(port, ips))
}

/// No address is a failure.
fn found_or_failed(addresses: AddressList) -> Looked
    ensures { result ≡ found_or_failed addresses }
{
    if addresses.is_empty() {
        return Looked::Failed;
    }
    Looked::Found(addresses)
}

/// Whether addresses were found.
pub(crate) fn is_found(answer: &Looked) -> bool
    ensures { result ≡ is_found answer.now }
{
    matches!(answer, Looked::Found(_))
}
