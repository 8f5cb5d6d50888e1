// Targets of either scheme, and the authority that each names.
ghost use Rattle.std.specs.Prelude.{◌≡◌, ◌≢◌, ◌↔◌, ◌≤◌, None, Some, Ok, Err, IfOk, IfNone, IfSome, IsTrue, false, [], ◌∷◌, ◌++◌, decimal, option_map, drop};
ghost use Rattle.std.specs.Option.{ForSome};
ghost use Rattle.grpc_base.specs.Addresses.{address_text};
ghost use Rattle.grpc_base.specs.Authorities.{IsAuthority};
ghost use Rattle.grpc_base.specs.Hosts.{IsHost};
ghost use Rattle.resolver_core.specs.AnyTargets.{IsTarget, any_target_of, authority_of, after_slashes, dns_name_of, dns_target, is_dns, is_host, named};
ghost use Rattle.resolver_core.specs.declared.any_target.Target.TheVariants as TheTargets;

use crate::item::{DEFAULT_PORT, read_port};
use crate::target::{TargetFault, read_target};
use grpc_base::{
    Address, AddressList, DnsName, NoMemory, Text, append_decimal, first_piece, is_host,
};
use std::alloc::Global;

/// What a channel is made for: addresses, or a name that a lookup turns into some.
#[derive(Debug, Drop)]
pub enum Target {
    /// One address or more.
    Ipv4(AddressList),
    /// A host by its name, and the port of each address that it has.
    Dns(DnsName),
}

/// The target of a text `ipv4:a.b.c.d:port,..`, `dns:host:port` or `dns:///host:port`; without a port it is 443
/// (gRPC Name Resolution, "ipv4" and "dns").
///
/// A text of the scheme `dns` that is not of this form is BadHost, every other one is judged as `read_target` does.
/// NoMemory comes of this call alone.
pub fn read_any_target(alloc: Global, text: &[u8]) -> Result<Target, TargetFault>
    ensures ok { IfOk result (λ t. any_target_of text.now ≡ Ok t) }
    ensures kept { IfOk result IsTarget }
    ensures bad_host { (result ≡ Err TargetFault.BadHost) ↔ (IsTrue (is_dns text.now) × (dns_name_of (drop 4 text.now) ≡ None)) }
    ensures bad_target { (result ≡ Err TargetFault.BadTarget) ↔ (any_target_of text.now ≡ Err TargetFault.BadTarget) }
    ensures too_many { (result ≡ Err TargetFault.TooMany) ↔ (any_target_of text.now ≡ Err TargetFault.TooMany) }
{
    match after_dns(text) {
        Some(name) => match read_name(alloc, name) {
            Ok(name) => Ok(Target::Dns(name)),
            Err(fault) => Err(fault),
        },
        None => match read_target(text) {
            Ok(addresses) => Ok(Target::Ipv4(addresses)),
            Err(fault) => Err(fault),
        },
    }
}

/// What stands after `dns:`, where a text begins with it.
fn after_dns(text: &[u8]) -> Option<&[u8]>
    ensures some { IfSome result (λ name. IsTrue (is_dns text.now) × (name.now ≡ drop 4 text.now)) }
    ensures none { IfNone result (is_dns text.now ≡ false) }
{
    text.strip_prefix(b"dns:")
}

/// The name after `dns:`.
fn read_name(alloc: Global, text: &[u8]) -> Result<DnsName, TargetFault>
    ensures ok { IfOk result (λ n. dns_name_of text.now ≡ Some n) }
    ensures kept { IfOk result (λ n. IsHost n.host × (1 ≤ n.port)) }
    ensures bad_host { (result ≡ Err TargetFault.BadHost) ↔ (dns_name_of text.now ≡ None) }
    ensures no_other { (result ≢ Err TargetFault.BadTarget) × (result ≢ Err TargetFault.TooMany) }
{
    let Some((host, port)) = name_parts(text) else {
        return Err(TargetFault::BadHost);
    };
    let host = Text::of_slice(alloc, host)?;
    Ok(DnsName { host, port })
}

/// The host and the port of a name after `dns:`.
fn name_parts(text: &[u8]) -> Option<(&[u8], u16)>
    ensures value { option_map (λ n. record { host = n.0.now; port = n.1 }) result ≡ dns_name_of text.now }
    ensures kept { IfSome result (λ n. IsHost n.0.now × (1 ≤ n.1)) }
{
    let (host, rest) = first_piece(after_slashes(text), b':');
    let Some(rest) = rest else {
        return named(host, Some(DEFAULT_PORT));
    };
    let (port, rest) = first_piece(rest, b':');
    let None = rest else {
        return None;
    };
    named(host, read_port(port))
}

/// What stands after the slashes of an empty authority, which may be left out.
fn after_slashes(text: &[u8]) -> &[u8]
    ensures { result.now ≡ after_slashes text.now }
{
    match text.strip_prefix(b"///") {
        Some(name) => name,
        None => text,
    }
}

/// A host and a port, if both are.
fn named(host: &[u8], port: Option<u16>) -> Option<(&[u8], u16)>
    requires { ForSome port (λ p. 1 ≤ p) }
    ensures value { option_map (λ n. record { host = n.0.now; port = n.1 }) result ≡ named host.now port }
    ensures kept { IfSome result (λ n. IsHost n.0.now × (1 ≤ n.1)) }
{
    let port = port?;
    if names_host(host) {
        Some((host, port))
    } else {
        None
    }
}

/// Whether this is the name of a host.
fn names_host(text: &[u8]) -> bool
    ensures value { result ≡ is_host text.now }
    ensures host { IsTrue result ↔ IsHost text.now }
{
    is_host(text)
}

impl Target {
    /// What a request to it names as its authority: the first address as `a.b.c.d:port`, or `host:port`
    /// (gRPC over HTTP/2, "Requests": Authority).
    pub fn authority(&self, alloc: Global) -> Result<Text, NoMemory>
        requires { IsTarget self.now }
        ensures value { IfOk result (λ t. t ≡ authority_of self.now) }
        ensures is_authority { IfOk result IsAuthority }
    {
        match self {
            Target::Ipv4(addresses) => first_text(alloc, addresses.as_slice()),
            Target::Dns(name) => name_text(alloc, name.host.as_slice(), name.port),
        }
    }
}

/// The first address as `a.b.c.d:port`.
fn first_text(alloc: Global, addresses: &[Address]) -> Result<Text, NoMemory>
    requires { addresses.now ≢ [] }
    ensures value { IfOk result (λ t. t ≡ authority_of (TheTargets.Ipv4 addresses.now)) }
    ensures is_authority { IfOk result IsAuthority }
{
    let [first, ..] = addresses else {
        unreachable!();
    };
    address_text(alloc, first.ip, first.port)
}

/// An address as `a.b.c.d:port`.
fn address_text(alloc: Global, ip: u32, port: u16) -> Result<Text, NoMemory>
    ensures value { IfOk result (λ t. t ≡ address_text (record { ip = ip; port = port })) }
    ensures is_authority { IfOk result IsAuthority }
{
    let mut text = Vec::new(alloc);
    Address { ip, port }.append_to(&mut text)?;
    Ok(Text::of_vec(text))
}

/// A host and a port as `host:port`.
fn name_text(alloc: Global, host: &[u8], port: u16) -> Result<Text, NoMemory>
    requires { IsHost host.now }
    ensures value { IfOk result (λ t. t ≡ host.now ++ 58 ∷ decimal port) }
    ensures is_authority { IfOk result IsAuthority }
{
    let mut text = Vec::from_slice(alloc, host)?;
    text.push(b':')?;
    append_decimal(&mut text, port as u64)?;
    Ok(Text::of_vec(text))
}
