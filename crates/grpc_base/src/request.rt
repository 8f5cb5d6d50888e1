// What an application asks of the channel with one call.
ghost use Rattle.std.specs.Prelude.{◌≡◌, ◌<◌, ◌≤◌, ◌↔◌, IfOk, IfSome, IfNone, IsSome, IsTrue, None, Err, IsSomeAnd, [], ◌∷◌, option_map};
ghost use Rattle.std.specs.List.{list_all};
ghost use Rattle.grpc_base.specs.Limits.{duration_limit};
ghost use Rattle.grpc_base.specs.Requests.{IsPath, IsRequest, is_name, is_name_byte, names_of_path, names_of_pieces};
ghost use Rattle.grpc_base.specs.Metadata.{IsRequestMetadata};
ghost use Rattle.grpc_base.specs.Pieces.{pieces};

use crate::limits::PATH_BYTES;
use crate::{Duration, Metadata, NoMemory, Text, first_piece};
use std::marker::Model;

/// Why a request is refused, in the order of the tests.
#[derive(Clone, Copy, Debug, PartialEq, Eq)]
pub enum RequestFault {
    /// The path is not `/service/method`, both non-empty, of visible ASCII, at most 1,024 bytes.
    BadPath,
    /// The timeout is above 1,000,000,000,000,000,000 ns.
    BadTimeout,
}

/// A request: its path, its metadata, whether it waits for ready, and its timeout in nanoseconds.
#[derive(Debug, Drop)]
pub struct Request {
    path: Text,
    meta: Metadata,
    wait: Option<bool>,
    timeout: Option<Duration>,
}

impl Model for Request {
    ghost use Rattle.grpc_base.specs.Requests.{RequestSeen, IsRequest};

    ghost Value = { RequestSeen };

    ghost view = { λ r. record { path = r.path; meta = r.meta; wait = r.wait; timeout = r.timeout } };

    ghost invariant = { λ r. IsRequest (record { path = r.path; meta = r.meta; wait = r.wait; timeout = r.timeout }) };
}

impl Request {
    /// A request of these parts. On a refusal they are dropped; the path is tested before the timeout.
    pub fn new(
        path: Text,
        meta: Metadata,
        wait: Option<bool>,
        timeout: Option<u64>,
    ) -> Result<Request, RequestFault>
        requires { IsRequestMetadata meta }
        ensures ok { IfOk result (λ r. r ≡ record { path = path; meta = meta; wait = wait; timeout = timeout }) }
        ensures kept { IfOk result IsRequest }
        ensures bad_path { (result ≡ Err RequestFault.BadPath) ↔ (IsPath path → ⊥) }
        ensures bad_timeout { (result ≡ Err RequestFault.BadTimeout) ↔ (IsPath path × IsSomeAnd timeout (λ t. duration_limit < t)) }
    {
        if !is_path(path.as_slice()) {
            return Err(RequestFault::BadPath);
        }
        let timeout = match timeout {
            None => None,
            Some(nanos) => match Duration::new(nanos) {
                Some(timeout) => Some(timeout),
                None => return Err(RequestFault::BadTimeout),
            },
        };
        Ok(Request {
            path,
            meta,
            wait,
            timeout,
        })
    }

    /// The same request; the bytes of its metadata are shared.
    pub fn copy(&self) -> Result<Request, NoMemory>
        ensures { IfOk result (λ r. r ≡ self.now) }
    {
        let path = self.path.copy()?;
        let meta = self.meta.copy()?;
        Ok(Request {
            path,
            meta,
            wait: self.wait,
            timeout: self.timeout,
        })
    }

    /// That it has a path, metadata that may be sent, and no timeout above the longest duration, which the type keeps. Nothing runs: it
    /// is for proofs.
    pub fn keeps_its_parts(&self)
        ensures { IsRequest self.now }
    {
        let _ = &self.path;
    }

    /// The path, as `/service/method`.
    pub fn path(&self) -> &Text
        ensures path { result.now ≡ self.now.path }
        ensures is_path { IsPath result.now }
    {
        &self.path
    }

    /// The metadata of the application.
    pub fn meta(&self) -> &Metadata
        ensures meta { result.now ≡ self.now.meta }
        ensures kept { IsRequestMetadata result.now }
    {
        &self.meta
    }

    /// Whether the call waits for ready, where the application says so.
    pub fn wait(&self) -> Option<bool>
        ensures { result ≡ self.now.wait }
    {
        self.wait
    }

    /// The timeout in nanoseconds.
    pub fn timeout(&self) -> Option<u64>
        ensures value { result ≡ self.now.timeout }
        ensures within { IfSome result (λ t. t ≤ duration_limit) }
    {
        self.timeout.map(|timeout| timeout.nanos())
    }
}

/// Whether this is the path of a method: `/`, a service, `/` and a method, both non-empty and of visible ASCII without `/`, in
/// all at most 1,024 bytes.
pub fn is_path(path: &[u8]) -> bool
    ensures path { IsTrue result ↔ IsPath path.now }
    ensures names { IsTrue result ↔ IsSome (names_of_path path.now) }
{
    names_of_path(path).is_some()
}

/// The service and the method of a path; None exactly where the text is none.
pub fn names_of_path(path: &[u8]) -> Option<(&[u8], &[u8])>
    ensures { option_map (λ n. (n.0.now, n.1.now)) result ≡ names_of_path path.now }
{
    if path.len() > PATH_BYTES {
        return None;
    }
    let (prefix, service, method) = three_pieces(path)?;
    if prefix.is_empty() && is_name(service) && is_name(method) {
        Some((service, method))
    } else {
        None
    }
}

/// What stands before, between and after the slashes of a text with two of them.
#[tactic(auto, using(crate::proofs::PathLaws::more_pieces, crate::proofs::PathLaws::pieces_some))]
fn three_pieces(text: &[u8]) -> Option<(&[u8], &[u8], &[u8])>
    ensures some { IfSome result (λ p. pieces 47 text.now ≡ p.0.now ∷ p.1.now ∷ p.2.now ∷ []) }
    ensures none { IfNone result (names_of_pieces (pieces 47 text.now) ≡ None) }
{
    let (first, rest) = first_piece(text, b'/');
    let (second, rest) = first_piece(rest?, b'/');
    let (third, rest) = first_piece(rest?, b'/');
    match rest {
        Some(_) => None,
        None => Some((first, second, third)),
    }
}

/// Whether each byte may stand in a service or a method.
fn has_name_bytes_alone(name: &[u8]) -> bool
    ensures { result ≡ list_all is_name_byte name.now }
{
    name.iter().all(|b| b.is_ascii_graphic() && *b != b'/')
}

/// Whether this is a service or a method.
fn is_name(name: &[u8]) -> bool
    ensures { result ≡ is_name name.now }
{
    !name.is_empty() && has_name_bytes_alone(name)
}
