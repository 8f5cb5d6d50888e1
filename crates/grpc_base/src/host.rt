// The name of a host, as a target or a lookup names it.
ghost use Rattle.std.specs.Prelude.{◌≡◌, ◌↔◌, ◌≤◌, All, IsTrue, length, IfOk};
ghost use Rattle.std.specs.List.{AllPass};
ghost use Rattle.grpc_base.specs.Authorities.{IsAuthority, is_visible};
ghost use Rattle.grpc_base.specs.Pieces.{pieces};
ghost use Rattle.grpc_base.specs.Hosts.{IsHost, IsLabel, is_label_byte};

use crate::{NoMemory, Text, first_piece};

/// The most bytes of a host's name.
const HOST_BYTES: usize = 253;

/// The most bytes of one label of it.
const LABEL_BYTES: usize = 63;

/// The most bytes of an authority: a host, a colon and a port of five digits.
const AUTHORITY_BYTES: usize = HOST_BYTES + 6;

/// A host by its name, and a port (gRPC Name Resolution, "dns").
#[derive(Debug, Drop)]
pub struct DnsName {
    pub host: Text,
    pub port: u16,
}

impl DnsName {
    /// The same name.
    pub fn copy(&self) -> Result<DnsName, NoMemory>
        ensures { IfOk result (λ n. n ≡ self.now) }
    {
        let host = self.host.copy()?;
        Ok(DnsName {
            host,
            port: self.port,
        })
    }
}

/// Whether this is the name of a host: labels with dots between them, in at most 253 bytes; a label is 1 to 63 letters, digits
/// and hyphens, with no hyphen at either end (RFC 1123, section 2.1).
pub fn is_host(text: &[u8]) -> bool
    ensures { IsTrue result ↔ IsHost text.now }
{
    text.len() <= HOST_BYTES && are_labels(text)
}

/// Whether each piece between dots is a label.
fn are_labels(text: &[u8]) -> bool
    ensures { IsTrue result ↔ All IsLabel (pieces 46 text.now) }
{
    let (label, rest) = first_piece(text, b'.');
    match rest {
        Some(rest) => is_label(label) && are_labels(rest),
        None => is_label(label),
    }
}

fn is_label(label: &[u8]) -> bool
    ensures { IsTrue result ↔ IsLabel label.now }
{
    !label.is_empty()
        && label.len() <= LABEL_BYTES
        && label
            .iter()
            .all(|b| b.is_ascii_alphanumeric() || *b == b'-')
        && !label.starts_with(b"-")
        && !label.ends_with(b"-")
}

/// Whether a request may name this authority: 1 to 259 bytes of visible ASCII.
pub fn is_authority(text: &[u8]) -> bool
    ensures { IsTrue result ↔ IsAuthority text.now }
{
    !text.is_empty() && text.len() <= AUTHORITY_BYTES && text.iter().all(|b| b.is_ascii_graphic())
}
