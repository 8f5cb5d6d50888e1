// What the payload of a frame says (RFC 9113, section 6).
ghost use Rattle.std.specs.Prelude.{◌≡◌, ◌∷◌, ◌<◌, ◌≤◌, ◌+◌, [], IfNone, IfSome, length};
ghost use Rattle.h2_frame.specs.Numbers.{goaway_type, ping_type, rst_stream_type, window_update_type};
ghost use Rattle.h2_frame.specs.Payloads.{content_of, goaway_code, increment, last_stream, number_at, ping_word, reset_code, settings_in};
ghost use Rattle.h2_frame.specs.Steps.{seen};

use crate::Frame;
use crate::rules::{WITHOUT_RESERVED_BIT, fields_size, is_padded};

/// One setting of SETTINGS (section 6.5.1).
#[derive(Clone, Copy, Debug, PartialEq, Eq)]
pub struct Setting {
    /// One of `settings`, or an unknown one.
    pub identifier: u16,
    pub value: u32,
}

impl<'a> Frame<'a> {
    /// The payload without its Pad Length, its priority fields and its padding (sections 6.1 and 6.2): the bytes of
    /// messages in DATA, of a header block in HEADERS and CONTINUATION.
    pub fn content(&self) -> &'a [u8]
        ensures { result.now ≡ content_of (seen self.now) }
    {
        let fields = fields_size(self.kind, self.flags) as usize;
        let content = &self.payload[fields..];
        match self.payload {
            [pad, ..] if is_padded(self.kind, self.flags) => {
                &content[..content.len() - usize::from(*pad)]
            }
            _ => content,
        }
    }

    /// The error code of RST_STREAM (section 6.4).
    pub fn reset_code(&self) -> u32
        requires { self.now.kind ≡ rst_stream_type }
        ensures { result ≡ reset_code self.now.payload.now }
    {
        number_at(self.payload, 0)
    }

    /// The eight bytes of PING as a number, the highest first (section 6.7).
    pub fn ping_word(&self) -> u64
        requires { self.now.kind ≡ ping_type }
        ensures { result ≡ ping_word self.now.payload.now }
    {
        u64::from(number_at(self.payload, 0)) * 0x1_0000_0000
            + u64::from(number_at(self.payload, 4))
    }

    /// The greatest stream that the sender of GOAWAY may have acted on (section 6.8).
    pub fn last_stream(&self) -> u32
        requires { self.now.kind ≡ goaway_type }
        ensures { result ≡ last_stream self.now.payload.now }
    {
        number_at(self.payload, 0) & WITHOUT_RESERVED_BIT
    }

    /// The error code of GOAWAY (section 6.8).
    pub fn goaway_code(&self) -> u32
        requires { self.now.kind ≡ goaway_type }
        ensures { result ≡ goaway_code self.now.payload.now }
    {
        number_at(self.payload, 4)
    }

    /// How many bytes more WINDOW_UPDATE lets through (section 6.9); 0 is a fault of the stream that it names.
    pub fn increment(&self) -> u32
        requires { self.now.kind ≡ window_update_type }
        ensures { result ≡ increment self.now.payload.now }
    {
        number_at(self.payload, 0) & WITHOUT_RESERVED_BIT
    }
}

/// The first setting of the payload of SETTINGS, and the bytes after it; None where no setting is left.
pub fn next_setting(bytes: &[u8]) -> Option<(Setting, &[u8])>
    ensures some { IfSome result (λ s. settings_in bytes.now ≡ s.0 ∷ settings_in s.1.now) }
    ensures shorter { IfSome result (λ s. length s.1.now < length bytes.now) }
    ensures none { IfNone result (settings_in bytes.now ≡ []) }
{
    let [a, b, c, d, e, f, rest @ ..] = bytes else {
        return None;
    };
    let setting = Setting {
        identifier: u16::from_be_bytes([*a, *b]),
        value: u32::from_be_bytes([*c, *d, *e, *f]),
    };
    Some((setting, rest))
}

// The number of four bytes at a place of a payload, the highest first.
fn number_at(payload: &[u8], place: usize) -> u32
    requires { place + 4 ≤ length payload.now }
    ensures { result ≡ number_at place payload.now }
{
    u32::from_be_bytes([
        payload[place],
        payload[place + 1],
        payload[place + 2],
        payload[place + 3],
    ])
}
