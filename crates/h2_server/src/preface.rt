// The client's preface.
ghost use Rattle.std.specs.Prelude.{◌≡◌, ◌≤◌, IfNone, IfSome, length};
ghost use Rattle.h2_server.specs.Received.{agreed, preface_prefix};
ghost use Rattle.h2_server.specs.Outcomes.{prefix_reported};

use crate::news::RequestNews;
use crate::state::State;
use grpc_base::error_code::PROTOCOL_ERROR;
use std::alloc::Global;

/// The beginning of a connection (RFC 9113, section 3.4).
const PREFACE: [u8; 24] = *b"PRI * HTTP/2.0\r\n\r\nSM\r\n\r\n";

/// How many of the first bytes are those of a text.
fn agreed(text: &[u8], bytes: &[u8]) -> usize
    ensures value { result ≡ agreed text.now bytes.now }
    ensures within { result ≤ length bytes.now }
    ensures most { result ≤ length text.now }
{
    let [t, text @ ..] = text else {
        return 0;
    };
    let [b, bytes @ ..] = bytes else {
        return 0;
    };
    if *b == *t { agreed(text, bytes) + 1 } else { 0 }
}

impl State {
    /// The preface at the start, or the byte that is another, with how many bytes show it; None for less than the
    /// preface.
    pub(crate) fn receive_preface(
        &mut self,
        alloc: Global,
        bytes: &[u8],
    ) -> Option<(usize, Option<RequestNews>)>
        ensures prefix { prefix_reported result self.new ≡ preface_prefix self.old bytes.now }
        ensures same { IfNone result (self.new ≡ self.old) }
        ensures within { IfSome result (λ x. x.0 ≤ length bytes.now) }
    {
        let same = agreed(&PREFACE, bytes);
        if same == PREFACE.len() {
            return Some((same, None));
        }
        if same == bytes.len() {
            return None;
        }
        let news = self.break_off(alloc, PROTOCOL_ERROR);
        Some((same + 1, news))
    }
}
