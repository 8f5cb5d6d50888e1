// The authority of a channel's requests.
ghost use Rattle.std.specs.Prelude.{◌≡◌};
ghost use Rattle.grpc_base.specs.Authorities.{IsAuthority};

use grpc_base::Text;
use std::marker::Model;

/// The authority that each request of a channel names (RFC 9110, section 7.2).
#[derive(Drop)]
pub struct Authority {
    text: Text,
}

impl Model for Authority {
    ghost use Rattle.std.specs.Prelude.{ℕ, List};
    ghost use Rattle.grpc_base.specs.Authorities.{IsAuthority};

    ghost Value = { List ℕ };

    ghost view = { λ a. a.text };

    ghost invariant = { λ a. IsAuthority a.text };
}

impl Authority {
    pub fn new(text: Text) -> Authority
        requires { IsAuthority text }
        ensures { result ≡ text }
    {
        Authority { text }
    }

    pub fn text(&self) -> &Text
        ensures text { result.now ≡ self.now }
        ensures is_authority { IsAuthority result.now }
    {
        &self.text
    }
}
