// When a resolution is wanted.
ghost use Rattle.std.specs.Prelude.{◌≡◌, true, false};

use grpc_base::AddressList;
use std::marker::Model;

/// Whether the resolver is to be asked: at first, and after each failed dial or lost link, until it has answered
/// (gRPC Name Resolution). Contracts see that as a `bool`.
#[derive(Clone, Copy, Debug, PartialEq, Eq)]
pub struct Resolver {
    wanted: bool,
}

impl Model for Resolver {
    ghost use Rattle.std.specs.Prelude.{Bool};

    ghost Value = { Bool };

    ghost view = { λ r. r.wanted };

    ghost inverse = { λ b. record { wanted = b } };
}

impl Resolver {
    /// A resolver that was never asked.
    pub fn new() -> Resolver
        ensures { result ≡ true }
    {
        Resolver { wanted: true }
    }

    /// The resolver gave addresses. Whichever they are, even none, the question is answered.
    pub fn accept(&mut self, _addresses: &AddressList)
        ensures { self.new ≡ false }
    {
        self.wanted = false;
    }

    /// The resolver failed. It is not asked again before something new speaks for it.
    pub fn refuse(&mut self)
        ensures { self.new ≡ false }
    {
        self.wanted = false;
    }

    /// A dial failed or a link was lost, so the addresses may be old.
    pub fn want(&mut self)
        ensures { self.new ≡ true }
    {
        self.wanted = true;
    }

    /// Whether a resolution is wanted.
    pub fn wants_resolution(&self) -> bool
        ensures { result ≡ self.now }
    {
        self.wanted
    }
}
