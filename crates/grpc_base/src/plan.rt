// What a service config says of one call: limits, its plan for retries or hedging, and throttling.
ghost use Rattle.std.specs.Prelude.{◌≡◌, ◌<◌, ◌≤◌, IfSome, IfNone};
ghost use Rattle.grpc_base.specs.Limits.{message_limit};

use crate::{CodeSet, Duration};
use std::marker::Model;

/// A limit on the bytes of one message, at most 4,194,304.
#[derive(Clone, Copy, Debug, PartialEq, Eq, PartialOrd, Ord)]
pub struct MessageLimit {
    bytes: u32,
}

impl Model for MessageLimit {
    ghost use Rattle.std.specs.Prelude.{ℕ, ◌≤◌};
    ghost use Rattle.grpc_base.specs.Limits.{message_limit};

    ghost Value = { ℕ };

    ghost view = { λ l. l.bytes };

    ghost invariant = { λ l. l.bytes ≤ message_limit };

    ghost inverse = { λ n. record { bytes = n } };
}

impl MessageLimit {
    /// The largest limit, which also stands where a config names none.
    pub const LARGEST: u32 = 4_194_304;

    /// The limit of so many bytes; None exactly above the largest.
    pub fn new(bytes: u32) -> Option<MessageLimit>
        ensures some { IfSome result (λ l. l ≡ bytes) }
        ensures none { IfNone result (message_limit < bytes) }
        ensures within { IfSome result (λ l. l ≤ message_limit) }
    {
        if bytes <= MessageLimit::LARGEST {
            Some(MessageLimit { bytes })
        } else {
            None
        }
    }

    /// Bytes.
    pub fn bytes(self) -> u32
        ensures value { result ≡ self }
        ensures within { result ≤ message_limit }
    {
        self.bytes
    }
}

/// When a failed call is tried again (gRFC A6, "Retry Policy").
#[derive(Clone, Copy, Debug, PartialEq, Eq)]
pub struct RetryPolicy {
    /// The most attempts, the first included.
    pub max: u32,
    /// The first wait.
    pub initial: Duration,
    /// The longest wait.
    pub limit: Duration,
    /// The growth of the wait, in thousandths.
    pub multiplier: u64,
    /// The codes after which a call is tried again.
    pub codes: CodeSet,
}

/// When a call is sent once more before the first answer (gRFC A6, "Hedging Policy").
#[derive(Clone, Copy, Debug, PartialEq, Eq)]
pub struct HedgePolicy {
    /// The most attempts, the first included.
    pub max: u32,
    /// The wait between one attempt and the next.
    pub delay: Duration,
    /// The codes after which the call goes on.
    pub codes: CodeSet,
}

/// What a call does about failed attempts.
#[derive(Clone, Copy, Debug, PartialEq, Eq)]
pub enum CallPlan {
    None,
    Retry(RetryPolicy),
    Hedge(HedgePolicy),
}

/// The token bucket of a config, both numbers in thousandths (gRFC A6, "Throttling Retry Attempts and Hedged RPCs").
#[derive(Clone, Copy, Debug, PartialEq, Eq)]
pub struct Throttle {
    /// The tokens of a full bucket.
    pub start: u32,
    /// What one success adds.
    pub ratio: u32,
}

/// What a config chooses for one path.
#[derive(Clone, Copy, Debug, PartialEq, Eq)]
pub struct Chosen {
    /// Whether the call waits for ready, where the config says so.
    pub wait: Option<bool>,
    /// The longest that the call may take.
    pub timeout: Option<Duration>,
    /// The limit on each message of the request.
    pub request: MessageLimit,
    /// The limit on each message of the response.
    pub response: MessageLimit,
    pub plan: CallPlan,
    pub throttle: Option<Throttle>,
}

/// What a server asks of the next retry (gRFC A6, "Pushback").
#[derive(Clone, Copy, Debug, PartialEq, Eq)]
pub enum Pushback {
    None,
    /// Milliseconds from the attempt's end.
    After(u32),
    /// No further attempt.
    Stop,
}
