// The fields of a service config, the places of its values, and its faults as they are found.
ghost use Rattle.std.specs.Prelude.{◌≡◌};
ghost use Rattle.config_values.specs.Places.{field_name};

use grpc_base::NoMemory;
use std::alloc::{AllocError, AllocFailed};

/// A field that is read.
#[derive(Clone, Copy, Debug, PartialEq, Eq)]
pub enum Field {
    LoadBalancingConfig,
    LoadBalancingPolicy,
    MethodConfig,
    Name,
    Service,
    Method,
    WaitForReady,
    Timeout,
    MaxRequestMessageBytes,
    MaxResponseMessageBytes,
    RetryPolicy,
    HedgingPolicy,
    InitialBackoff,
    MaxBackoff,
    HedgingDelay,
    MaxAttempts,
    BackoffMultiplier,
    RetryableStatusCodes,
    NonFatalStatusCodes,
    RetryThrottling,
    MaxTokens,
    TokenRatio,
}

impl Field {
    /// Its name in the text.
    pub fn name(self) -> &'static [u8]
        ensures { result.now ≡ field_name self }
    {
        match self {
            Field::LoadBalancingConfig => b"loadBalancingConfig",
            Field::LoadBalancingPolicy => b"loadBalancingPolicy",
            Field::MethodConfig => b"methodConfig",
            Field::Name => b"name",
            Field::Service => b"service",
            Field::Method => b"method",
            Field::WaitForReady => b"waitForReady",
            Field::Timeout => b"timeout",
            Field::MaxRequestMessageBytes => b"maxRequestMessageBytes",
            Field::MaxResponseMessageBytes => b"maxResponseMessageBytes",
            Field::RetryPolicy => b"retryPolicy",
            Field::HedgingPolicy => b"hedgingPolicy",
            Field::InitialBackoff => b"initialBackoff",
            Field::MaxBackoff => b"maxBackoff",
            Field::HedgingDelay => b"hedgingDelay",
            Field::MaxAttempts => b"maxAttempts",
            Field::BackoffMultiplier => b"backoffMultiplier",
            Field::RetryableStatusCodes => b"retryableStatusCodes",
            Field::NonFatalStatusCodes => b"nonFatalStatusCodes",
            Field::RetryThrottling => b"retryThrottling",
            Field::MaxTokens => b"maxTokens",
            Field::TokenRatio => b"tokenRatio",
        }
    }
}

/// An object whose fields are read. Entries and names count from 0.
#[derive(Clone, Copy, Debug, PartialEq, Eq)]
pub enum Object {
    Config,
    Entry(usize),
    Name { entry: usize, name: usize },
    RetryPolicy(usize),
    HedgingPolicy(usize),
    Throttling,
}

/// A value that can be at fault.
#[derive(Clone, Copy, Debug, PartialEq, Eq)]
pub enum Place {
    Whole(Object),
    Field(Object, Field),
    /// An element of the list in a field, which counts from 0.
    Element(Object, Field, usize),
}

/// The first fault, with the place of what has it.
#[derive(Clone, Copy, Debug, PartialEq, Eq)]
pub enum Fault {
    /// The wrong kind of value, or one out of range.
    Wrong(Place),
    /// Both policies in one entry.
    BothPolicies(usize),
    RepeatedName { entry: usize, name: usize },
    NoSupportedPolicy,
    NoMemory,
}

impl From<NoMemory> for Fault {
    ghost use Rattle.std.specs.Prelude.{◌≡◌};
    ghost use Rattle.config_values.specs.declared.place.Fault.TheVariants as faults;

    ghost from_gives = { λ _ e. e ≡ faults.NoMemory };

    fn from(_e: NoMemory) -> Fault {
        Fault::NoMemory
    }
}

impl From<AllocError> for Fault {
    ghost use Rattle.std.specs.Prelude.{◌≡◌};
    ghost use Rattle.config_values.specs.declared.place.Fault.TheVariants as faults;

    ghost from_gives = { λ _ e. e ≡ faults.NoMemory };

    fn from(_e: AllocError) -> Fault {
        Fault::NoMemory
    }
}

impl<T: Drop> From<AllocFailed<T>> for Fault {
    ghost use Rattle.std.specs.Prelude.{◌≡◌};
    ghost use Rattle.config_values.specs.declared.place.Fault.TheVariants as faults;

    ghost from_gives = { λ _ e. e ≡ faults.NoMemory };

    fn from(_e: AllocFailed<T>) -> Fault {
        Fault::NoMemory
    }
}
