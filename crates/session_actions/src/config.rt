// The valid service configs, and their token buckets.
use grpc_base::{Items, Throttle};
use service_config::Config;

/// A valid config. Configs are numbered from 1.
#[derive(Debug, Drop)]
pub struct HeldConfig {
    pub config: Config,
    /// The number of its run of equal throttle settings, where it has throttling.
    pub run: Option<u64>,
}

/// A run: valid configs one after another with equal throttle settings, which have one token bucket. Runs are numbered from 1.
#[derive(Debug, Drop)]
pub struct ThrottleRun {
    pub throttle: Throttle,
    /// The places of the rows of its calls whose ends count, in the order of the ends.
    pub ends: Items<u64>,
}
