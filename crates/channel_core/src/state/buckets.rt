// The token buckets of a channel.
ghost use Rattle.std.specs.Prelude.{◌≡◌, None, IfOk, OnOk, slice_set};
ghost use Rattle.std.specs.Option.{option_map};
ghost use Rattle.a6_numbers.specs.Throttling.{full};
ghost use Rattle.channel_core.specs.Tables.{followed, is_same_throttle, last_run, no_buckets, tokens_in, with_tokens};

use a6_numbers::Tokens;
use grpc_base::{NoMemory, Throttle};
use std::alloc::Global;
use std::marker::Model;

/// The token buckets, one for each run of valid configs with equal throttling; None for a run without. After that of calls
/// without a configuration, which has no tokens.
#[derive(Drop)]
pub struct Buckets {
    runs: Vec<Option<Tokens>>,
    throttle: Option<Throttle>,
}

impl Model for Buckets {
    ghost use Rattle.channel_core.specs.Tables.{BucketsSeen};

    ghost Value = { BucketsSeen };

    ghost view = { λ b. record { runs = b.runs.items; throttle = b.throttle } };
}

impl Buckets {
    pub fn new(alloc: Global) -> Result<Buckets, NoMemory>
        ensures { IfOk result (λ b. b ≡ no_buckets) }
    {
        let mut runs = Vec::new(alloc);
        runs.push(None)?;
        Ok(Buckets {
            runs,
            throttle: None,
        })
    }

    /// A valid config with this throttling is held from here on.
    pub fn follow(&mut self, throttle: Option<Throttle>) -> Result<(), NoMemory>
        ensures { OnOk result (self.new ≡ followed throttle self.old) }
    {
        if self.runs.len() > 1 && is_same_throttle(self.throttle, throttle) {
            return Ok(());
        }
        self.runs.push(throttle.map(Tokens::new))?;
        self.throttle = throttle;
        Ok(())
    }

    /// The place of the bucket of the config that is held.
    pub fn last(&self) -> usize
        ensures { result ≡ last_run self.now }
    {
        self.runs.len().saturating_sub(1)
    }

    /// The tokens of a bucket; `none` where it has none, or names none.
    pub fn tokens<'a>(&'a self, bucket: usize, none: &'a Option<Tokens>) -> &'a Option<Tokens>
        requires { none.now ≡ None }
        ensures { result.now ≡ tokens_in self.now bucket }
    {
        match self.runs.get(bucket) {
            Some(tokens) => tokens,
            None => none,
        }
    }

    /// Takes the tokens of a bucket, to be put back once a call has counted an end.
    pub fn take(&mut self, bucket: usize) -> Option<Tokens>
        ensures tokens { result ≡ tokens_in self.old bucket }
        ensures after { self.new ≡ with_tokens bucket None self.old }
    {
        match self.runs.get_mut(bucket) {
            Some(tokens) => tokens.take(),
            None => None,
        }
    }

    /// Puts tokens that were taken back.
    pub fn put(&mut self, bucket: usize, tokens: Option<Tokens>)
        ensures { self.new ≡ with_tokens bucket tokens self.old }
    {
        if bucket < self.runs.len() {
            self.runs[bucket] = tokens;
        }
    }
}

fn is_same_throttle(one: Option<Throttle>, other: Option<Throttle>) -> bool
    ensures { result ≡ is_same_throttle one other }
{
    match (one, other) {
        (None, None) => true,
        (Some(one), Some(other)) => one.start == other.start && one.ratio == other.ratio,
        (None, Some(_)) | (Some(_), None) => false,
    }
}
