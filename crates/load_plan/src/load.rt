// A load: its seed, and how many calls it makes.
ghost use Rattle.std.specs.Prelude.{◌≡◌, ◌≤◌, ◌<◌, IfSome, IfNone};
ghost use Rattle.load_plan.specs.Batches.{batches_of};

/// A load: a session of so many calls, made from a seed. It has from 1 to 10,000 calls.
#[derive(Clone, Copy, Debug, PartialEq, Eq)]
pub struct Load {
    pub seed: u64,
    pub calls: u32,
    pub ghost some: { 1 ≤ calls },
    pub ghost within: { calls ≤ 10000 },
}

/// How many calls begin one after another before time passes.
pub const BATCH: u32 = 16;

impl Load {
    /// The most calls of a load.
    pub const LIMIT: u32 = 10_000;

    /// The load of a seed with so many calls; None exactly where that is not 1 to 10,000.
    pub fn new(seed: u64, calls: u32) -> Option<Load>
        ensures seed { IfSome result (λ l. l.seed ≡ seed) }
        ensures calls { IfSome result (λ l. l.calls ≡ calls) }
        ensures none { IfNone result (1 ≤ calls → 10000 < calls) }
    {
        if calls == 0 || calls > Load::LIMIT {
            return None;
        }
        Some(Load { seed, calls })
    }

    /// How many batches of up to sixteen calls there are.
    pub fn batches(self) -> u32
        ensures { result ≡ batches_of self.calls }
    {
        self.calls.div_ceil(BATCH)
    }
}
