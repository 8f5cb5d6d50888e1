// How many calls ended how, and how long they took.
use grpc_base::Code;

/// How many codes there are.
const CODES: usize = 17;

/// Calls that ended, by their codes, and the times that they took.
#[derive(Drop)]
pub struct Tally {
    ended: [u64; 17],
    /// How many had no answer.
    pub failed: u64,
    /// In nanoseconds, in the order of the calls.
    pub times: Vec<u64>,
}

impl Tally {
    /// No calls.
    pub fn new(times: Vec<u64>) -> Tally {
        Tally {
            ended: [0; CODES],
            failed: 0,
            times,
        }
    }

    /// Counts one call.
    pub fn note(&mut self, code: Code) {
        let at = code.number() as usize;
        self.ended[at] = self.ended[at].saturating_add(1);
    }

    /// How many calls ended with this code.
    pub fn of(&self, code: Code) -> u64 {
        self.ended[code.number() as usize]
    }
}
