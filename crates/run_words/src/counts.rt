// What is counted of a run, and how it is said.
use grpc_base::{NoMemory, append_decimal};

/// How many status codes gRPC has.
const CODES: usize = 17;

/// The names of the status codes, from number 0 on.
const NAMES: &str =
    "OK CANCELLED UNKNOWN INVALID_ARGUMENT DEADLINE_EXCEEDED NOT_FOUND ALREADY_EXISTS PERMISSION_DENIED RESOURCE_EXHAUSTED FAILED_PRECONDITION ABORTED OUT_OF_RANGE UNIMPLEMENTED INTERNAL UNAVAILABLE DATA_LOSS UNAUTHENTICATED";

/// Nanoseconds of a millisecond.
const MILLISECOND: u64 = 1000000;

/// How calls ended, and how many attempts were made for them.
#[derive(Drop)]
pub struct Counts {
    /// The calls that ended with each status code.
    codes: [u64; CODES],
    pub calls: u64,
    pub attempts: u64,
    pub retries: u64,
    pub hedges: u64,
    pub transparent: u64,
    /// The moments of the first and of the last entry, in nanoseconds.
    first: Option<u64>,
    last: u64,
    /// Whether the service config was refused.
    pub is_config_refused: bool,
}

impl Counts {
    /// Nothing was counted yet.
    pub fn new() -> Counts {
        Counts {
            codes: [0; CODES],
            calls: 0,
            attempts: 0,
            retries: 0,
            hedges: 0,
            transparent: 0,
            first: None,
            last: 0,
            is_config_refused: false,
        }
    }

    /// An entry was made at this moment.
    pub fn pass(&mut self, moment: u64) {
        if self.first.is_none() {
            self.first = Some(moment);
        }
        self.last = moment;
    }

    /// A call ended with this status code.
    pub fn end(&mut self, code: u64) {
        if let Ok(place) = usize::try_from(code)
            && let Some(count) = self.codes.as_mut_slice().get_mut(place)
        {
            *count = count.saturating_add(1);
        }
    }

    /// Appends `6 calls: 3 OK, 3 UNAVAILABLE; 9 attempts, 3 retries; 941 ms`.
    pub fn append_to(&self, out: &mut Vec<u8>) -> Result<(), NoMemory> {
        append_counted(out, self.calls, b"call", b"calls")?;
        self.append_codes(out)?;
        out.extend_from_slice(b"; ")?;
        append_counted(out, self.attempts, b"attempt", b"attempts")?;
        append_some(out, self.retries, b"retry", b"retries")?;
        append_some(out, self.hedges, b"hedge", b"hedges")?;
        append_some(
            out,
            self.transparent,
            b"transparent retry",
            b"transparent retries",
        )?;
        out.extend_from_slice(b"; ")?;
        append_decimal(
            out,
            self.last.saturating_sub(self.first.unwrap_or(0)) / MILLISECOND,
        )?;
        out.extend_from_slice(b" ms")?;
        Ok(())
    }

    /// Appends how many calls ended with each code, and how many did not end.
    fn append_codes(&self, out: &mut Vec<u8>) -> Result<(), NoMemory> {
        let mut ended: u64 = 0;
        let mut names = NAMES.as_bytes().split(|b| *b == b' ');
        for count in self.codes.as_slice() {
            let name = names.next().unwrap_or(b"");
            if *count > 0 {
                append_part(out, ended == 0, *count, name)?;
                ended = ended.saturating_add(*count);
            }
        }
        if self.calls > ended {
            append_part(out, ended == 0, self.calls - ended, b"not ended")?;
        }
        Ok(())
    }
}

/// Appends one of the parts after the count of calls.
fn append_part(out: &mut Vec<u8>, is_first: bool, count: u64, name: &[u8]) -> Result<(), NoMemory> {
    let mark: &[u8] = if is_first { b": " } else { b", " };
    out.extend_from_slice(mark)?;
    append_counted(out, count, name, name)
}

/// Appends a number and what it counts.
fn append_counted(out: &mut Vec<u8>, count: u64, one: &[u8], more: &[u8]) -> Result<(), NoMemory> {
    append_decimal(out, count)?;
    out.push(b' ')?;
    out.extend_from_slice(if count == 1 { one } else { more })?;
    Ok(())
}

/// Appends a number and what it counts after a comma, where there is something.
fn append_some(out: &mut Vec<u8>, count: u64, one: &[u8], more: &[u8]) -> Result<(), NoMemory> {
    if count == 0 {
        return Ok(());
    }
    out.extend_from_slice(b", ")?;
    append_counted(out, count, one, more)
}
