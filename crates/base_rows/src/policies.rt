// What a call's configuration says, in words between colons.
use grpc_base::{CallPlan, Code, CodeSet, Duration, HedgePolicy, RetryPolicy, Throttle};
use table_rows::{Wrong, number};

/// A number of 32 bits.
pub fn small(text: &str) -> Result<u32, Wrong> {
    match u32::try_from(number(text)?) {
        Ok(small) => Ok(small),
        Err(_) => Err(Wrong::Form),
    }
}

fn duration(text: &str) -> Result<Duration, Wrong> {
    Duration::new(number(text)?).ok_or(Wrong::Form)
}

/// A code by its number.
pub fn code(text: &str) -> Result<Code, Wrong> {
    Code::new(number(text)?).ok_or(Wrong::Form)
}

/// Codes with `+` between.
fn codes(text: &str) -> Result<CodeSet, Wrong> {
    let mut codes = CodeSet::new();
    if !text.is_empty() {
        for number in text.split('+') {
            codes.add(code(number)?);
        }
    }
    Ok(codes)
}

fn retry(text: &str) -> Result<RetryPolicy, Wrong> {
    let mut parts = text.split(':');
    Ok(RetryPolicy {
        max: small(parts.next().ok_or(Wrong::Form)?)?,
        initial: duration(parts.next().ok_or(Wrong::Form)?)?,
        limit: duration(parts.next().ok_or(Wrong::Form)?)?,
        multiplier: number(parts.next().ok_or(Wrong::Form)?)?,
        codes: codes(parts.next().ok_or(Wrong::Form)?)?,
    })
}

fn hedge(text: &str) -> Result<HedgePolicy, Wrong> {
    let mut parts = text.split(':');
    Ok(HedgePolicy {
        max: small(parts.next().ok_or(Wrong::Form)?)?,
        delay: duration(parts.next().ok_or(Wrong::Form)?)?,
        codes: codes(parts.next().ok_or(Wrong::Form)?)?,
    })
}

/// `none`, `retry:MOST:FIRST:LONGEST:GROWTH:CODES` or `hedge:MOST:DELAY:CODES`.
pub fn plan(text: &str) -> Result<CallPlan, Wrong> {
    match text.split_once(':') {
        Some(("retry", policy)) => Ok(CallPlan::Retry(retry(policy)?)),
        Some(("hedge", policy)) => Ok(CallPlan::Hedge(hedge(policy)?)),
        _ => Ok(CallPlan::None),
    }
}

/// `none`, or the tokens at the start and the ratio.
pub fn throttle(text: &str) -> Result<Option<Throttle>, Wrong> {
    match text.split_once(':') {
        Some((start, ratio)) => Ok(Some(Throttle {
            start: small(start)?,
            ratio: small(ratio)?,
        })),
        None => Ok(None),
    }
}
