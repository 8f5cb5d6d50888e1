// The configurations of the tables.
use crate::fixture::number;
use grpc_base::{
    CallPlan, Chosen, Code, CodeSet, Duration, HedgePolicy, MessageLimit, RetryPolicy, Throttle,
};
use std::test::Fail;

/// Ten tokens, and for each success so many thousandths more; none are counted where no number is named.
pub fn throttle_of(words: &[&str]) -> Result<Option<Throttle>, Fail> {
    match words.get(2) {
        Some(word) => Ok(Some(Throttle {
            start: 10_000,
            ratio: word.parse::<u32>()?,
        })),
        None => Ok(None),
    }
}

fn duration(nanos: u64) -> Result<Duration, Fail> {
    Ok(Duration::new(nanos).ok_or("no duration")?)
}

pub fn limit(bytes: u64) -> Result<MessageLimit, Fail> {
    let bytes = u32::try_from(bytes)?;
    Ok(MessageLimit::new(bytes).ok_or("no limit")?)
}

fn unavailable() -> CodeSet {
    let mut codes = CodeSet::new();
    codes.add(Code::Unavailable);
    codes
}

/// Retries after UNAVAILABLE: 0.1 s at first, twice as long each time, at most 1 s.
fn retries(max: u32) -> Result<CallPlan, Fail> {
    Ok(CallPlan::Retry(RetryPolicy {
        max,
        initial: duration(100_000_000)?,
        limit: duration(1_000_000_000)?,
        multiplier: 2_000,
        codes: unavailable(),
    }))
}

/// Hedging that goes on after UNAVAILABLE.
fn hedges(max: u32, delay: u64) -> Result<CallPlan, Fail> {
    Ok(CallPlan::Hedge(HedgePolicy {
        max,
        delay: duration(delay)?,
        codes: unavailable(),
    }))
}

/// The plan of the first line of a table.
fn plan_of(words: &[&str]) -> Result<CallPlan, Fail> {
    let kind = *words.get(1).ok_or("a table without a plan")?;
    match kind {
        "retry" => retries(u32::try_from(number(words, 2)?)?),
        "hedge" => hedges(u32::try_from(number(words, 2)?)?, number(words, 3)?),
        _ => Ok(CallPlan::None),
    }
}

/// What the config of a table chooses: messages of 1,000 bytes at most, and no timeout.
pub fn chosen_of(words: &[&str]) -> Result<Chosen, Fail> {
    let limit = limit(1_000)?;
    Ok(Chosen {
        wait: None,
        timeout: None,
        request: limit,
        response: limit,
        plan: plan_of(words)?,
        throttle: throttle_of(&["", "", "546"])?,
    })
}

/// Another config: its timeout, its longest request, or that calls wait for ready.
pub fn change(chosen: &mut Chosen, words: &[&str]) -> Result<(), Fail> {
    let what = *words.get(2).ok_or("nothing that changes")?;
    match what {
        "timeout" => {
            let timeout = duration(number(words, 3)?)?;
            chosen.timeout = Some(timeout);
        }
        "request" => {
            let request = limit(number(words, 3)?)?;
            chosen.request = request;
        }
        _ => chosen.wait = Some(true),
    }
    Ok(())
}
