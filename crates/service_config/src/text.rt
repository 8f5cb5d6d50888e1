// The text of a reading.
ghost use Rattle.std.specs.Prelude.{◌≡◌, ◌++◌, ◌∷◌, [], decimal, IfOk, OnOk, flat_map};
ghost use Rattle.grpc_base.specs.Waits.{wait_text};
ghost use Rattle.service_config.specs.Text.{spaced, number_or_dash, text_or_star, name_text, more_codes, codes_among, set_text, plan_words, method_words, method_line, throttle_line, config_text, json_fault_text, config_fault_words, fault_text};

use crate::config::{Config, Method};
use grpc_base::{
    CallPlan, Code, CodeSet, ConfigFault, Duration, JsonFault, NoMemory, Throttle, append_decimal,
};
use std::alloc::Global;

/// All codes by their numbers.
const CODES: [Code; 17] = [
    Code::Ok,
    Code::Cancelled,
    Code::Unknown,
    Code::InvalidArgument,
    Code::DeadlineExceeded,
    Code::NotFound,
    Code::AlreadyExists,
    Code::PermissionDenied,
    Code::ResourceExhausted,
    Code::FailedPrecondition,
    Code::Aborted,
    Code::OutOfRange,
    Code::Unimplemented,
    Code::Internal,
    Code::Unavailable,
    Code::DataLoss,
    Code::Unauthenticated,
];

/// Appends a word after a space.
fn append_word(out: &mut Vec<u8>, word: &[u8]) -> Result<(), NoMemory>
    ensures { OnOk result (out.new.items ≡ out.old.items ++ 32 ∷ word.now) }
{
    out.push(b' ')?;
    out.extend_from_slice(word)?;
    Ok(())
}

/// Appends a number after a space.
fn append_number(out: &mut Vec<u8>, number: u64) -> Result<(), NoMemory>
    ensures { OnOk result (out.new.items ≡ out.old.items ++ 32 ∷ decimal number) }
{
    out.push(b' ')?;
    append_decimal(out, number)?;
    Ok(())
}

fn append_duration(out: &mut Vec<u8>, duration: Option<Duration>) -> Result<(), NoMemory>
    ensures { OnOk result (out.new.items ≡ out.old.items ++ 32 ∷ number_or_dash duration) }
{
    match duration {
        Some(duration) => append_number(out, duration.nanos())?,
        None => append_word(out, b"-")?,
    }
    Ok(())
}

fn append_limit(out: &mut Vec<u8>, limit: Option<u32>) -> Result<(), NoMemory>
    ensures { OnOk result (out.new.items ≡ out.old.items ++ 32 ∷ number_or_dash limit) }
{
    match limit {
        Some(limit) => append_number(out, limit as u64)?,
        None => append_word(out, b"-")?,
    }
    Ok(())
}

fn append_wait(out: &mut Vec<u8>, wait: Option<bool>) -> Result<(), NoMemory>
    ensures { OnOk result (out.new.items ≡ out.old.items ++ 32 ∷ wait_text wait) }
{
    match wait {
        None => append_word(out, b"-")?,
        Some(true) => append_word(out, b"yes")?,
        Some(false) => append_word(out, b"no")?,
    }
    Ok(())
}

fn text_or_star(text: &[u8]) -> &[u8]
    ensures { result.now ≡ text_or_star text.now }
{
    match text {
        [] => b"*",
        [_, ..] => text,
    }
}

/// Appends a name after a space.
#[tactic(auto, unfolding(crate::specs::Text::name_text))]
fn append_name(out: &mut Vec<u8>, service: &[u8], method: &[u8]) -> Result<(), NoMemory>
    ensures { OnOk result (out.new.items ≡ out.old.items ++ 32 ∷ name_text service.now method.now) }
{
    append_word(out, text_or_star(service))?;
    out.push(b'/')?;
    out.extend_from_slice(text_or_star(method))?;
    Ok(())
}

/// Appends the numbers of those of these codes that the set has, each after a comma.
fn append_more(out: &mut Vec<u8>, set: &CodeSet, codes: &[Code]) -> Result<(), NoMemory>
    ensures { OnOk result (out.new.items ≡ out.old.items ++ more_codes set.now codes.now) }
{
    let [first, rest @ ..] = codes else {
        return Ok(());
    };
    if set.has(*first) {
        out.push(b',')?;
        append_decimal(out, first.number() as u64)?;
    }
    append_more(out, set, rest)?;
    Ok(())
}

/// Appends the numbers of those of these codes that the set has, a dash where there are none.
fn append_among(out: &mut Vec<u8>, set: &CodeSet, codes: &[Code]) -> Result<(), NoMemory>
    ensures { OnOk result (out.new.items ≡ out.old.items ++ codes_among set.now codes.now) }
{
    let [first, rest @ ..] = codes else {
        out.push(b'-')?;
        return Ok(());
    };
    if !set.has(*first) {
        append_among(out, set, rest)?;
        return Ok(());
    }
    append_decimal(out, first.number() as u64)?;
    append_more(out, set, rest)?;
    Ok(())
}

/// Appends a set of codes after a space.
#[tactic(auto, unfolding(crate::specs::Text::set_text))]
fn append_set(out: &mut Vec<u8>, set: &CodeSet) -> Result<(), NoMemory>
    ensures { OnOk result (out.new.items ≡ out.old.items ++ 32 ∷ set_text set.now) }
{
    out.push(b' ')?;
    append_among(out, set, &CODES)?;
    Ok(())
}

fn append_plan(out: &mut Vec<u8>, plan: &CallPlan) -> Result<(), NoMemory>
    ensures { OnOk result (out.new.items ≡ out.old.items ++ spaced (plan_words plan.now)) }
{
    match plan {
        CallPlan::None => append_word(out, b"none")?,
        CallPlan::Retry(policy) => {
            append_word(out, b"retry")?;
            append_number(out, policy.max as u64)?;
            append_number(out, policy.initial.nanos())?;
            append_number(out, policy.limit.nanos())?;
            append_number(out, policy.multiplier)?;
            append_set(out, &policy.codes)?;
        }
        CallPlan::Hedge(policy) => {
            append_word(out, b"hedge")?;
            append_number(out, policy.max as u64)?;
            append_number(out, policy.delay.nanos())?;
            append_set(out, &policy.codes)?;
        }
    }
    Ok(())
}

#[tactic(auto, unfolding(crate::specs::Text::method_words))]
fn append_method_words(out: &mut Vec<u8>, method: &Method) -> Result<(), NoMemory>
    ensures { OnOk result (out.new.items ≡ out.old.items ++ spaced (method_words method.now)) }
{
    append_name(out, method.service.as_slice(), method.method.as_slice())?;
    append_wait(out, method.wait)?;
    append_duration(out, method.timeout)?;
    append_limit(out, method.request)?;
    append_limit(out, method.response)?;
    append_plan(out, &method.plan)?;
    Ok(())
}

#[tactic(auto, unfolding(crate::specs::Text::method_line))]
fn append_method(out: &mut Vec<u8>, method: &Method) -> Result<(), NoMemory>
    ensures { OnOk result (out.new.items ≡ out.old.items ++ method_line method.now) }
{
    out.extend_from_slice(b"method")?;
    append_method_words(out, method)?;
    out.push(b'\n')?;
    Ok(())
}

fn append_methods(out: &mut Vec<u8>, methods: &[Method]) -> Result<(), NoMemory>
    ensures { OnOk result (out.new.items ≡ out.old.items ++ flat_map method_line methods.now) }
{
    for method in methods {
        append_method(out, method)?;
    }
    Ok(())
}

#[tactic(auto, unfolding(crate::specs::Text::throttle_line))]
fn append_throttle(out: &mut Vec<u8>, throttle: &Option<Throttle>) -> Result<(), NoMemory>
    ensures { OnOk result (out.new.items ≡ out.old.items ++ throttle_line throttle.now) }
{
    out.extend_from_slice(b"throttle")?;
    match throttle {
        None => {
            append_word(out, b"-")?;
            append_word(out, b"-")?;
        }
        Some(throttle) => {
            append_number(out, throttle.start as u64)?;
            append_number(out, throttle.ratio as u64)?;
        }
    }
    out.push(b'\n')?;
    Ok(())
}

/// Appends the text of a valid config: its lines for the policy, the throttling and each name, and the count of names.
#[tactic(auto, unfolding(crate::specs::Text::config_text))]
pub fn append_config(out: &mut Vec<u8>, config: &Config) -> Result<(), NoMemory>
    ensures { OnOk result (out.new.items ≡ out.old.items ++ config_text config.now) }
{
    out.extend_from_slice(b"policy ")?;
    out.extend_from_slice(config.kind.name().as_bytes())?;
    out.push(b'\n')?;
    append_throttle(out, &config.throttle)?;
    append_methods(out, config.methods.as_slice())?;
    out.extend_from_slice(b"end ")?;
    append_decimal(out, config.methods.len() as u64)?;
    out.push(b'\n')?;
    Ok(())
}

/// The text of a valid config.
pub fn config_text(alloc: Global, config: &Config) -> Result<Vec<u8>, NoMemory>
    ensures { IfOk result (λ v. v.items ≡ config_text config.now) }
{
    let mut out = Vec::new(alloc);
    append_config(&mut out, config)?;
    Ok(out)
}

fn append_offset(out: &mut Vec<u8>, number: &[u8], at: u64) -> Result<(), NoMemory>
    ensures { OnOk result (out.new.items ≡ out.old.items ++ 32 ∷ (number.now ++ decimal at)) }
{
    append_word(out, number)?;
    append_decimal(out, at)?;
    Ok(())
}

/// Appends a fault of a JSON text after a space.
fn append_json_fault(out: &mut Vec<u8>, fault: JsonFault) -> Result<(), NoMemory>
    ensures { OnOk result (out.new.items ≡ out.old.items ++ 32 ∷ json_fault_text fault) }
{
    match fault {
        JsonFault::Syntax { at } => append_offset(out, b"1:", at)?,
        JsonFault::RepeatedKey { at } => append_offset(out, b"2:", at)?,
        JsonFault::TooDeep { at } => append_offset(out, b"3:", at)?,
        JsonFault::Number { at } => append_offset(out, b"4:", at)?,
        JsonFault::TooLong => append_word(out, b"5:65536")?,
        JsonFault::NoMemory => append_word(out, b"-")?,
    }
    Ok(())
}

fn append_two(out: &mut Vec<u8>, first: &[u8], second: &[u8]) -> Result<(), NoMemory>
    ensures { OnOk result (out.new.items ≡ out.old.items ++ spaced (first.now ∷ second.now ∷ [])) }
{
    append_word(out, first)?;
    append_word(out, second)?;
    Ok(())
}

/// Appends a fault's number and what it names, each after a space.
pub fn append_fault(out: &mut Vec<u8>, fault: &ConfigFault) -> Result<(), NoMemory>
    ensures { OnOk result (out.new.items ≡ out.old.items ++ spaced (config_fault_words fault.now)) }
{
    match fault {
        ConfigFault::Json { fault } => {
            append_word(out, b"1")?;
            append_json_fault(out, *fault)?;
        }
        ConfigFault::Field { path } => append_two(out, b"2", path.as_slice())?,
        ConfigFault::BothPolicies { path } => append_two(out, b"3", path.as_slice())?,
        ConfigFault::RepeatedName { path } => append_two(out, b"4", path.as_slice())?,
        ConfigFault::NoSupportedPolicy => append_two(out, b"5", b"-")?,
        ConfigFault::NoMemory => append_word(out, b"-")?,
    }
    Ok(())
}

/// The text of a fault.
pub fn fault_text(alloc: Global, fault: &ConfigFault) -> Result<Vec<u8>, NoMemory>
    ensures { IfOk result (λ v. v.items ≡ fault_text fault.now) }
{
    let mut out = Vec::new(alloc);
    out.extend_from_slice(b"fault config")?;
    append_fault(&mut out, fault)?;
    out.push(b'\n')?;
    Ok(out)
}
