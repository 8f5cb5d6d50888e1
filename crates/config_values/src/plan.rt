// The policies and the throttling of a config.
ghost use Rattle.std.specs.Prelude.{◌≡◌, map, option_map};
ghost use Rattle.grpc_base.specs.Codes.{no_codes};
ghost use Rattle.json_text.specs.Views.{tree_of};
ghost use Rattle.json_text.specs.Parts.{member_seen};
ghost use Rattle.config_values.specs.Values.{backoff, attempts, multiplier, tokens, ratio};
ghost use Rattle.config_values.specs.Policies.{value_of, required, codes_from, retryable, non_fatal, some_values, delay_of, retry_in, hedge_in, retry_if, hedge_if, plan_of, plan_in, throttle_of, throttle_in};
ghost use Rattle.config_values.specs.declared.place.Field.TheVariants as field;
ghost use Rattle.config_values.specs.declared.place.Object.TheVariants as object;

use crate::code::failure_in;
use crate::field::{duration, fields_at, value_of};
use crate::place::{Fault, Field, Object, Place};
use crate::value;
use grpc_base::{CallPlan, CodeSet, Duration, HedgePolicy, RetryPolicy, Text, Throttle};
use json_text::Json;

fn backoff(object: Object, field: Field, fields: &[(Text, Json)]) -> Result<Duration, Fault>
    ensures { result ≡ required backoff object field (map member_seen fields.now) }
{
    let Some(value) = value_of(fields, field) else {
        return Err(Fault::Wrong(Place::Field(object, field)));
    };
    value::backoff(value).ok_or(Fault::Wrong(Place::Field(object, field)))
}

fn attempts(object: Object, fields: &[(Text, Json)]) -> Result<u32, Fault>
    ensures { result ≡ required attempts object field.MaxAttempts (map member_seen fields.now) }
{
    let wrong = Fault::Wrong(Place::Field(object, Field::MaxAttempts));
    let Some(value) = value_of(fields, Field::MaxAttempts) else {
        return Err(wrong);
    };
    value::attempts(value).ok_or(wrong)
}

fn multiplier(object: Object, fields: &[(Text, Json)]) -> Result<u64, Fault>
    ensures { result ≡ required multiplier object field.BackoffMultiplier (map member_seen fields.now) }
{
    let wrong = Fault::Wrong(Place::Field(object, Field::BackoffMultiplier));
    let Some(value) = value_of(fields, Field::BackoffMultiplier) else {
        return Err(wrong);
    };
    value::multiplier(value).ok_or(wrong)
}

/// The codes of a list.
fn codes_in(object: Object, field: Field, values: &[Json]) -> Result<CodeSet, Fault>
    ensures { result ≡ codes_from object field 0 no_codes (map tree_of values.now) }
{
    let mut codes = CodeSet::new();
    for (at, value) in values.iter().enumerate() {
        let code = failure_in(value).ok_or(Fault::Wrong(Place::Element(object, field, at)))?;
        codes.add(code);
    }
    Ok(codes)
}

/// The codes of a retry policy: one at least.
#[tactic(auto, unfolding(crate::specs::Policies::retryable))]
fn retryable(object: Object, fields: &[(Text, Json)]) -> Result<CodeSet, Fault>
    ensures { result ≡ retryable object (map member_seen fields.now) }
{
    let wrong = Fault::Wrong(Place::Field(object, Field::RetryableStatusCodes));
    let Some(value) = value_of(fields, Field::RetryableStatusCodes) else {
        return Err(wrong);
    };
    let values = some_values(value).ok_or(wrong)?;
    codes_in(object, Field::RetryableStatusCodes, values)
}

/// The values of a list that is not empty.
fn some_values(value: &Json) -> Option<&[Json]>
    ensures { option_map (λ vs. map tree_of vs.now) result ≡ some_values (tree_of value.now) }
{
    let values = value.as_list()?;
    match values {
        [] => None,
        [_, ..] => Some(values),
    }
}

/// The codes of a hedging policy: none where they are absent.
#[tactic(auto, unfolding(crate::specs::Policies::non_fatal))]
fn non_fatal(object: Object, fields: &[(Text, Json)]) -> Result<CodeSet, Fault>
    ensures { result ≡ non_fatal object (map member_seen fields.now) }
{
    let Some(value) = value_of(fields, Field::NonFatalStatusCodes) else {
        return Ok(CodeSet::new());
    };
    let wrong = Fault::Wrong(Place::Field(object, Field::NonFatalStatusCodes));
    let values = value.as_list().ok_or(wrong)?;
    codes_in(object, Field::NonFatalStatusCodes, values)
}

/// A retry policy.
#[tactic(auto, unfolding(crate::specs::Policies::retry_in))]
fn retry_in(object: Object, fields: &[(Text, Json)]) -> Result<RetryPolicy, Fault>
    ensures { result ≡ retry_in object (map member_seen fields.now) }
{
    let initial = backoff(object, Field::InitialBackoff, fields)?;
    let limit = backoff(object, Field::MaxBackoff, fields)?;
    let max = attempts(object, fields)?;
    let multiplier = multiplier(object, fields)?;
    let codes = retryable(object, fields)?;
    Ok(RetryPolicy {
        max,
        initial,
        limit,
        multiplier,
        codes,
    })
}

/// The delay of a hedging policy, 0 where it is absent.
fn delay_of(delay: Option<Duration>) -> Duration
    ensures { result ≡ delay_of delay }
{
    match delay {
        Some(delay) => delay,
        None => Duration::new(0).unwrap(),
    }
}

/// A hedging policy.
#[tactic(auto, unfolding(crate::specs::Policies::hedge_in))]
fn hedge_in(object: Object, fields: &[(Text, Json)]) -> Result<HedgePolicy, Fault>
    ensures { result ≡ hedge_in object (map member_seen fields.now) }
{
    let delay = duration(object, Field::HedgingDelay, fields)?;
    let max = attempts(object, fields)?;
    let codes = non_fatal(object, fields)?;
    Ok(HedgePolicy {
        max,
        delay: delay_of(delay),
        codes,
    })
}

fn retry_if(entry: usize, fields: &[(Text, Json)]) -> Result<Option<RetryPolicy>, Fault>
    ensures { result ≡ retry_if entry (value_of field.RetryPolicy (map member_seen fields.now)) }
{
    let Some(value) = value_of(fields, Field::RetryPolicy) else {
        return Ok(None);
    };
    let object = Object::RetryPolicy(entry);
    let policy = retry_in(object, fields_at(object, value)?)?;
    Ok(Some(policy))
}

fn hedge_if(entry: usize, fields: &[(Text, Json)]) -> Result<Option<HedgePolicy>, Fault>
    ensures { result ≡ hedge_if entry (value_of field.HedgingPolicy (map member_seen fields.now)) }
{
    let Some(value) = value_of(fields, Field::HedgingPolicy) else {
        return Ok(None);
    };
    let object = Object::HedgingPolicy(entry);
    let policy = hedge_in(object, fields_at(object, value)?)?;
    Ok(Some(policy))
}

/// The plan of an entry of `methodConfig`.
#[tactic(auto, unfolding(crate::specs::Policies::plan_in))]
pub fn plan_in(entry: usize, fields: &[(Text, Json)]) -> Result<CallPlan, Fault>
    ensures { result ≡ plan_in entry (map member_seen fields.now) }
{
    let retry = retry_if(entry, fields)?;
    let hedge = hedge_if(entry, fields)?;
    match (retry, hedge) {
        (None, None) => Ok(CallPlan::None),
        (Some(policy), None) => Ok(CallPlan::Retry(policy)),
        (None, Some(policy)) => Ok(CallPlan::Hedge(policy)),
        (Some(_), Some(_)) => Err(Fault::BothPolicies(entry)),
    }
}

fn tokens(fields: &[(Text, Json)]) -> Result<u32, Fault>
    ensures { result ≡ required tokens object.Throttling field.MaxTokens (map member_seen fields.now) }
{
    let wrong = Fault::Wrong(Place::Field(Object::Throttling, Field::MaxTokens));
    let Some(value) = value_of(fields, Field::MaxTokens) else {
        return Err(wrong);
    };
    value::tokens(value).ok_or(wrong)
}

fn ratio(fields: &[(Text, Json)]) -> Result<u32, Fault>
    ensures { result ≡ required ratio object.Throttling field.TokenRatio (map member_seen fields.now) }
{
    let wrong = Fault::Wrong(Place::Field(Object::Throttling, Field::TokenRatio));
    let Some(value) = value_of(fields, Field::TokenRatio) else {
        return Err(wrong);
    };
    value::ratio(value).ok_or(wrong)
}

/// The throttling of a config.
#[tactic(auto, unfolding(crate::specs::Policies::throttle_in))]
pub fn throttle_in(fields: &[(Text, Json)]) -> Result<Option<Throttle>, Fault>
    ensures { result ≡ throttle_in (map member_seen fields.now) }
{
    let Some(value) = value_of(fields, Field::RetryThrottling) else {
        return Ok(None);
    };
    let fields = fields_at(Object::Throttling, value)?;
    let start = tokens(fields)?;
    let ratio = ratio(fields)?;
    Ok(Some(Throttle { start, ratio }))
}
