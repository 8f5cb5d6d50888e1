// A service config of a text.
ghost use Rattle.std.specs.Prelude.{◌≡◌, None, Err, map, option_map, IfOk, IfSome, IsTrue};
ghost use Rattle.grpc_base.specs.Kinds.{has_kind};
ghost use Rattle.json_text.specs.Views.{tree_of};
ghost use Rattle.json_text.specs.Parts.{member_seen};
ghost use Rattle.config_values.specs.Policies.{value_of};
ghost use Rattle.service_config.specs.Entries.{Gives};
ghost use Rattle.service_config.specs.Reading.{supported, supported_kind, only_name, policy_name, first_kind, named_kind, kind_by, kind_in, config_in, config_in_tree, json_reported, config_of, ReportsThat};
ghost use Rattle.grpc_base.specs.declared.event.ConfigFault.TheVariants as reported;
ghost use Rattle.grpc_base.specs.declared.event.JsonFault.TheVariants as json;
ghost use Rattle.config_values.specs.declared.place.Field.TheVariants as field;

use crate::config::Config;
use crate::methods::methods_in;
use config_values::{
    Fault, Field, Object, Place, fields_at, reported, text, throttle_in, value_of,
};
use grpc_base::{ConfigFault, Items, JsonFault, Kind, KindSet, Text};
use json_text::{Json, read_json};
use std::alloc::Global;

fn supported(kinds: KindSet, kind: Option<Kind>) -> Option<Kind>
    ensures kind { result ≡ supported kinds kind }
    ensures has { IfSome result (λ k. IsTrue (has_kind kinds k)) }
{
    let kind = kind?;
    if kinds.has(kind) { Some(kind) } else { None }
}

/// The kind of this name, spelled exactly, where it is supported.
#[tactic(auto, unfolding(crate::specs::Reading::supported_kind))]
fn supported_kind(kinds: KindSet, name: &[u8]) -> Option<Kind>
    ensures kind { result ≡ supported_kind kinds name.now }
    ensures has { IfSome result (λ k. IsTrue (has_kind kinds k)) }
{
    supported(kinds, Kind::of_name(name))
}

fn only_name(members: &[(Text, Json)]) -> Option<&[u8]>
    ensures { option_map (λ n. n.now) result ≡ only_name (map member_seen members.now) }
{
    match members {
        [member] => Some(member.0.as_slice()),
        _ => None,
    }
}

/// The name in an entry of `loadBalancingConfig`.
fn policy_name(value: &Json) -> Option<&[u8]>
    ensures { option_map (λ n. n.now) result ≡ policy_name (tree_of value.now) }
{
    only_name(value.as_object()?)
}

/// The first supported kind of these entries.
fn first_kind(kinds: KindSet, values: &[Json]) -> Result<Option<Kind>, Fault>
    ensures kind { result ≡ first_kind kinds 0 None (map tree_of values.now) }
    ensures has { IfOk result (λ found. IfSome found (λ k. IsTrue (has_kind kinds k))) }
{
    let mut found = None;
    for (at, value) in values.iter().enumerate() {
        let place = Place::Element(Object::Config, Field::LoadBalancingConfig, at);
        let name = policy_name(value).ok_or(Fault::Wrong(place))?;
        found = found.or(supported_kind(kinds, name));
    }
    Ok(found)
}

/// The policy by its name, `pick_first` where it is absent.
fn named_kind(kinds: KindSet, name: Option<&[u8]>) -> Option<Kind>
    ensures kind { result ≡ named_kind kinds (option_map (λ n. n.now) name.entry) }
    ensures has { IfSome result (λ k. IsTrue (has_kind kinds k)) }
{
    match name {
        None => supported(kinds, Some(Kind::PickFirst)),
        Some(name) => supported(kinds, Kind::of_name_in_any_case(name)),
    }
}

fn kind_by(kinds: KindSet, fields: &[(Text, Json)]) -> Result<Option<Kind>, Fault>
    ensures kind { result ≡ kind_by kinds (map member_seen fields.now) (value_of field.LoadBalancingConfig (map member_seen fields.now)) }
    ensures has { IfOk result (λ found. IfSome found (λ k. IsTrue (has_kind kinds k))) }
{
    let Some(value) = value_of(fields, Field::LoadBalancingConfig) else {
        let name = text(Object::Config, Field::LoadBalancingPolicy, fields)?;
        return Ok(named_kind(kinds, name));
    };
    let wrong = Fault::Wrong(Place::Field(Object::Config, Field::LoadBalancingConfig));
    let values = value.as_list().ok_or(wrong)?;
    first_kind(kinds, values)
}

/// The load balancing policy.
#[tactic(auto, unfolding(crate::specs::Reading::kind_in))]
fn kind_in(kinds: KindSet, fields: &[(Text, Json)]) -> Result<Kind, Fault>
    ensures kind { result ≡ kind_in kinds (map member_seen fields.now) }
    ensures has { IfOk result (λ k. IsTrue (has_kind kinds k)) }
{
    let kind = kind_by(kinds, fields)?;
    kind.ok_or(Fault::NoSupportedPolicy)
}

/// The config in the members of the object at the top.
#[tactic(auto, unfolding(crate::specs::Reading::config_in))]
fn config_in(alloc: Global, kinds: KindSet, fields: &[(Text, Json)]) -> Result<Config, Fault>
    ensures gives { Gives (λ c. c) result (config_in kinds (map member_seen fields.now)) }
    ensures has { IfOk result (λ c. IsTrue (has_kind kinds c.kind)) }
{
    let kind = kind_in(kinds, fields)?;
    let methods = methods_in(alloc, fields)?;
    let throttle = throttle_in(fields)?;
    Ok(Config {
        kind,
        throttle,
        methods: Items::of_vec(methods),
    })
}

#[tactic(auto, unfolding(crate::specs::Reading::config_in_tree))]
fn config_in_tree(alloc: Global, kinds: KindSet, value: &Json) -> Result<Config, Fault>
    ensures gives { Gives (λ c. c) result (config_in_tree kinds (tree_of value.now)) }
    ensures has { IfOk result (λ c. IsTrue (has_kind kinds c.kind)) }
{
    let fields = fields_at(Object::Config, value)?;
    config_in(alloc, kinds, fields)
}

/// A fault of the JSON text.
fn json_reported(fault: JsonFault) -> ConfigFault
    ensures { result ≡ json_reported fault }
{
    match fault {
        JsonFault::NoMemory => ConfigFault::NoMemory,
        _ => ConfigFault::Json { fault },
    }
}

/// Reads a service config, where these kinds of load balancing policy are supported, or reports its first fault. The
/// tests go in this order: the JSON whole, the choice of the policy, each entry of `methodConfig`, the throttling.
#[tactic(auto, using(crate::proofs::Report::json_reports, crate::proofs::Report::fault_reports))]
pub fn read_config(alloc: Global, bytes: &[u8], kinds: KindSet) -> Result<Config, ConfigFault>
    // What is read, or which fault is reported at which path; out of memory alone is free.
    ensures exact { ReportsThat result (config_of kinds bytes.now) }
    // The config's policy is one of those that are supported.
    ensures kind { IfOk result (λ c. IsTrue (has_kind kinds c.kind)) }
    // Out of memory is never reported as a fault of the JSON text.
    ensures memory { result ≡ Err (reported.Json json.NoMemory) → ⊥ }
{
    match read_json(alloc, bytes) {
        Ok(value) => match config_in_tree(alloc, kinds, &value) {
            Ok(config) => Ok(config),
            Err(fault) => Err(reported(alloc, fault)),
        },
        Err(fault) => Err(json_reported(fault)),
    }
}
