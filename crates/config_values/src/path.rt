// The paths of values that are at fault.
ghost use Rattle.std.specs.Prelude.{◌≡◌, ◌++◌, ◌⊎◌, IfOk, OnOk};
ghost use Rattle.config_values.specs.Places.{member_step, element_step, entry_path, object_path, member_path, path_of, reported_of};
ghost use Rattle.grpc_base.specs.declared.event.ConfigFault.TheVariants as reported;

use crate::place::{Fault, Field, Object, Place};
use grpc_base::{ConfigFault, NoMemory, Text, append_decimal};
use std::alloc::Global;

/// Appends the step to a member.
fn append_member(out: &mut Vec<u8>, field: Field) -> Result<(), NoMemory>
    ensures { OnOk result (out.new.items ≡ out.old.items ++ member_step field) }
{
    out.push(b'.')?;
    out.extend_from_slice(field.name())?;
    Ok(())
}

/// Appends the step to an element, which counts from 0.
fn append_element(out: &mut Vec<u8>, at: usize) -> Result<(), NoMemory>
    ensures { OnOk result (out.new.items ≡ out.old.items ++ element_step at) }
{
    out.push(b'[')?;
    append_decimal(out, at as u64)?;
    out.push(b']')?;
    Ok(())
}

#[tactic(auto, unfolding(crate::specs::Places::entry_path))]
fn append_entry(out: &mut Vec<u8>, entry: usize) -> Result<(), NoMemory>
    ensures { OnOk result (out.new.items ≡ out.old.items ++ entry_path entry) }
{
    out.extend_from_slice(Field::MethodConfig.name())?;
    append_element(out, entry)?;
    Ok(())
}

/// Appends the path of an object.
#[tactic(auto, unfolding(crate::specs::Places::object_path))]
fn append_object(out: &mut Vec<u8>, object: Object) -> Result<(), NoMemory>
    ensures { OnOk result (out.new.items ≡ out.old.items ++ object_path object) }
{
    match object {
        Object::Config => {}
        Object::Entry(entry) => append_entry(out, entry)?,
        Object::Name { entry, name } => {
            append_entry(out, entry)?;
            append_member(out, Field::Name)?;
            append_element(out, name)?;
        }
        Object::RetryPolicy(entry) => {
            append_entry(out, entry)?;
            append_member(out, Field::RetryPolicy)?;
        }
        Object::HedgingPolicy(entry) => {
            append_entry(out, entry)?;
            append_member(out, Field::HedgingPolicy)?;
        }
        Object::Throttling => out.extend_from_slice(Field::RetryThrottling.name())?,
    }
    Ok(())
}

/// Appends the path of a member of an object.
#[tactic(auto, unfolding(crate::specs::Places::member_path))]
fn append_field(out: &mut Vec<u8>, object: Object, field: Field) -> Result<(), NoMemory>
    ensures { OnOk result (out.new.items ≡ out.old.items ++ member_path object field) }
{
    if let Object::Config = object {
        out.extend_from_slice(field.name())?;
        return Ok(());
    }
    append_object(out, object)?;
    append_member(out, field)?;
    Ok(())
}

/// The path of a value.
#[tactic(auto, unfolding(crate::specs::Places::path_of))]
fn path_of(alloc: Global, place: Place) -> Result<Text, NoMemory>
    ensures { IfOk result (λ t. t ≡ path_of place) }
{
    let mut out = Vec::new(alloc);
    match place {
        Place::Whole(object) => append_object(&mut out, object)?,
        Place::Field(object, field) => append_field(&mut out, object, field)?,
        Place::Element(object, field, at) => {
            append_field(&mut out, object, field)?;
            append_element(&mut out, at)?;
        }
    }
    Ok(Text::of_vec(out))
}

/// A fault with its path.
fn with_path(alloc: Global, fault: Fault) -> Result<ConfigFault, NoMemory>
    ensures { IfOk result (λ f. f ≡ reported_of fault) }
{
    let reported = match fault {
        Fault::Wrong(place) => ConfigFault::Field {
            path: path_of(alloc, place)?,
        },
        Fault::BothPolicies(entry) => ConfigFault::BothPolicies {
            path: path_of(alloc, Place::Whole(Object::Entry(entry)))?,
        },
        Fault::RepeatedName { entry, name } => ConfigFault::RepeatedName {
            path: path_of(alloc, Place::Whole(Object::Name { entry, name }))?,
        },
        Fault::NoSupportedPolicy => ConfigFault::NoSupportedPolicy,
        Fault::NoMemory => ConfigFault::NoMemory,
    };
    Ok(reported)
}

/// A fault as it is reported, or that memory ran out.
pub fn reported(alloc: Global, fault: Fault) -> ConfigFault
    ensures { (result ≡ reported_of fault) ⊎ (result ≡ reported.NoMemory) }
{
    match with_path(alloc, fault) {
        Ok(reported) => reported,
        Err(_) => ConfigFault::NoMemory,
    }
}
