// An entry of `methodConfig`: its names, and what it says of them.
ghost use Rattle.std.specs.Prelude.{◌≡◌, [], map};
ghost use Rattle.json_text.specs.Views.{tree_of};
ghost use Rattle.json_text.specs.Parts.{member_seen};
ghost use Rattle.config_values.specs.Policies.{seen_by};
ghost use Rattle.service_config.specs.Entries.{Gives, name_seen, name_of, name_in, name_at, names_from, names_in, settings_in, read_entry, added_from, entry_at};

use crate::known::Known;
use config_values::{
    Fault, Field, Object, Place, duration, fields_at, flag, plan_in, size, text, value_of,
};
use grpc_base::{CallPlan, Duration, Text};
use json_text::Json;
use std::alloc::Global;

/// A name: a service and a method, of which the method or both may be empty.
#[derive(Clone, Copy)]
pub struct Name<'a> {
    pub service: &'a [u8],
    pub method: &'a [u8],
}

/// What an entry says of its names.
#[derive(Clone, Copy)]
pub struct Settings {
    pub wait: Option<bool>,
    pub timeout: Option<Duration>,
    pub request: Option<u32>,
    pub response: Option<u32>,
    pub plan: CallPlan,
}

fn name_of<'a>(object: Object, service: &'a [u8], method: &'a [u8]) -> Result<Name<'a>, Fault>
    ensures { seen_by name_seen result ≡ name_of object service.now method.now }
{
    if service.len() == 0 && method.len() != 0 {
        return Err(Fault::Wrong(Place::Field(object, Field::Method)));
    }
    Ok(Name { service, method })
}

#[tactic(auto, unfolding(crate::specs::Entries::name_in))]
fn name_in<'a>(object: Object, fields: &'a [(Text, Json)]) -> Result<Name<'a>, Fault>
    ensures { seen_by name_seen result ≡ name_in object (map member_seen fields.now) }
{
    let service = text(object, Field::Service, fields)?.unwrap_or(b"");
    let method = text(object, Field::Method, fields)?.unwrap_or(b"");
    name_of(object, service, method)
}

/// The name at a place of an entry.
fn name_at(entry: usize, at: usize, value: &Json) -> Result<Name<'_>, Fault>
    ensures { seen_by name_seen result ≡ name_at entry at (tree_of value.now) }
{
    let object = Object::Name { entry, name: at };
    name_in(object, fields_at(object, value)?)
}

/// The names in a list.
fn names_of<'a>(alloc: Global, entry: usize, values: &'a [Json]) -> Result<Vec<Name<'a>>, Fault>
    ensures { Gives (λ v. map name_seen v.items) result (names_from entry 0 [] (map tree_of values.now)) }
{
    let mut names = Vec::new(alloc);
    for (at, value) in values.iter().enumerate() {
        names.push(name_at(entry, at, value)?)?;
    }
    Ok(names)
}

/// The names of an entry.
#[tactic(auto, unfolding(crate::specs::Entries::names_in))]
fn names_in<'a>(
    alloc: Global,
    entry: usize,
    fields: &'a [(Text, Json)],
) -> Result<Vec<Name<'a>>, Fault>
    ensures { Gives (λ v. map name_seen v.items) result (names_in entry (map member_seen fields.now)) }
{
    let Some(value) = value_of(fields, Field::Name) else {
        return Ok(Vec::new(alloc));
    };
    let wrong = Fault::Wrong(Place::Field(Object::Entry(entry), Field::Name));
    let values = value.as_list().ok_or(wrong)?;
    names_of(alloc, entry, values)
}

/// What an entry says of its names.
#[tactic(auto, unfolding(crate::specs::Entries::settings_in))]
fn settings_in(entry: usize, fields: &[(Text, Json)]) -> Result<Settings, Fault>
    ensures { result ≡ settings_in entry (map member_seen fields.now) }
{
    let object = Object::Entry(entry);
    let wait = flag(object, Field::WaitForReady, fields)?;
    let timeout = duration(object, Field::Timeout, fields)?;
    let request = size(object, Field::MaxRequestMessageBytes, fields)?;
    let response = size(object, Field::MaxResponseMessageBytes, fields)?;
    let plan = plan_in(entry, fields)?;
    Ok(Settings {
        wait,
        timeout,
        request,
        response,
        plan,
    })
}

/// An entry as it is read.
#[derive(Drop)]
struct Entry<'a> {
    names: Vec<Name<'a>>,
    settings: Settings,
}

/// What an entry says, and its names.
fn read_entry<'a>(alloc: Global, entry: usize, value: &'a Json) -> Result<Entry<'a>, Fault>
    ensures { Gives (λ e. (map name_seen e.names.items, e.settings)) result (read_entry entry (tree_of value.now)) }
{
    let fields = fields_at(Object::Entry(entry), value)?;
    let names = names_in(alloc, entry, fields)?;
    let settings = settings_in(entry, fields)?;
    Ok(Entry { names, settings })
}

/// The names of an entry after those before.
fn with_names(alloc: Global, at: usize, known: Known, entry: Entry) -> Result<Known, Fault>
    ensures { Gives (λ k. k.methods.items) result (added_from at 0 entry.entry.settings known.methods.items (map name_seen entry.entry.names.items)) }
{
    let mut known = known;
    let Entry { names, settings } = entry;
    for (place, name) in names.iter().enumerate() {
        known = known.with(alloc, at, place, *name, &settings)?;
    }
    Ok(known)
}

/// An entry after those before.
#[tactic(auto, unfolding(crate::specs::Entries::entry_at))]
pub fn with_entry(alloc: Global, at: usize, known: Known, value: &Json) -> Result<Known, Fault>
    ensures { Gives (λ k. k.methods.items) result (entry_at at known.methods.items (tree_of value.now)) }
{
    let entry = read_entry(alloc, at, value)?;
    with_names(alloc, at, known, entry)
}
