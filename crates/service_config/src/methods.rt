// The entries of `methodConfig`, one by one.
ghost use Rattle.std.specs.Prelude.{◌≡◌, [], map};
ghost use Rattle.json_text.specs.Views.{tree_of};
ghost use Rattle.json_text.specs.Parts.{member_seen};
ghost use Rattle.service_config.specs.Entries.{Gives, entries_from, methods_in};

use crate::config::Method;
use crate::entry::with_entry;
use crate::known::Known;
use config_values::{Fault, Field, Object, Place, value_of};
use grpc_base::Text;
use json_text::Json;
use std::alloc::Global;

/// All entries.
fn entries(alloc: Global, values: &[Json]) -> Result<Known, Fault>
    ensures { Gives (λ k. k.methods.items) result (entries_from 0 [] (map tree_of values.now)) }
{
    let mut known = Known::new(alloc);
    for (entry, value) in values.iter().enumerate() {
        known = with_entry(alloc, entry, known, value)?;
    }
    Ok(known)
}

/// What a config says of each name.
#[tactic(auto, unfolding(crate::specs::Entries::methods_in))]
pub fn methods_in(alloc: Global, fields: &[(Text, Json)]) -> Result<Vec<Method>, Fault>
    ensures { Gives (λ v. v.items) result (methods_in (map member_seen fields.now)) }
{
    let Some(value) = value_of(fields, Field::MethodConfig) else {
        return Ok(Vec::new(alloc));
    };
    let wrong = Fault::Wrong(Place::Field(Object::Config, Field::MethodConfig));
    let values = value.as_list().ok_or(wrong)?;
    let known = entries(alloc, values)?;
    Ok(known.into_methods())
}
