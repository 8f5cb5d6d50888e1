// The names that a config has so far, each with what is said of it.
ghost use Rattle.std.specs.Prelude.{◌≡◌, ◌++◌, IfOk, OnOk};
ghost use Rattle.service_config.specs.Entries.{Gives, name_seen, key_from, method_of, added};
ghost use Rattle.service_config.specs.Keys.{HasKeys};

use crate::config::Method;
use crate::entry::{Name, Settings};
use config_values::Fault;
use grpc_base::{NoMemory, Text};
use std::alloc::Global;
use std::collections::BTreeSet;

/// What is said of each name, in the text's order.
#[derive(Drop)]
pub struct Known {
    pub methods: Vec<Method>,
    // one for each name
    keys: BTreeSet<Vec<u8>>,
    ghost whole: { HasKeys keys.keys methods.items },
}

/// Appends a service, with a 1 before each byte, a 0 and a method.
fn append_key(key: &mut Vec<u8>, service: &[u8], method: &[u8]) -> Result<(), NoMemory>
    ensures { OnOk result (key.new.items ≡ key.old.items ++ key_from service.now method.now) }
{
    for byte in service {
        key.push(1)?;
        key.push(*byte)?;
    }
    key.push(0)?;
    key.extend_from_slice(method)?;
    Ok(())
}

/// The key of a name, which no other name has.
fn key_of(alloc: Global, name: Name) -> Result<Vec<u8>, NoMemory>
    ensures { IfOk result (λ k. k.items ≡ key_from name.entry.service.now name.entry.method.now) }
{
    let mut key = Vec::new(alloc);
    append_key(&mut key, name.service, name.method)?;
    Ok(key)
}

fn method_of(alloc: Global, name: Name, settings: &Settings) -> Result<Method, NoMemory>
    ensures { IfOk result (λ m. m ≡ method_of (name_seen name.entry) settings.now) }
{
    let service = Text::of_slice(alloc, name.service)?;
    let method = Text::of_slice(alloc, name.method)?;
    Ok(Method {
        service,
        method,
        wait: settings.wait,
        timeout: settings.timeout,
        request: settings.request,
        response: settings.response,
        plan: settings.plan,
    })
}

impl Known {
    ghost use Rattle.std.specs.Prelude.{◌≡◌, []};

    /// No name.
    pub fn new(alloc: Global) -> Known
        ensures { result.methods.items ≡ [] }
    {
        Known {
            methods: Vec::new(alloc),
            keys: BTreeSet::new(alloc),
        }
    }

    /// One name more, unless it stands there already; it is sought by some log n comparisons.
    pub fn with(
        self,
        alloc: Global,
        entry: usize,
        at: usize,
        name: Name,
        settings: &Settings,
    ) -> Result<Known, Fault>
        ensures { Gives (λ k. k.methods.items) result (added entry at settings.now self.methods.items (name_seen name.entry)) }
    {
        let Known { methods, keys } = self;
        let key = key_of(alloc, name)?;
        let mut keys = keys;
        if !keys.insert(key)? {
            return Err(Fault::RepeatedName { entry, name: at });
        }
        let method = method_of(alloc, name, settings)?;
        let mut methods = methods;
        methods.push(method)?;
        Ok(Known { methods, keys })
    }

    /// What is said of each name.
    pub fn into_methods(self) -> Vec<Method>
        ensures { result ≡ self.methods }
    {
        let Known { methods, keys: _ } = self;
        methods
    }
}
