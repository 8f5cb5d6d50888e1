// Header fields in order, as a header list and as the metadata of a call.
ghost use Rattle.std.specs.Prelude.{◌≡◌, ◌<◌, ◌+◌, ◌++◌, ◌∷◌, [], length, IfOk, OnOk, OnErr, Err, IsTrue, ◌↔◌};
ghost use Rattle.grpc_base.specs.Metadata.{IsMetaName, IsMetaValue, IsRequestMetadata, meta_limit, meta_size, pair_size};

use crate::meta_rule::{has_room, is_meta_name, is_meta_value};
use crate::{Items, MetaFault, NoMemory, Octets};
use std::alloc::Global;
use std::marker::Model;

/// One header field.
#[derive(Debug, Drop, PartialEq, Eq)]
pub struct Field {
    pub name: Octets,
    pub value: Octets,
}

impl Field {
    /// The same field; its bytes are shared.
    pub fn share(&self) -> Result<Field, NoMemory>
        ensures { IfOk result (λ f. f ≡ self.now) }
    {
        let name = self.name.share()?;
        let value = self.value.share()?;
        Ok(Field { name, value })
    }
}

/// A header list: fields in their order, a name as often as it was sent (RFC 9113, section 8.2).
pub type Fields = Items<Field>;

/// Metadata of a call or of a response: pairs of a name and its bytes, in order.
/// The value of a name that ends in `-bin` is its raw bytes.
#[derive(Debug, Drop)]
pub struct Metadata {
    pairs: Vec<Field>,
}

impl Model for Metadata {
    ghost use Rattle.std.specs.Prelude.{List};
    ghost use Rattle.grpc_base.specs.declared.fields.Field.{Field};

    ghost Value = { List Field };

    ghost view = { λ m. m.pairs.items };
}

impl Metadata {
    /// The empty list.
    pub fn new(alloc: Global) -> Metadata
        ensures { result ≡ [] }
    {
        Metadata {
            pairs: Vec::new(alloc),
        }
    }

    /// The pairs of this vector, as a response has them; no rule for requests is tested.
    pub fn of_vec(pairs: Vec<Field>) -> Metadata
        ensures { result ≡ pairs.items }
    {
        Metadata { pairs }
    }

    /// Appends a pair of a request's metadata. On a refusal or out of memory the list is as before.
    pub fn push(&mut self, name: &[u8], value: &[u8]) -> Result<(), MetaFault>
        ensures ok { OnOk result (self.new ≡ self.old ++ record { name = name.now; value = value.now } ∷ []) }
        ensures err { OnErr result (self.new ≡ self.old) }
        ensures bad_name { (result ≡ Err MetaFault.BadName) ↔ (IsMetaName name.now → ⊥) }
        ensures bad_value { (result ≡ Err MetaFault.BadValue) ↔ (IsMetaName name.now × (IsMetaValue name.now value.now → ⊥)) }
        ensures too_long { (result ≡ Err MetaFault.TooLong) ↔ (IsMetaName name.now × IsMetaValue name.now value.now × (meta_limit < meta_size self.old + pair_size (record { name = name.now; value = value.now }))) }
        ensures kept { OnOk result (IsRequestMetadata self.old → IsRequestMetadata self.new) }
    {
        if !is_meta_name(name) {
            return Err(MetaFault::BadName);
        }
        if !is_meta_value(name, value) {
            return Err(MetaFault::BadValue);
        }
        if !has_room(self.pairs.as_slice(), name, value) {
            return Err(MetaFault::TooLong);
        }
        let alloc = *self.pairs.allocator();
        let name = Octets::of_slice(alloc, name)?;
        let value = Octets::of_slice(alloc, value)?;
        self.pairs.push(Field { name, value })?;
        Ok(())
    }

    /// The same pairs; their bytes are shared.
    pub fn copy(&self) -> Result<Metadata, NoMemory>
        ensures { IfOk result (λ m. m ≡ self.now) }
    {
        let mut pairs = Vec::with_capacity(*self.pairs.allocator(), self.pairs.len())?;
        for pair in &self.pairs {
            pairs.push(pair.share()?)?;
        }
        Ok(Metadata { pairs })
    }

    /// The pairs in their order.
    pub fn as_slice(&self) -> &[Field]
        ensures { result.now ≡ self.now }
    {
        self.pairs.as_slice()
    }

    /// How many pairs there are.
    pub fn len(&self) -> usize
        ensures { result ≡ length self.now }
    {
        self.pairs.len()
    }

    /// Whether there are none.
    pub fn is_empty(&self) -> bool
        ensures { IsTrue result ↔ (self.now ≡ []) }
    {
        self.pairs.is_empty()
    }
}
