// The header list of a block while it is read.
ghost use Rattle.std.specs.Prelude.{◌≡◌, ◌≢◌, [], ◌∷◌, ◌++◌, IsTrue, ◌↔◌, OnOk, IfErr, IfOk, Ok, Err};
ghost use Rattle.h2_hpack.specs.Blocks.{with_field};
ghost use Rattle.h2_hpack.specs.Tables.{Table};

use crate::fault::HpackFault;
use crate::size::room_after;
use grpc_base::{Field, Fields, NoMemory};
use std::alloc::Global;
use std::marker::Model;

/// For so many fields memory is taken at once.
const FIRST_FIELDS: usize = 8;

/// The fields of a block so far, and what is left of the 16,384 that their sizes may come to.
#[derive(Debug, Drop)]
pub(crate) struct HeaderList {
    fields: Fields,
    room: usize,
}

impl Model for HeaderList {
    ghost use Rattle.std.specs.Prelude.{◌≡◌, ◌+◌, List};
    ghost use Rattle.grpc_base.specs.declared.fields.Field.{Field};
    ghost use Rattle.h2_hpack.specs.Tables.{list_size, list_limit};

    ghost Value = { List Field };

    ghost view = { λ l. l.fields };

    ghost invariant = { λ l. list_size l.fields + l.room ≡ list_limit };
}

impl HeaderList {
    /// The empty list, with the memory that most lists find enough.
    pub(crate) fn new(alloc: Global) -> Result<HeaderList, NoMemory>
        ensures { IfOk result (λ l. l ≡ []) }
    {
        let mut fields = Fields::new(alloc);
        fields.reserve(FIRST_FIELDS)?;
        Ok(HeaderList {
            fields,
            room: 16_384,
        })
    }

    /// Appends a field, unless the sizes then come to more than 16,384.
    #[tactic(auto, using(crate::proofs::ListLemmas::fits, crate::proofs::ListLemmas::too_long, crate::proofs::ListLemmas::room_left))]
    pub(crate) fn push(&mut self, field: Field) -> Result<(), HpackFault>
        ensures ok { OnOk result ((t : Table) → with_field self.old field t ≡ Ok (record { fields = self.new; table = t })) }
        ensures fault { IfErr result (λ e. e ≢ HpackFault.NoMemory → (t : Table) → with_field self.old field t ≡ Err e) }
    {
        match room_after(&field, self.room) {
            Some(room) => {
                self.fields.push(field)?;
                self.room = room;
                Ok(())
            }
            None => Err(HpackFault::TooLong),
        }
    }

    /// Whether there is no field yet.
    pub(crate) fn is_empty(&self) -> bool
        ensures { IsTrue result ↔ (self.now ≡ []) }
    {
        self.fields.is_empty()
    }

    /// The header list.
    pub(crate) fn into_fields(self) -> Fields
        ensures { result ≡ self }
    {
        let HeaderList { fields, room: _ } = self;
        fields
    }
}
