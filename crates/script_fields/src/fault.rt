// Why a field is not read.
use grpc_base::NoMemory;

/// Why a field is not read.
#[derive(Clone, Copy, Debug, PartialEq, Eq)]
pub enum FieldFault {
    /// It has not the field's form.
    Form,
    /// It has the form, and its value goes beyond the field's limit.
    Limit,
    /// Out of memory.
    NoMemory,
}

impl From<NoMemory> for FieldFault {
    ghost use Rattle.std.specs.Prelude.{◌≡◌};
    ghost use Rattle.script_fields.specs.declared.fault.FieldFault.TheVariants as faults;

    ghost from_gives = { λ _ e. e ≡ faults.NoMemory };

    fn from(_e: NoMemory) -> FieldFault {
        FieldFault::NoMemory
    }
}
