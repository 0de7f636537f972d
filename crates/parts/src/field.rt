// The fields of a header and of a record, one of which is at fault (question 64).
ghost use Rattle.std.specs.Prelude.{◌≡◌};
ghost use Rattle.parts.specs.Faults.{field_number, fault_number};

#[derive(Clone, Copy)]
pub enum Field {
    // of a header
    Version = 1,
    Letters = 2,
    CodeFactor = 3,
    DataFactor = 4,
    Return = 5,
    HeaderData = 6,
    // of a record
    Function = 7,
    Length = 8,
    RecordData = 9,
}

impl Field {
    // What C reads.
    pub fn number(self) -> u64
        ensures { result ≡ field_number self }
    {
        self as u64
    }
}

// The field at fault, and 0 where there is none.
pub fn fault(field: Option<Field>) -> u64
    ensures { result ≡ fault_number field }
{
    field.map_or(0, |field| field.number())
}
