//! Why a file is not read on.

ghost use Rattle.std.specs.Prelude.{◌≡◌};
ghost use Rattle.elf.specs.Refusals.{reason_number};

/// What is wrong with a file. C reads its number.
#[derive(Clone, Copy)]
pub enum Reason {
    /// No ELF file.
    NotElf = 101,
    /// A class, a byte order or a version that is not known.
    Unknown = 102,
    /// The header, a table, a section or a note does not lie in the file.
    Outside = 103,
    /// A name does not lie in its strings.
    Name = 104,
    /// An entry size other than the class's.
    EntrySize = 105,
    /// A table in a section that is compressed.
    Compressed = 106,
    /// There is no such entry, or none of that name.
    NoEntry = 107,
    /// A section of another kind than is asked for.
    Kind = 108,
    /// An alignment of notes that is neither 4 nor 8.
    Alignment = 109,
}

impl Reason {
    pub fn number(self) -> u64
        ensures { result ≡ reason_number self }
    {
        self as u64
    }
}

/// A reason, and the place in the file of what is at fault.
#[derive(Clone, Copy)]
pub struct Refusal {
    pub reason: Reason,
    pub place: u64,
}

impl Refusal {
    pub fn new(reason: Reason, place: u64) -> Refusal
        ensures { result ≡ record { reason = reason; place = place } }
    {
        Refusal { reason, place }
    }
}
