//! Why call frame information is not read: a question that is answered by no, and the place in the section.

ghost use Rattle.std.specs.Prelude.{◌≡◌};
ghost use Rattle.cfi_entries.specs.Refusals.{number_of, refused};

/// The questions by name, with the numbers of docs/SPECIFICATION.md.
#[derive(Clone, Copy, PartialEq, Eq, Debug)]
pub enum Question {
    /// An entry fits the section.
    Tiling = 61,
    /// An entry starts there.
    Record = 62,
    /// The FDE's CIE.
    Header = 63,
    /// The fields of both.
    Fields = 64,
    /// The address is the function's.
    Offset = 65,
    /// Operations.
    Operations = 66,
    /// A state to restore, no restore in a CIE.
    States = 67,
    /// Room for states.
    StatesRoom = 68,
    /// A CFA rule of a register to change.
    FrameRule = 69,
    /// The base that a pointer is relative to.
    Base = 94,
}

impl Question {
    /// What C reads.
    pub fn number(self) -> u64
        ensures { result ≡ number_of self }
    {
        self as u64
    }
}

/// A question that is answered by no, and where in the section stands what it asks of.
#[derive(Clone, Copy, PartialEq, Eq, Debug)]
pub struct Refusal {
    pub question: Question,
    pub place: usize,
}

impl Refusal {
    pub fn new(question: Question, place: usize) -> Refusal
        ensures { result ≡ refused question place }
    {
        Refusal { question, place }
    }
}
