// The questions by name. Their numbers are those of document 01 and of include/dekvoz.h.
ghost use Rattle.std.specs.Prelude.{◌≡◌};
ghost use Rattle.format.specs.Numbers.{number_of};

// A question that was answered by no, with its number.
#[derive(Clone, Copy, PartialEq, Eq)]
pub enum Question {
    // the interface: machine, format, kind or word
    Interface = 11,
    // x64, walk: word is 8
    X64Word = 12,
    // counts, ranges, symbols, and numbers that their fields hold
    Lists = 13,
    // a length fits its field
    Length = 21,
    // encodings
    Encodings = 22,
    // no row goes back or steps above 2^32 - 1
    Order = 23,
    // offsets are multiples of the word
    Multiples = 24,
    // a pair's places differ
    Pairs = 25,
    // the frame pointer is set after the frame is taken
    FrameFirst = 31,
    // the frame is not counted from a scratch register
    Scratch = 32,
    // a group can be read
    Group = 33,
    // registers below 16
    Registers = 34,
    // offsets to 255
    CodeOffset = 35,
    // an allocation is positive and a multiple of 8
    Allocation = 36,
    // and below 2^32
    AllocationSize = 37,
    // a save is not below the frame
    SaveBelow = 38,
    // and below 2^32
    SaveSize = 39,
    // slots to 255
    Slots = 40,
    // a frame offset of 0 to 240, a multiple of 16
    FrameOffset = 41,
    // places or markers fit
    PlacesRoom = 51,
    // bytes fit
    BytesRoom = 52,
    // relocations fit
    RelocationsRoom = 53,
    // call sites, Windows info or a lent list fit
    OtherRoom = 54,
    // lengths tile the section
    Tiling = 61,
    // there is a record k
    Record = 62,
    // its header
    Header = 63,
    // the fields of both
    Fields = 64,
    // the offset is below the length
    Offset = 65,
    // operations
    Operations = 66,
    // a state to restore, no Restore in a header
    States = 67,
    // at most 16 states stored
    StatesRoom = 68,
    // a CFA rule to change
    FrameRule = 69,
    // a table of call sites
    CallSiteTable = 71,
    // its entries
    CallSites = 72,
    // a recorded fault
    Recorded = 73,
    // stack words and sums of addresses
    Stack = 74,
    // needed registers, and a CFA rule of each frame
    Reached = 75,
    // a Windows record's header
    X64Header = 76,
    // a Windows record's codes
    X64Codes = 77,
    // eh_frame of a format that is written
    MachO = 78,
    // relocations
    Relocations = 79,
    // the distance of a Set and Sub pair
    Distance = 80,
    // whole instructions
    Arm64Length = 81,
    // where epilogues start
    Arm64Epilogues = 82,
    // what a code can name, and counts
    Arm64Values = 83,
    // the reader answers at every offset
    EveryOffset = 84,
}

impl Question {
    // What C reads.
    pub fn number(self) -> u64
        ensures { result ≡ number_of self }
    {
        self as u64
    }
}

impl From<Question> for u64 {
    ghost from_gives = { λ q n. n ≡ number_of q };

    fn from(question: Question) -> u64 {
        question.number()
    }
}
