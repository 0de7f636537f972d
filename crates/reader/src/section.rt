// What is read: a section and how its fields are laid out, and of an entry where it stands and its bytes.
ghost use Rattle.std.specs.Prelude.{T};
ghost use Rattle.format.specs.Machine.{is_word_size};

// How fields are laid out: those of debug_frame or of eh_frame, and how many bytes a word has.
// Kept: a bool, and not `format::Section`, here and in what takes it: the definitions (header_id, is_header, records, parse_header) take a Bool, and each
// clause would name the test of the enum for it.
#[derive(Clone, Copy)]
pub struct Layout {
    pub debug: bool,
    pub word: u64,
    pub ghost is_word: { T (is_word_size word) },
}

// A section, and its relocations, which only a debug_frame asks.
#[derive(Clone, Copy)]
pub struct Section<'a> {
    pub bytes: &'a [u8],
    pub relocations: &'a [u64],
    pub layout: Layout,
}

// A section as its records find their headers: its bytes, and the relocations, which only a debug_frame asks.
// None of this depends on the word, so none is asked for.
#[derive(Clone, Copy)]
pub struct Links<'a> {
    pub bytes: &'a [u8],
    pub relocations: &'a [u64],
    pub debug: bool,
}

// Where an entry of a section starts and ends, or an entry's operations.
// Kept: that a section holds the entry is a clause (`Holds`) of 17 functions, in entries and location, in section_check and in reads, and no field. In a struct of an entry,
// its section and that fact, six of them (`parse`, reads' `locate_entries` and `header_start`, section_check's `header_of`, `answers_at` and `passes`)
// have in its place the clause that two sections are one, and what `Entries` and `Records` give is four words in place of two.
#[derive(Clone, Copy)]
pub struct Span {
    pub at: usize,
    pub end: usize,
}

// The bytes behind an entry's length.
#[derive(Clone, Copy)]
pub struct Body<'a> {
    pub bytes: &'a [u8],
    pub layout: Layout,
}
