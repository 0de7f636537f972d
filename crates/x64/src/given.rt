// What x64 unwind data is written from.
ghost use Rattle.std.specs.Prelude.{◌≤◌};
ghost use Rattle.format.specs.Lists.{most_records};
ghost use Rattle.prologue.specs.Readable.{Short};
ghost use Rattle.x64.specs.Listed.{Listed, Listed-prop, records_in};

use prologue::given::{Shape, X64Machine};

// Direct codes, or the rows of functions for a machine.
#[derive(Clone, Copy)]
pub enum Source<'m> {
    Direct,
    Rows(X64Machine<'m>),
}

// Kept: the count beside the list. 13 lines of clauses in lib.rt name it, and by a method each would name a division by the source's stride.
// The functions, `count` of them, and the list of their codes or rows. Questions 11 to 13 were answered by yes.
#[derive(Clone, Copy)]
pub struct Input<'m, 'f, 'l> {
    pub source: Source<'m>,
    pub functions: &'f [u64],
    pub list: &'l [u64],
    pub count: usize,
    pub ghost listed: { Listed source functions.now list.now count } by { Listed-prop source functions.now list.now count },
}

// The records that say a function's codes: the codes, or the rows of its prologue for a machine.
#[derive(Clone, Copy)]
pub enum Records<'m, 'l> {
    Codes(&'l [u64]),
    ByRows(X64Machine<'m>, Shape<'l>),
}

// A function: its symbol and its length, where its prologue ends, and its codes.
#[derive(Clone, Copy)]
pub struct Span<'m, 'l> {
    pub symbol: u64,
    pub length: u64,
    pub end: u64,
    pub records: Records<'m, 'l>,
    pub ghost few: { records_in records ≤ most_records },
}

// A function's codes from its record `next` on, and the distance in front of it.
#[derive(Drop)]
pub struct UnwindCodes<'m, 'l> {
    pub records: Records<'m, 'l>,
    pub next: usize,
    pub sofar: i64,
    pub ghost high: { next ≤ records_in records },
    pub ghost short: { Short sofar },
}
