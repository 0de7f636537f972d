// A function as a section writes it, and a run of rows.
ghost use Rattle.format.proofs.SectionSize.{Aligned};
ghost use Rattle.header_keys.specs.Functions.{Sound, RowsReady};
ghost use Rattle.header_keys.specs.OneProof.{Sound-prop, RowsReady-prop};

use format::Machine;
use lists::Extent;

// What a function's header and record are written from: whether the section is debug_frame, the machine, what an entry is padded
// to, the function's record as the section takes it, and the list that its rows are in.
// Kept: `debug` is a `bool`. The definitions of an entry's bytes take a Bool, so from a `Section` each clause about bytes would first make it.
#[derive(Drop)]
pub struct Function<'a> {
    pub debug: bool,
    pub machine: &'a Machine,
    pub align: usize,
    pub extent: Extent,
    pub rows: &'a [u64],
    pub ghost sound: { Sound machine.now extent rows.now } by { Sound-prop machine.now extent rows.now },
    pub ghost aligned: { Aligned align },
}

// n rows of a list from `at` on, and the word that they are written for.
// Kept: a place and a count, and no slice of the list. A function's record has its rows by these two, and the questions, the definitions and
// `Function` speak of them so; a slice would be cut, with its bounds tested, in each of the passes over a function's rows.
#[derive(Drop)]
pub struct Run<'a> {
    pub word: u64,
    pub rows: &'a [u64],
    pub at: usize,
    pub n: usize,
    pub ghost ready: { RowsReady rows.now at n } by { RowsReady-prop rows.now at n },
}
