// The table of Windows' unwind data on ARM64: the rows of .pdata and their relocations, the records of .xdata and where each stands, and the export.
// Ported from rucc-asm/src/xdata.rs (table) of tamnd/rucc, changed: see NOTICE.
#![tactic(auto)]

ghost use Rattle.std.specs.Prelude.{◌≡◌, ◌++◌, ◌+◌, ◌*◌, ◌^◌, ◌≤◌, ◌<◌, length};
ghost use Rattle.format.specs.Put.{put};
ghost use Rattle.format.specs.Leb.{little};
ghost use Rattle.format.specs.Lists.{numbers_of, most_functions};
ghost use Rattle.format.specs.Questions.{accepted, unless, fitting, per_function, room_in};
ghost use Rattle.format.specs.Answers.{Writes};
ghost use Rattle.format.specs.Coded.{numbered_at};
ghost use Rattle.format.proofs.Asked.{question_of};
ghost use Rattle.lists.specs.Lent.{room_of, WritesTo};
ghost use Rattle.format.proofs.Wrote.{Wrote};
ghost use Rattle.unwind.specs.Entries.{Exports};
ghost use Rattle.arm64.specs.Writer.{function_asks, markers_from, rows_of, relocs_from, infos_of, arm64, arm64_answer};
ghost use Rattle.arm64_table.specs.Tables.{row_size, relocation_stride, relocs_by, reloc_count, mark_by, AllListed, AllFineIn};

use arm64::fields;
use arm64_function::{function_asks, info_size, packed_word, put_info};
use arm64_lists::Lists;
use format::{Counts, Question, Refusal};
use lists::output::Output;
use relocs::{RELOCATION_STRIDE, number, relocation};
use unwind::Written;

// ---- one function

// The bytes of a row of .pdata.
const ROW: usize = 8;

// Where the word stands in it.
const WORD: u64 = 4;

// Kept: the list and the place stand side by side in `put_row` and `put_row_relocs`: a struct of the two would make their contracts, and those of leb's `le`
// and relocs' `relocation` below, say beside the numbers that the same list is lent still (its ghost_name), where `Wrote` of a slice says all.
// A row's bytes: the blank of the function's start, and its word.
fn put_row(out: &mut [u8], at: usize, word: u64) -> usize
    requires { at + row_size ≤ length out.old }
    ensures { Wrote out.old out.new at result (little 4 0 ++ little 4 word) }
{
    let a = leb::le(out, at, 4, 0);
    leb::le(out, a, 4, word)
}

// The relocations of the row at `place`.
fn put_row_relocs(out: &mut [u64], at: usize, place: u64, symbol: u64, word: Option<u64>) -> usize
    requires { (at + relocation_stride * length (relocs_by place symbol word) ≤ length out.old) × (place < 2 ^ 32) × (symbol < 2 ^ 32) }
    ensures { Wrote out.old out.new at result (numbers_of (relocs_by place symbol word)) }
{
    let a = relocation(out, at, place, symbol, relocs::IMAGE, 4, 0);
    if word.is_some() {
        return a;
    }
    relocation(
        out,
        a,
        place + WORD,
        relocs::MARKER + symbol,
        relocs::IMAGE,
        4,
        0,
    )
}

// How many relocations a row has whose function's record has `size` bytes.
fn row_relocs(size: usize) -> usize
    ensures { (result ≡ reloc_count size) × (result ≤ 2) }
{
    if size == 0 {
        return 1;
    }
    2
}

// The marker of a packed function.
// Kept: a number, and no Option: C reads the markers.
const NO_RECORD: u64 = 18446744073709551615;

// The marker of a function whose record stands from `at` to `past`.
fn mark(at: usize, past: usize) -> u64
    ensures { result ≡ mark_by at past }
{
    if past == at {
        return NO_RECORD;
    }
    at as u64
}

// ---- all functions

// How many bytes the records have, and how many relocations the rows.
#[derive(Clone, Copy)]
struct Needed {
    info: usize,
    relocations: usize,
}

// The functions of the lists, each of which can be read.
#[derive(Clone, Copy)]
struct Functions<'a> {
    lists: Lists<'a>,
    count: usize,
    ghost listed: { AllListed lists.functions.now lists.epilogues.now lists.codes.now count },
}

impl Functions<'_> {
    ghost use Rattle.arm64_table.specs.Functions.{functions_of};

    // 81 to 83 of each function: the position is 0.
    fn first_no(&self) -> Result<(), Refusal>
        ensures { numbered_at result ≡ question_of (per_function function_asks 0 (functions_of self.now)) }
    {
        for k in 0..self.count {
            function_asks(&self.lists, k)?;
        }
        Ok(())
    }

    // The questions of the functions, and the results.
    fn answer(&self, to: &mut Output) -> Result<Option<Counts>, Refusal>
        ensures { WritesTo (unless (per_function function_asks 0 (functions_of self.now)) (fitting (room_of to.old) (arm64 (functions_of self.now)))) (numbered_at result) to.old to.new }
    {
        self.first_no()?;
        let all = Checked { functions: *self };
        all.write(to)
    }
}

// ---- the results

// The functions of the lists, every question of which is answered by yes.
#[derive(Clone, Copy)]
struct Checked<'a> {
    functions: Functions<'a>,
    ghost fine: { AllFineIn functions.lists functions.count },
}

impl Checked<'_> {
    ghost use Rattle.arm64_table.specs.Functions.{functions_of};

    fn sizes(&self) -> Needed
        ensures { (result.info ≡ length (infos_of (functions_of self.now.functions))) × (result.relocations ≡ length (relocs_from 0 (functions_of self.now.functions))) × (result.relocations ≤ 2 * most_functions) }
    {
        let mut info = 0;
        let mut relocations = 0;
        for k in 0..self.functions.count {
            let size = info_size(&self.functions.lists, k);
            info += size;
            relocations += row_relocs(size);
        }
        Needed { info, relocations }
    }

    // The rows of the functions, and their relocations.
    fn put_rows(&self, bytes: &mut [u8], relocations: &mut [u64]) -> usize
        requires { (row_size * self.now.functions.count ≤ length bytes.old) × (relocation_stride * length (relocs_from 0 (functions_of self.now.functions)) ≤ length relocations.old) }
        ensures { (bytes.new ≡ put bytes.old 0 (rows_of (functions_of self.now.functions))) × (relocations.new ≡ put relocations.old 0 (numbers_of (relocs_from 0 (functions_of self.now.functions)))) }
    {
        let mut to = 0;
        for k in 0..self.functions.count {
            let word = packed_word(&self.functions.lists, k);
            put_row(bytes, ROW * k, word.unwrap_or(0));
            to = put_row_relocs(
                relocations,
                to,
                (ROW * k) as u64,
                self.functions.lists.functions[fields::FUNCTION_STRIDE * k],
                word,
            );
        }
        to
    }

    // The records of the functions, and where each stands.
    fn put_infos(&self, markers: &mut [u64], info: &mut [u8]) -> usize
        requires { (self.now.functions.count ≤ length markers.old) × (length (infos_of (functions_of self.now.functions)) ≤ length info.old) }
        ensures { (markers.new ≡ put markers.old 0 (markers_from 0 (functions_of self.now.functions))) × (info.new ≡ put info.old 0 (infos_of (functions_of self.now.functions))) }
    {
        let mut at = 0;
        for k in 0..self.functions.count {
            let past = put_info(info, at, &self.functions.lists, k);
            number(markers, k, mark(at, past));
            at = past;
        }
        at
    }

    // All results, where they have room.
    fn put_all(&self, needed: Needed, to: &mut Output) -> Result<Option<Counts>, Refusal>
        requires { (needed.info ≡ length (infos_of (functions_of self.now.functions))) × (needed.relocations ≡ length (relocs_from 0 (functions_of self.now.functions))) × (self.now.functions.count ≤ length to.old.places.now) × (row_size * self.now.functions.count ≤ length to.old.bytes.now) × (relocation_stride * needed.relocations ≤ length to.old.relocations.now) × (needed.info ≤ length to.old.sites.now) }
        ensures { WritesTo (accepted (arm64 (functions_of self.now.functions))) (numbered_at result) to.old to.new }
    {
        self.put_rows(to.bytes, to.relocations);
        self.put_infos(to.places, to.sites);
        Ok(Some(Counts {
            places: self.functions.count as u64,
            bytes: (ROW * self.functions.count) as u64,
            relocations: needed.relocations as u64,
            sites: needed.info as u64,
        }))
    }

    // The results, where they have room.
    fn write(&self, to: &mut Output) -> Result<Option<Counts>, Refusal>
        ensures { WritesTo (fitting (room_of to.old) (arm64 (functions_of self.now.functions))) (numbered_at result) to.old to.new }
    {
        let needed = self.sizes();
        let counts = Counts {
            places: self.functions.count as u64,
            bytes: (ROW * self.functions.count) as u64,
            relocations: (RELOCATION_STRIDE * needed.relocations) as u64,
            sites: needed.info as u64,
        };
        lists::room(counts, to.lent())?;
        self.put_all(needed, to)
    }
}

// Kept: here and in the export the lists stand one by one, as C lends them.
// The table of the functions in three lists: functions of 6 numbers (symbol, length, prologue_at, prologue, epilogues_at, epilogues), epilogues of 3
// (start, codes_at, codes) and codes of 3 (kind, register, offset). At the fronts of the lent lists stand a marker for each function, the place of its
// record or 2^64 - 1 where it is packed; the rows of .pdata; their relocations; and the records. It refuses by 13, 81 to 83 and 51 to 54, and then the
// lists are unchanged, as they are for an empty list of functions.
pub fn table(
    functions: &[u64],
    epilogues: &[u64],
    codes: &[u64],
    markers: &mut [u64],
    bytes: &mut [u8],
    relocations: &mut [u64],
    info: &mut [u8],
) -> Result<Option<Counts>, Refusal>
    ensures { Writes (arm64_answer functions.now epilogues.now codes.now (room_in markers.old bytes.old relocations.old info.old)) (numbered_at result) markers.old markers.new bytes.old bytes.new relocations.old relocations.new info.old info.new }
{
    let n = functions.len() / fields::FUNCTION_STRIDE;
    if n == 0 {
        return Ok(None);
    }
    let lists = Lists {
        functions,
        epilogues,
        codes,
    };
    if !lists.ok() {
        return Err(Question::Lists.into());
    }
    let mut to = Output {
        places: markers,
        bytes,
        relocations,
        sites: info,
    };
    Functions { lists, count: n }.answer(&mut to)
}

// ---- the C interface

#[unsafe(no_mangle)]
pub extern "C" fn unwind_arm64(
    functions: &[u64],
    epilogues: &[u64],
    codes: &[u64],
    markers: &mut [u64],
    bytes: &mut [u8],
    relocations: &mut [u64],
    info: &mut [u8],
) -> Written
    ensures { Exports (arm64_answer functions.now epilogues.now codes.now (room_in markers.old bytes.old relocations.old info.old)) result markers.old markers.new bytes.old bytes.new relocations.old relocations.new info.old info.new }
{
    Written::from(table(
        functions,
        epilogues,
        codes,
        markers,
        bytes,
        relocations,
        info,
    ))
}
