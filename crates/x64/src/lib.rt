// Windows x64 unwind data, from direct codes and from rows. Ported from rucc-asm/src/unwind.rs (windows, seh, describe) of tamnd/rucc, changed: see NOTICE.
#![tactic(auto)]

ghost use Rattle.std.specs.Prelude.{◌≡◌, ◌+◌, ◌*◌, ◌^◌, ◌≤◌, ◌<◌, pos, length};
ghost use Rattle.std.proofs.Math.Option.{none};
ghost use Rattle.format.specs.Prelude.{each};
ghost use Rattle.format.specs.Put.{put};
ghost use Rattle.format.proofs.Wrote.{Wrote};
ghost use Rattle.format.specs.Lists.{field, numbers_of};
ghost use Rattle.format.specs.Answers.{Writes};
ghost use Rattle.format.specs.Coded.{numbered, numbered_at};
ghost use Rattle.format.proofs.Asked.{question_of};
ghost use Rattle.lists.specs.Lent.{room_of, WritesTo};
ghost use Rattle.format.specs.X64.{runtime_relocs, runtime_from, markers_from, slots, prologue_no, frame_byte, reversed};
ghost use Rattle.format.specs.Questions.{accepted, unless, fitting, given_functions, windows_asks, windows_answer, seh, given_of, room_in};
ghost use Rattle.format.specs.Machine.{machine_of};
ghost use Rattle.codes.specs.Codes.{yes_or_no};
ghost use Rattle.prologue.specs.Pieces.{piece_of};
ghost use Rattle.prologue.specs.Readable.{Short};
ghost use Rattle.x64.specs.declared.given.Source.TheVariants.{Direct, Rows};
ghost use Rattle.x64.specs.Listed.{stride_of, records_in};
ghost use Rattle.x64.specs.Sources.{pushed_by, FoundAt, Found, long_no, rows_no, codes_no};
ghost use Rattle.x64.specs.Given.{next_piece, next_moved, codes_left, codes_by, info_by, info_in, result_of, FoundIn, named_in, functions_of, infos_in, asks_in, table_in};
ghost use Rattle.x64.specs.Answers.{runtime_bytes, runtime_numbers, pair_of, Summed, SummaryOf, refused_at};

use codes::{UnwindCode, frame_no, frame_or, head, put_nodes};
use format::{Counts, Question, Refusal};
use given::{Input, Records, Source, Span, UnwindCodes};
use leb::fill;
use lists::output::Output;
use lists::{
    Lists, code_at, code_offset_at, codes_ok, extent_at, prologue_at, read_machine, room, word_ok,
};
use passed::{Cleared, Passed};
use prologue::given::{FunctionRows, X64Machine};
use prologue::{moved, prologue_end};
use relocs::relocation;

mod given;
mod passed;

impl Source<'_> {
    // How many numbers the record of a function has.
    fn stride(&self) -> usize
        ensures { result ≡ stride_of self.now }
    {
        match self {
            Source::Direct => lists::PROLOGUE_STRIDE,
            Source::Rows(_) => lists::FUNCTION_STRIDE,
        }
    }
}

impl Input<'_, '_, '_> {
    // The symbol and the length of function k, which both kinds of record begin with.
    fn named(&self, k: usize) -> (u64, u64)
        requires { k < self.now.count }
        ensures { result ≡ (field (stride_of self.now.source) self.now.functions.now k 0, field (stride_of self.now.source) self.now.functions.now k 1) }
    {
        let at = self.source.stride() * k;
        (self.functions[at], self.functions[at + 1])
    }
}

// ---- RUNTIME_FUNCTION

// Its bytes, its relocations and their numbers.
const RUNTIME_BYTES: usize = 12;

const RUNTIME_RELOCATIONS: usize = 3;

const RUNTIME_NUMBERS: usize = RUNTIME_RELOCATIONS * relocs::RELOCATION_STRIDE;

impl Input<'_, '_, '_> {
    // The relocations of function k's row: its start, its end and its record.
    fn runtime(&self, k: usize, out: &mut [u64], at: usize) -> usize
        requires { (k < self.now.count) × (at + runtime_numbers ≤ length out.old) }
        ensures { Wrote out.old out.new at result (numbers_of (runtime_relocs (runtime_bytes * k) (named_in self.now k))) }
    {
        let place = (RUNTIME_BYTES * k) as u64;
        let (symbol, size) = self.named(k);
        let a = relocation(out, at, place, symbol, relocs::IMAGE, 4, 0);
        let b = relocation(out, a, place + 4, symbol, relocs::IMAGE, 4, size);
        relocation(
            out,
            b,
            place + 8,
            relocs::MARKER + symbol,
            relocs::IMAGE,
            4,
            0,
        )
    }

    // The relocations of all functions.
    fn put_runtime(&self, out: &mut [u64]) -> usize
        requires { runtime_numbers * self.now.count ≤ length out.old }
        ensures { Wrote out.old out.new 0 result (numbers_of (runtime_from 0 (each (named_in self.now) 0 self.now.count))) }
    {
        let mut to = 0;
        for k in 0..self.count {
            to = self.runtime(k, out, to);
        }
        to
    }
}

// ---- codes

impl Records<'_, '_> {
    // How many there are.
    fn len(&self) -> usize
        ensures { result ≡ records_in self.now }
    {
        match self {
            Records::Codes(list) => list.len() / lists::CODE_STRIDE,
            Records::ByRows(_, p) => p.rows.len(),
        }
    }

    // The distance in front of the first.
    fn start(&self) -> i64
        ensures { result ≡ pos (pushed_by self.now) }
    {
        match self {
            Records::Codes(_) => 0,
            Records::ByRows(m, _) => m.machine.pushed as i64,
        }
    }
}

impl<'m, 'l> Span<'m, 'l> {
    // Its codes.
    fn codes(&self) -> UnwindCodes<'m, 'l>
        ensures { codes_left result ≡ codes_by self.now }
    {
        UnwindCodes {
            records: self.records,
            next: 0,
            sofar: self.records.start(),
        }
    }
}

impl UnwindCodes<'_, '_> {
    // What the next record yields: a code, or none.
    fn piece(&self) -> Option<UnwindCode>
        requires { self.now.next < records_in self.now.records }
        ensures { piece_of result ≡ next_piece self.now }
    {
        match self.records {
            Records::Codes(list) => Some(UnwindCode {
                offset: code_offset_at(list, self.next),
                code: code_at(list, self.next),
            }),
            Records::ByRows(m, p) => p.piece_at(&m.registers(), self.next, self.sofar),
        }
    }

    // The distance behind it.
    fn moved(&self) -> i64
        requires { self.now.next < records_in self.now.records }
        ensures { (result ≡ next_moved self.now) × Short result }
    {
        match self.records {
            Records::Codes(_) => self.sofar,
            Records::ByRows(_, p) => moved(self.sofar, p.rows.rows, self.next),
        }
    }
}

impl Iterator for UnwindCodes<'_, '_> {
    ghost use Rattle.std.specs.Iterator.{YieldsFirstBy, item_count};
    ghost use Rattle.x64.specs.Answers.{pair_of};
    ghost use Rattle.x64.specs.Given.{codes_left};

    type Item = UnwindCode;

    ghost next_gives = { YieldsFirstBy pair_of codes_left };

    ghost remaining = { item_count codes_left };

    // A row that ends no instruction yields no code: the iterator goes on to the next.
    // Kept: a while. It is the next of an iterator, whose place among the records is its state; a range there in place of the number gives the same
    // loop by while let, and the ghost field would speak of the range's two ends.
    // Always inlined: as a call it stores its place and the code that it yields, and divides for `len`,
    // at each code of each walk.
    #[inline(always)]
    fn next(&mut self) -> Option<UnwindCode> {
        while self.next < self.records.len() {
            let piece = self.piece();
            self.sofar = self.moved();
            self.next += 1;
            if let Some(code) = piece {
                return Some(code);
            }
        }
        None
    }
}

// What some codes say: 34 to 39, how many slots of two bytes they have, and 41.
#[derive(Clone, Copy)]
struct Summary {
    codes: Result<(), Question>,
    slots: usize,
    frames: Result<(), Question>,
}

impl Summary {
    // With a code behind them.
    fn with(self, c: UnwindCode) -> Summary
        requires { self.slots < 2 ^ 32 }
        ensures { Summed self (pair_of c) result }
    {
        Summary {
            codes: self.codes.and(c.code_no()),
            slots: self.slots + c.nodes_size() / 2,
            frames: self.frames.and(frame_no(c.code)),
        }
    }
}

// ---- the codes of a function

impl Span<'_, '_> {
    // What they say.
    fn codes_summary(&self) -> Summary
        ensures { SummaryOf (codes_by self.now) result }
    {
        let mut t = Summary {
            codes: Ok(()),
            slots: 0,
            frames: Ok(()),
        };
        for c in self.codes() {
            t = t.with(c);
        }
        t
    }

    // How many slots of two bytes they have, without their questions.
    fn slots(&self) -> usize
        ensures { result ≡ slots (codes_by self.now) }
    {
        let mut held = 0;
        for c in self.codes() {
            held += c.nodes_size() / 2;
        }
        held
    }

    // The questions of its codes: 34 to 39 of each, 35 of the prologue's end, 40, and 41 of each.
    fn prologue_no(&self) -> Result<(), Question>
        ensures { numbered result ≡ yes_or_no (prologue_no self.now.end (codes_by self.now)) }
    {
        let t = self.codes_summary();
        t.codes?;
        if 255 < self.end {
            return Err(Question::CodeOffset);
        }
        if 255 < t.slots {
            return Err(Question::Slots);
        }
        t.frames
    }
}

// ---- UNWIND_INFO

impl Passed<'_, '_> {
    // The header's byte of the frame register.
    fn frame_byte(&self) -> u8
        ensures { result ≡ frame_byte 0 (codes_by self.now.span) }
    {
        let mut b = 0;
        for c in self.span.codes() {
            b = frame_or(b, c.code);
        }
        b
    }

    // Kept: the list and the place stand apart here and in `describe`, as in leb.
    // The codes in reverse: the first stands last, `held` slots up from `at`, and each other one before it.
    fn put_codes(&self, out: &mut [u8], at: usize, held: usize) -> usize
        requires { (held ≡ slots (codes_by self.now.span)) × (at + 2 * held ≤ length out.old) }
        ensures { Wrote out.old out.new at result (reversed (codes_by self.now.span)) }
    {
        let mut to = at + 2 * held;
        for c in self.span.codes() {
            let n = c.nodes();
            to -= n.count;
            put_nodes(out, to, n);
        }
        at + 2 * held
    }

    // How many bytes the record of its codes has.
    fn info_size(&self) -> usize
        ensures { result ≡ length (info_by self.now.span) }
    {
        let held = self.span.slots();
        4 + 2 * held + 2 * (held % 2)
    }

    // The record of its codes.
    fn describe(&self, out: &mut [u8], at: usize) -> usize
        requires { at + length (info_by self.now.span) ≤ length out.old }
        ensures { Wrote out.old out.new at result (info_by self.now.span) }
    {
        let held = self.span.slots();
        let frame = self.frame_byte();
        let a = head(out, at, self.span.end as u8, held as u8, frame);
        let b = self.put_codes(out, a, held);
        fill(out, b, 2 * (held % 2))
    }
}

// ---- functions

impl<'m, 'l> Input<'m, '_, 'l> {
    // Function k of direct codes.
    fn direct_span(&self, k: usize) -> Span<'m, 'l>
        requires { (k < self.now.count) × (self.now.source ≡ Direct) }
        ensures { FoundAt Direct self.now.functions.now self.now.list.now k result }
    {
        let p = prologue_at(self.functions, k);
        let from = lists::CODE_STRIDE * p.codes_at;
        Span {
            symbol: p.symbol,
            length: p.length,
            end: p.end,
            records: Records::Codes(&self.list[from..from + lists::CODE_STRIDE * p.codes]),
        }
    }

    // Function k by its rows, for that machine.
    fn rows_span(&self, machine: X64Machine<'m>, k: usize) -> Result<Span<'m, 'l>, Question>
        requires { (k < self.now.count) × (self.now.source ≡ Rows machine) }
        ensures { Found (Rows machine.entry) self.now.functions.now self.now.list.now k result }
    {
        let e = extent_at(self.functions, k);
        let from = rows::ROW_STRIDE * e.rows_at;
        let all = FunctionRows {
            rows: &self.list[from..from + rows::ROW_STRIDE * e.rows],
        };
        let shape = all.prologue(&machine)?;
        Ok(Span {
            symbol: e.symbol,
            length: e.length,
            end: prologue_end(shape.rows.rows),
            records: Records::ByRows(machine, shape),
        })
    }

    // Function k, or the question that its rows do not answer by yes.
    fn span_at(&self, k: usize) -> Result<Span<'m, 'l>, Question>
        requires { k < self.now.count }
        ensures { FoundIn self.now k result }
    {
        match self.source {
            Source::Direct => Ok(self.direct_span(k)),
            Source::Rows(machine) => self.rows_span(machine, k),
        }
    }
}

// ---- the questions of all functions

// 21.
fn long_no(size: u64) -> Result<(), Question>
    ensures { numbered result ≡ yes_or_no (long_no size) }
{
    if size < 4294967296 {
        return Ok(());
    }
    Err(Question::Length)
}

// A no with the function's position.
fn refused_at(k: usize, asked: Result<(), Question>) -> Result<(), Refusal>
    ensures { numbered_at result ≡ refused_at k (numbered asked) }
{
    asked.map_err(|question| Refusal {
        question,
        position: k as u64,
    })
}

impl Input<'_, '_, '_> {
    // The questions of function k in the three passes: of its length, of its rows, and of its codes.
    fn length_asked(&self, k: usize) -> Result<(), Question>
        requires { k < self.now.count }
        ensures { numbered result ≡ yes_or_no (long_no (field (stride_of self.now.source) self.now.functions.now k 1)) }
    {
        let (_, size) = self.named(k);
        long_no(size)
    }

    fn rows_asked(&self, k: usize) -> Result<(), Question>
        requires { k < self.now.count }
        ensures { numbered result ≡ yes_or_no (rows_no (result_of self.now k)) }
    {
        self.span_at(k)?;
        Ok(())
    }

    fn codes_asked(&self, k: usize) -> Result<(), Question>
        requires { k < self.now.count }
        ensures { numbered result ≡ yes_or_no (codes_no (result_of self.now k)) }
    {
        let p = self.span_at(k)?;
        p.prologue_no()
    }

    // The passes over the functions.
    // Kept: three loops. One over a closure says in its contract what each call asks (k below the count) and what its answers are, by a definition of
    // the pass; each loop here is three lines.
    fn asks(&self) -> Result<(), Refusal>
        ensures { numbered_at result ≡ question_of (asks_in self.now) }
    {
        for k in 0..self.count {
            refused_at(k, self.length_asked(k))?;
        }
        for k in 0..self.count {
            refused_at(k, self.rows_asked(k))?;
        }
        for k in 0..self.count {
            refused_at(k, self.codes_asked(k))?;
        }
        Ok(())
    }
}

// ---- the results

impl<'m, 'l> Cleared<'m, '_, 'l> {
    // Function k.
    fn passed(&self, k: usize) -> Passed<'m, 'l>
        requires { k < self.now.input.count }
        ensures { info_by result.span ≡ info_in self.now.input k }
    {
        Passed {
            span: self.input.span_at(k).unwrap(),
        }
    }
}

impl Cleared<'_, '_, '_> {
    // How many bytes the records of the functions have.
    fn total(&self) -> usize
        ensures { result ≡ length (infos_in self.now.input) }
    {
        let mut sum = 0;
        for k in 0..self.input.count {
            sum += self.passed(k).info_size();
        }
        sum
    }

    // The records of the functions, and where each stands.
    fn put_infos(&self, markers: &mut [u64], info: &mut [u8]) -> usize
        requires { (self.now.input.count ≤ length markers.old) × (length (infos_in self.now.input) ≤ length info.old) }
        ensures { (markers.new ≡ put markers.old 0 (markers_from 0 (functions_of self.now.input))) × (info.new ≡ put info.old 0 (infos_in self.now.input)) }
    {
        let mut at = 0;
        for k in 0..self.input.count {
            markers[k] = at as u64;
            at = self.passed(k).describe(info, at);
        }
        at
    }

    // All results, where they have room.
    fn put_all(&self, sites: usize, to: &mut Output) -> Result<Option<Counts>, Refusal>
        requires { (sites ≡ length (infos_in self.now.input)) × (self.now.input.count ≤ length to.old.places.now) × (runtime_bytes * self.now.input.count ≤ length to.old.bytes.now) × (runtime_numbers * self.now.input.count ≤ length to.old.relocations.now) × (sites ≤ length to.old.sites.now) }
        ensures { WritesTo (accepted (table_in self.now.input)) (numbered_at result) to.old to.new }
    {
        let n = self.input.count;
        fill(to.bytes, 0, RUNTIME_BYTES * n);
        self.input.put_runtime(to.relocations);
        self.put_infos(to.places, to.sites);
        Ok(Some(Counts {
            places: n as u64,
            bytes: (RUNTIME_BYTES * n) as u64,
            relocations: (RUNTIME_RELOCATIONS * n) as u64,
            sites: sites as u64,
        }))
    }

    // The results, where they have room.
    fn write(&self, to: &mut Output) -> Result<Option<Counts>, Refusal>
        ensures { WritesTo (fitting (room_of to.old) (table_in self.now.input)) (numbered_at result) to.old to.new }
    {
        let n = self.input.count;
        let sites = self.total();
        let needed = Counts {
            places: n as u64,
            bytes: (RUNTIME_BYTES * n) as u64,
            relocations: (RUNTIME_NUMBERS * n) as u64,
            sites: sites as u64,
        };
        room(needed, to.lent())?;
        self.put_all(sites, to)
    }
}

impl Input<'_, '_, '_> {
    // The questions of the functions, and the results.
    fn answer(&self, to: &mut Output) -> Result<Option<Counts>, Refusal>
        ensures { WritesTo (unless (asks_in self.now) (fitting (room_of to.old) (table_in self.now))) (numbered_at result) to.old to.new }
    {
        self.asks()?;
        let cleared = Cleared { input: *self };
        cleared.write(to)
    }
}

// ---- the entries

// x64 unwind data from direct codes.
// Kept: the lists one by one. `Writes` names each list before and after; `lists::Lists` has no codes, and in `lists::output::Output` each clause would name a
// field of another value, and one more would say that the caller's own lists are lent in it still (D122).
pub fn seh(
    functions: &[u64],
    codes: &[u64],
    markers: &mut [u64],
    bytes: &mut [u8],
    relocations: &mut [u64],
    info: &mut [u8],
) -> Result<Option<Counts>, Refusal>
    ensures { Writes (seh functions.now codes.now (room_in markers.old bytes.old relocations.old info.old)) (numbered_at result) markers.old markers.new bytes.old bytes.new relocations.old relocations.new info.old info.new }
{
    let n = functions.len() / lists::PROLOGUE_STRIDE;
    if n == 0 {
        return Ok(None);
    }
    if !codes_ok(functions, codes) {
        return Err(Question::Lists.into());
    }
    let x = Input {
        source: Source::Direct,
        functions,
        list: codes,
        count: n,
    };
    let mut to = Output {
        places: markers,
        bytes,
        relocations,
        sites: info,
    };
    x.answer(&mut to)
}

// x64 unwind data from rows.
// Kept: the lists one by one. `Writes` names each list before and after; in `Lists` and `Output` each clause would name a field of another value, and
// one more would say that the caller's own lists are lent in it still (D122).
pub fn windows(
    machine: &[u64],
    functions: &[u64],
    rows: &[u64],
    landings: &[u64],
    pairs: &[u64],
    markers: &mut [u64],
    bytes: &mut [u8],
    relocations: &mut [u64],
    info: &mut [u8],
) -> Result<Option<Counts>, Refusal>
    ensures { Writes (unless (windows_asks (given_of machine.now functions.now rows.now landings.now pairs.now)) (windows_answer (machine_of machine.now) (given_functions (given_of machine.now functions.now rows.now landings.now pairs.now)) (room_in markers.old bytes.old relocations.old info.old))) (numbered_at result) markers.old markers.new bytes.old bytes.new relocations.old relocations.new info.old info.new }
{
    let m = read_machine(machine)?;
    if !word_ok(m) {
        return Err(Question::X64Word.into());
    }
    let given = Lists {
        functions,
        rows,
        landings,
        pairs,
    };
    if !given.ok() {
        return Err(Question::Lists.into());
    }
    let known = X64Machine { machine: &m };
    let x = Input {
        source: Source::Rows(known),
        functions,
        list: rows,
        count: functions.len() / lists::FUNCTION_STRIDE,
    };
    let mut to = Output {
        places: markers,
        bytes,
        relocations,
        sites: info,
    };
    x.answer(&mut to)
}
