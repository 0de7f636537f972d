// The full record of Windows' unwind data on ARM64: its header in both forms, and its epilogues' codes counted and stored.
#![tactic(auto)]

ghost use Rattle.std.specs.Prelude.{◌≡◌, false, [], ◌∷◌, ◌+◌, ◌*◌, ◌≤◌, ◌<◌, length, Some, IfSome};
ghost use Rattle.std.proofs.Math.Option.{some};
ghost use Rattle.format.proofs.Asked.{option_of};
ghost use Rattle.format.specs.Put.{put};
ghost use Rattle.format.proofs.Wrote.{Wrote};
ghost use Rattle.arm64.specs.Lists.{epilogue_stride, code_stride, code_numbers, epilogue_numbers};
ghost use Rattle.arm64.specs.declared.Epilogues.TheVariants.{Scoped};
ghost use Rattle.arm64.specs.Records.{word_at, epilogues_with, header_with, scopes_in, codes_from, codes_to, codes_of};
ghost use Rattle.arm64.specs.Reader.{run_at, scoped, epilogue_codes};
ghost use Rattle.arm64_runs.specs.Left.{codes_left};
ghost use Rattle.arm64_records.specs.Parts.{word_there, fitting, headed_at, Narrow, Inside, total_of, epilogues_in, how_many};
ghost use Rattle.arm64_records.specs.Lent.{PlacedIn, ListedIn};

use arm64::{Epilogues, Header, fields, header_bits};
use arm64_runs::Run;

// ---- the header

// The word at a place, the lowest byte first.
#[tactic(auto, unfolding(arm64::specs::Records::word_at))]
pub fn word_at(s: &[u8], at: usize) -> u64
    requires { at + 4 ≤ length s.now }
    ensures { (result ≡ word_at s.now at) × (result < 4294967296) }
{
    u64::from(u32::from_le_bytes([s[at], s[at + 1], s[at + 2], s[at + 3]]))
}

// The word at a place, where it lies inside.
#[tactic(auto, unfolding(crate::specs::Parts::word_there, format::specs::Prelude::pick))]
fn word_there(s: &[u8], at: u64) -> Option<u64>
    ensures { (result ≡ option_of (word_there s.now at)) × IfSome result (λ w. (w < 4294967296) × (at + 4 ≤ length s.now)) }
{
    let n = s.len() as u64;
    if n < 4 || n - 4 < at {
        return None;
    }
    Some(word_at(s, at as usize))
}

// E says what the count's field is.
#[tactic(auto, unfolding(format::specs::Prelude::pick))]
fn epilogues_with(w: u64, count: u64) -> Epilogues
    ensures { result ≡ epilogues_with w count }
{
    if w / header_bits::SINGLE % 2 == 1 {
        return Epilogues::Single(count);
    }
    Epilogues::Scoped(count)
}

// A header by its first word, and what its form says of the epilogues and the words of codes.
#[tactic(auto, unfolding(arm64::specs::Records::header_with))]
fn header_with(w: u64, count: u64, words: u64, past: u64) -> Header
    ensures { result ≡ header_with w count words past }
{
    Header {
        length: w % header_bits::VERSION,
        handler: w / header_bits::HANDLER % 2 == 1,
        epilogues: epilogues_with(w, count),
        words,
        past,
    }
}

// How many words of epilogues stand behind the header: none where E is set.
// Kept: this match and that of `epilogues_in`, and no methods beside `Epilogues::count`. Both functions are public and stay, so that each would hand on to a
// method with the same match; `words` would have one caller more, arm64_function's `record_size`, and `how_many` none.
#[tactic(auto, unfolding(arm64::specs::Records::scopes_in, format::specs::Prelude::pick))]
pub fn scopes_in(h: Header) -> u64
    ensures { result ≡ scopes_in h }
{
    match h.epilogues {
        Epilogues::Single(_) => 0,
        Epilogues::Scoped(count) => count,
    }
}

// Whether the parts that a header names lie inside.
#[tactic(auto, unfolding(crate::specs::Parts::fitting, arm64::specs::Records::header_fits, arm64::specs::Records::codes_to, arm64::specs::Records::codes_from, arm64::specs::Records::scopes_in, format::specs::Prelude::pick))]
fn fit(s: &[u8], h: Header) -> Option<Header>
    requires { Narrow h × (h.past ≤ length s.now) }
    ensures { (result ≡ option_of (fitting (length s.now) h)) × IfSome result (Inside s.now) }
{
    let parts = 4 * scopes_in(h) + 4 * h.words + 4 * u64::from(h.handler);
    (parts <= s.len() as u64 - h.past).then_some(h)
}

// The header of the record at a place: version 0, and no part past the end.
#[tactic(auto, unfolding(crate::specs::Parts::headed_at, crate::specs::Parts::word_there, crate::specs::Parts::fitting, arm64::specs::Records::record_ok, arm64::specs::Records::version_of, arm64::specs::Records::header_at, arm64::specs::Records::is_long, arm64::specs::Records::short_header, arm64::specs::Records::long_header, arm64::specs::Records::header_with, arm64::specs::Records::header_fits, arm64::specs::Records::codes_to, arm64::specs::Records::codes_from, format::specs::Prelude::pick))]
pub fn header(s: &[u8], at: u64) -> Option<Header>
    ensures { (result ≡ option_of (headed_at s.now at)) × IfSome result (Inside s.now) }
{
    let w = word_there(s, at)?;
    if w / header_bits::VERSION % 4 != 0 {
        return None;
    }
    if w / header_bits::COUNT != 0 {
        let h = header_with(
            w,
            w / header_bits::COUNT % 32,
            w / header_bits::WORDS,
            at + 4,
        );
        return fit(s, h);
    }
    let v = word_there(s, at + 4)?;
    fit(
        s,
        header_with(
            w,
            v % header_bits::LONG_WORDS,
            v / header_bits::LONG_WORDS % 256,
            at + 8,
        ),
    )
}

// ---- the epilogues

// The lists that are lent for what is read.
#[derive(Drop)]
pub struct Output<'a> {
    pub epilogues: &'a mut [u64],
    pub codes: &'a mut [u64],
}

impl Output<'_> {
    // An epilogue in place k: its start, where its codes stand and how many there are, and the codes. This gives the place past them.
    pub fn put_one(&mut self, k: usize, at: usize, start: u64, run: Run) -> usize
        requires { (epilogue_stride * (k + 1) ≤ length self.old.epilogues.now) × (code_stride * (at + length (codes_left run)) ≤ length self.old.codes.now) }
        ensures { PlacedIn self.old self.new k at result start (codes_left run.entry) }
    {
        let past = run.put(self.codes, fields::CODE_STRIDE * at) / fields::CODE_STRIDE;
        arm64_runs::put_three(
            self.epilogues,
            fields::EPILOGUE_STRIDE * k,
            [start, at as u64, (past - at) as u64],
        );
        past
    }
}

// A record in its section: the header, and the bytes of its codes.
#[derive(Clone, Copy)]
pub struct Record<'a> {
    pub section: &'a [u8],
    pub header: Header,
    pub codes: &'a [u8],
    pub ghost inside: { Inside section.now header },
    pub ghost spelled: { codes.now ≡ codes_of header section.now },
}

// How many epilogues a record has: one where E is set.
#[tactic(auto, unfolding(crate::specs::Parts::how_many, format::specs::Prelude::pick))]
pub fn epilogues_in(h: Header) -> u64
    ensures { result ≡ how_many h }
{
    match h.epilogues {
        Epilogues::Single(_) => 1,
        Epilogues::Scoped(count) => count,
    }
}

// A record whose epilogues have a word each, and how many they are.
#[derive(Clone, Copy)]
struct Scopes<'a> {
    record: Record<'a>,
    count: u64,
    ghost by_words: { «record».header.epilogues ≡ Scoped count },
}

impl Scopes<'_> {
    ghost use Rattle.arm64_records.specs.Record.{word_of};

    // The word of epilogue k.
    fn word(&self, k: usize) -> u64
        requires { k < self.now.count }
        ensures { result ≡ word_of self.now.«record» k }
    {
        word_at(
            self.record.section,
            self.record.header.past as usize + 4 * k,
        )
    }

    // How many codes the epilogues have.
    fn count_codes(&self) -> Option<usize>
        ensures { (result ≡ option_of (total_of (scoped (word_of self.now.«record») self.now.«record».codes.now 0 self.now.count))) × IfSome result (λ m. m ≤ 66846720) }
    {
        let mut n = 0;
        for k in 0..self.count as usize {
            let w = self.word(k);
            n += arm64_runs::count_run(self.record.codes, (w / header_bits::INDEX) as usize)?;
        }
        Some(n)
    }

    // The epilogues; n codes stand before theirs.
    fn put(&self, n: usize, to: &mut Output)
        requires { (scoped (word_of self.now.«record») self.now.«record».codes.now 0 self.now.count ≡ some (epilogues_in (scoped (word_of self.now.«record») self.now.«record».codes.now 0 self.now.count))) × (epilogue_stride * self.now.count ≤ length to.old.epilogues.now) × (code_stride * (n + length (epilogue_codes (epilogues_in (scoped (word_of self.now.«record») self.now.«record».codes.now 0 self.now.count)))) ≤ length to.old.codes.now) }
        ensures { ListedIn to.old to.new n (epilogues_in (scoped (word_of self.now.«record») self.now.«record».codes.now 0 self.now.count)) }
    {
        let mut at = n;
        for k in 0..self.count as usize {
            let w = self.word(k);
            let run = Run::at(self.record.codes, (w / header_bits::INDEX) as usize);
            at = to.put_one(k, at, 4 * (w % header_bits::RESERVED), run);
        }
    }
}

impl<'a> Record<'a> {
    ghost use Rattle.arm64_records.specs.Record.{epilogues_of};

    #[tactic(auto, unfolding(arm64::specs::Records::codes_to, arm64::specs::Records::codes_from))]
    pub fn of(section: &'a [u8], header: Header) -> Record<'a>
        requires { Inside section.now header }
        ensures { (result.section.now ≡ section.now) × (result.header ≡ header) }
    {
        let from = (header.past + 4 * scopes_in(header)) as usize;
        let to = from + 4 * header.words as usize;
        Record {
            section,
            header,
            codes: &section[from..to],
        }
    }

    // How many codes the epilogues have.
    #[tactic(auto, using(format::proofs::Asked::none_is, crate::proofs::Whole::one_none, crate::proofs::Whole::by_words))]
    pub fn count_epilogues(&self) -> Option<usize>
        ensures { (result ≡ option_of (total_of (epilogues_of self.now))) × IfSome result (λ m. m ≤ 66846720) }
    {
        match self.header.epilogues {
            Epilogues::Single(index) => {
                let m = arm64_runs::count_run(self.codes, index as usize)?;
                ((m as u64) < self.header.length).then_some(m)
            }
            Epilogues::Scoped(count) => Scopes {
                record: *self,
                count,
            }
            .count_codes(),
        }
    }

    // The epilogues, behind n codes of the prologue; their codes are m.
    pub fn put_epilogues(&self, n: usize, m: usize, to: &mut Output)
        requires { (total_of (epilogues_of self.now) ≡ some m) × (epilogue_stride * how_many self.now.header ≤ length to.old.epilogues.now) × (code_stride * (n + m) ≤ length to.old.codes.now) }
        ensures { ListedIn to.old to.new n (epilogues_in (epilogues_of self.now)) }
    {
        match self.header.epilogues {
            Epilogues::Single(index) => {
                let start = 4 * (self.header.length - 1 - m as u64);
                to.put_one(0, n, start, Run::at(self.codes, index as usize));
            }
            Epilogues::Scoped(count) => Scopes {
                record: *self,
                count,
            }
            .put(n, to),
        }
    }
}
