// The public library: its entries over number lists, and their C interface (include/dekvoz.h). Ported from rucc-asm/src/unwind.rs (relaxed_table, relaxed_debug_frame, seh) of tamnd/rucc, changed: see NOTICE.
#![tactic(auto)]

ghost use Rattle.std.specs.Prelude.{◌≡◌, ◌*◌, ◌≤◌, [], ◌∷◌, get_or};
ghost use Rattle.format.specs.Coded.{numbered, numbered_at};
ghost use Rattle.format.specs.Questions.{relaxed_table, relaxed_debug_frame, seh, given_of, room_in};
ghost use Rattle.format.specs.RowCheck.{row_check_at};
ghost use Rattle.format.specs.Reader.{read, shortest_at};
ghost use Rattle.format.specs.Answers.{cfa_numbers, rule_numbers, marked_numbers, bit, outcome_numbers, Writes};
ghost use Rattle.unwind.specs.Demand.{Demanded};
ghost use Rattle.unwind.specs.Together.{answer_for, bytes_in, relocs_in, reading_for};
ghost use Rattle.unwind.specs.Entries.{read_numbers, written_numbers, Exports};

use format::{CfaRule, Counts, Question, Refusal, Rule, Rules, Section};
use lists::output::WrittenAnd;
pub use object::Format;

pub mod object;

// ---- the writers

// The table of a list of functions: eh_frame of ELF (0), x64 unwind data of COFF (1); an empty result of Wasm (3), Plan 9 (4) and an
// empty list. Mach-O (2) is not written any more. It refuses by document 01's numbers, and then no buffer is changed; else the results stand at the buffers' fronts and
// the rest is as it was. `places` takes the header places, in COFF the markers; `sites` the call sites, in COFF the x64 info.
// Kept: the lists one by one, as C lends them, here and in what follows.
pub fn relaxed_table(
    machine: &[u64],
    format: u64,
    functions: &[u64],
    rows: &[u64],
    landings: &[u64],
    pairs: &[u64],
    places: &mut [u64],
    bytes: &mut [u8],
    relocations: &mut [u64],
    sites: &mut [u8],
) -> Result<Option<Counts>, Refusal>
    ensures { Writes (relaxed_table format (given_of machine.now functions.now rows.now landings.now pairs.now) (room_in places.old bytes.old relocations.old sites.old)) (numbered_at result) places.old places.new bytes.old bytes.new relocations.old relocations.new sites.old sites.new }
{
    let listed = functions.len() / lists::FUNCTION_STRIDE;
    if listed == 0 {
        return Ok(None);
    }
    match Format::try_from(format) {
        Ok(Format::Elf) => dwarf::dwarf(
            Section::Elf,
            machine,
            functions,
            rows,
            landings,
            pairs,
            places,
            bytes,
            relocations,
            sites,
        ),
        Ok(Format::Coff) => x64::windows(
            machine,
            functions,
            rows,
            landings,
            pairs,
            places,
            bytes,
            relocations,
            sites,
        ),
        Ok(Format::MachO) => Err(Question::MachO.into()),
        Ok(Format::Wasm) => Ok(None),
        Ok(Format::Plan9) => Ok(None),
        Err(question) => Err(question.into()),
    }
}

// The table of functions without pairs of relaxing labels: `relaxed_table` with an empty list of them, as in the source.
pub fn table(
    machine: &[u64],
    format: u64,
    functions: &[u64],
    rows: &[u64],
    landings: &[u64],
    places: &mut [u64],
    bytes: &mut [u8],
    relocations: &mut [u64],
    sites: &mut [u8],
) -> Result<Option<Counts>, Refusal>
    ensures { Writes (relaxed_table format (given_of machine.now functions.now rows.now landings.now []) (room_in places.old bytes.old relocations.old sites.old)) (numbered_at result) places.old places.new bytes.old bytes.new relocations.old relocations.new sites.old sites.new }
{
    relaxed_table(
        machine,
        format,
        functions,
        rows,
        landings,
        &rows[..0],
        places,
        bytes,
        relocations,
        sites,
    )
}

// Windows x64 unwind data from direct codes, with the markers and infos as in COFF. An empty list is an empty result.
pub fn seh(
    functions: &[u64],
    codes: &[u64],
    markers: &mut [u64],
    bytes: &mut [u8],
    relocations: &mut [u64],
    info: &mut [u8],
) -> Result<Option<Counts>, Refusal>
    ensures { Writes (seh functions.now codes.now (room_in markers.old bytes.old relocations.old info.old)) (numbered_at result) markers.old markers.new bytes.old bytes.new relocations.old relocations.new info.old info.new }
{
    x64::seh(functions, codes, markers, bytes, relocations, info)
}

// The same rows as a debugger's copy, debug_frame of ELF (0); an empty result of any other format and of an empty list. Landings and
// personalities are not looked at but by question 13.
pub fn relaxed_debug_frame(
    machine: &[u64],
    format: u64,
    functions: &[u64],
    rows: &[u64],
    landings: &[u64],
    pairs: &[u64],
    places: &mut [u64],
    bytes: &mut [u8],
    relocations: &mut [u64],
) -> Result<Option<Counts>, Refusal>
    ensures { Writes (relaxed_debug_frame format (given_of machine.now functions.now rows.now landings.now pairs.now) (room_in places.old bytes.old relocations.old [])) (numbered_at result) places.old places.new bytes.old bytes.new relocations.old relocations.new [] [] }
{
    if functions.len() / lists::FUNCTION_STRIDE == 0 {
        return Ok(None);
    }
    let elf = u64::from(Format::Elf);
    if format != elf {
        return Ok(None);
    }
    // debug_frame has no call sites: nothing is stored here.
    let mut sites = [0u8; 1];
    dwarf::dwarf(
        Section::Debug,
        machine,
        functions,
        rows,
        landings,
        pairs,
        places,
        bytes,
        relocations,
        &mut sites,
    )
}

// The same of functions without pairs of relaxing labels, as in the source.
pub fn debug_frame(
    machine: &[u64],
    format: u64,
    functions: &[u64],
    rows: &[u64],
    landings: &[u64],
    places: &mut [u64],
    bytes: &mut [u8],
    relocations: &mut [u64],
) -> Result<Option<Counts>, Refusal>
    ensures { Writes (relaxed_debug_frame format (given_of machine.now functions.now rows.now landings.now []) (room_in places.old bytes.old relocations.old [])) (numbered_at result) places.old places.new bytes.old bytes.new relocations.old relocations.new [] [] }
{
    relaxed_debug_frame(
        machine,
        format,
        functions,
        rows,
        landings,
        &rows[..0],
        places,
        bytes,
        relocations,
    )
}

// ---- the row check and the reader

// Whether the rows of function k can be run at every offset; no for k past the list.
pub fn row_check(functions: &[u64], rows: &[u64], k: u64) -> bool
    ensures { result ≡ row_check_at functions.now rows.now k }
{
    rules::row_check(functions, rows, k)
}

// The frame address rule, register q's rule and the signing state of record k at offset p of its function, or the number of the question that
// was answered by no. kind: 0 eh_frame, 1 debug_frame.
pub fn read(
    section: &[u8],
    relocations: &[u64],
    kind: u64,
    word: u64,
    k: u64,
    q: u16,
    p: u64,
) -> Result<Rules, Question>
    ensures { numbered result ≡ read section.now relocations.now kind word k q p }
{
    reader::read(section, relocations, kind, word, k, q, p)
}

// ---- a writer and then the reader

// How many bytes, and how many numbers of relocations, were written.
// Kept: two functions, each with its own match. Over a shared `written(o) -> Option<Counts>` each would be `written(o).map_or(0, |c| ..)`, and
// `written` would need a definition, and a law to each of `bytes_in` and `relocs_in`.
#[tactic(auto, unfolding(crate::specs::Together::bytes_in))]
pub fn bytes_in(o: Result<Option<Counts>, Refusal>) -> usize
    ensures { result ≡ bytes_in (numbered_at o) }
{
    let Ok(Some(c)) = o else {
        return 0;
    };
    c.bytes as usize
}

// No entry: public for the crates that write and then read, with what every writer promises of its outcome for a `requires` (D87).
#[tactic(auto, unfolding(crate::specs::Together::relocs_in))]
pub fn numbers_in(o: Result<Option<Counts>, Refusal>, room: usize) -> usize
    requires { 5 * relocs_in (numbered_at o) ≤ room }
    ensures { result ≡ 5 * relocs_in (numbered_at o) }
{
    let Ok(Some(c)) = o else {
        return 0;
    };
    relocs::RELOCATION_STRIDE * (c.relocations as usize)
}

// The machine's word, or 0 where there is no machine.
pub fn word_in(machine: &[u64]) -> u64
    ensures { result ≡ get_or machine.now 0 0 }
{
    machine.first().copied().unwrap_or(0)
}

// debug_frame's writer, or the other.
// Kept: here and below the lists one by one. `Writes`, `reading_for` and `Demanded` of the theorem in README name each of them; in
// `lists::Lists` and `lists::output::Output` each clause would name a field of another value (`to.old.places.now`), and one more would
// say that the caller's own lists are lent in it still (`SameLists`). `debug` is a bool, as `answer_for` has it in the same theorem.
pub fn write(
    debug: bool,
    machine: &[u64],
    format: u64,
    functions: &[u64],
    rows: &[u64],
    landings: &[u64],
    pairs: &[u64],
    places: &mut [u64],
    bytes: &mut [u8],
    relocations: &mut [u64],
    sites: &mut [u8],
) -> Result<Option<Counts>, Refusal>
    ensures { Writes (answer_for debug format (given_of machine.now functions.now rows.now landings.now pairs.now) (room_in places.old bytes.old relocations.old sites.old)) (numbered_at result) places.old places.new bytes.old bytes.new relocations.old relocations.new sites.old sites.new }
{
    if debug {
        return relaxed_debug_frame(
            machine,
            format,
            functions,
            rows,
            landings,
            pairs,
            places,
            bytes,
            relocations,
        );
    }
    relaxed_table(
        machine,
        format,
        functions,
        rows,
        landings,
        pairs,
        places,
        bytes,
        relocations,
        sites,
    )
}

// A writer, debug_frame's or the other, and then the reader on exactly what was written, with the writer's kind and word: demand 3 on running
// code. Where the list was accepted the entries tile; and where function k has no relaxing labels and passes the row check and p is below its
// length, the reading is what the function's rows give at p for register q. Where the writer refused, the reader is handed nothing.
pub fn write_and_read(
    debug: bool,
    machine: &[u64],
    format: u64,
    functions: &[u64],
    rows: &[u64],
    landings: &[u64],
    pairs: &[u64],
    places: &mut [u64],
    bytes: &mut [u8],
    relocations: &mut [u64],
    sites: &mut [u8],
    k: u64,
    q: u16,
    p: u64,
) -> WrittenAnd<Result<Rules, Question>>
    ensures writes { Writes (answer_for debug format (given_of machine.now functions.now rows.now landings.now pairs.now) (room_in places.old bytes.old relocations.old sites.old)) (numbered_at result.outcome) places.old places.new bytes.old bytes.new relocations.old relocations.new sites.old sites.new }
    ensures reading_value { numbered result.answer ≡ reading_for debug machine.now (numbered_at result.outcome) bytes.new relocations.new k q p }
    ensures demanded { Demanded format (given_of machine.now functions.now rows.now landings.now pairs.now) (numbered_at result.outcome) bytes.new k q p (numbered result.answer) }
{
    let outcome = write(
        debug,
        machine,
        format,
        functions,
        rows,
        landings,
        pairs,
        places,
        bytes,
        relocations,
        sites,
    );
    let n = bytes_in(outcome);
    let m = numbers_in(outcome, relocations.len());
    let written = &bytes[..];
    let related = &relocations[..];
    let answer = read(
        &written[..n],
        &related[..m],
        u64::from(debug),
        word_in(machine),
        k,
        q,
        p,
    );
    WrittenAnd { outcome, answer }
}

// ---- the C interface

// What unwind_read answers.
#[repr(C)]
#[derive(Clone, Copy)]
pub struct Numbers {
    pub number: u64,
    pub frame: u64,
    pub frame_register: u64,
    pub frame_offset: u64,
    pub rule: u64,
    pub rule_value: u64,
    pub signing: u64,
    pub shortest: u64,
}

// What the writers answer.
#[repr(C)]
#[derive(Clone, Copy, Default)]
pub struct Written {
    pub number: u64,
    pub position: u64,
    pub places: u64,
    pub bytes: u64,
    pub relocations: u64,
    pub sites: u64,
}

// A frame address rule, and a register's rule, as numbers.
#[derive(Clone, Copy)]
struct Address {
    kind: u64,
    register: u64,
    offset: u64,
}

#[derive(Clone, Copy)]
struct Saving {
    kind: u64,
    value: u64,
}

impl From<CfaRule> for Address {
    ghost from_gives = { λ c a. a.kind ∷ a.register ∷ a.offset ∷ [] ≡ cfa_numbers c };

    fn from(rule: CfaRule) -> Address {
        match rule {
            CfaRule::Unset => Address {
                kind: 0,
                register: 0,
                offset: 0,
            },
            CfaRule::Register(reg, z) => Address {
                kind: 1,
                register: u64::from(reg),
                offset: z.cast_unsigned(),
            },
        }
    }
}

impl From<Rule> for Saving {
    ghost from_gives = { λ r a. a.kind ∷ a.value ∷ [] ≡ rule_numbers r };

    fn from(rule: Rule) -> Saving {
        match rule {
            Rule::Unstated => Saving { kind: 0, value: 0 },
            Rule::Undefined => Saving { kind: 1, value: 0 },
            Rule::Saved(z) => Saving {
                kind: 2,
                value: z.cast_unsigned(),
            },
            Rule::SameValue => Saving { kind: 3, value: 0 },
            Rule::InRegister(reg) => Saving {
                kind: 4,
                value: u64::from(reg),
            },
        }
    }
}

fn rules_numbers(rules: Rules, shortest: bool) -> Numbers
    ensures { read_numbers result ≡ marked_numbers (Ok rules) shortest }
{
    let a = Address::from(rules.cfa);
    let b = Saving::from(rules.rule);
    Numbers {
        number: 0,
        frame: a.kind,
        frame_register: a.register,
        frame_offset: a.offset,
        rule: b.kind,
        rule_value: b.value,
        signing: u64::from(rules.signing),
        shortest: u64::from(shortest),
    }
}

// A reading with the number of its question.
fn with_number(r: Result<Rules, Question>) -> Result<Rules, u64>
    ensures { result ≡ numbered r }
{
    let rules = r?;
    Ok(rules)
}

// A question's number is any number here, since C may hand one on that the reader did not give.
// Kept: the zeros of a refusal one by one. Of `..Numbers::default()` there was no equation by which `returns` could be rewritten (tried).
pub fn numbers_of(r: Result<Rules, u64>, shortest: bool) -> Numbers
    ensures { read_numbers result ≡ marked_numbers r shortest }
{
    match r {
        Ok(rules) => rules_numbers(rules, shortest),
        Err(number) => Numbers {
            number,
            frame: 0,
            frame_register: 0,
            frame_offset: 0,
            rule: 0,
            rule_value: 0,
            signing: 0,
            shortest: 0,
        },
    }
}

impl From<Result<Option<Counts>, Refusal>> for Written {
    ghost from_gives = { λ o w. written_numbers w ≡ outcome_numbers (numbered_at o) };

    #[tactic(auto, unfolding(format::specs::Answers::outcome_numbers))]
    fn from(outcome: Result<Option<Counts>, Refusal>) -> Written {
        match outcome {
            Ok(Some(c)) => Written {
                number: 0,
                position: 0,
                places: c.places,
                bytes: c.bytes,
                relocations: c.relocations,
                sites: c.sites,
            },
            Ok(None) => Written::default(),
            Err(r) => Written {
                number: r.question.number(),
                position: r.position,
                ..Written::default()
            },
        }
    }
}

// Kept: in the exports the lists one by one, as C lends them.
#[unsafe(no_mangle)]
pub extern "C" fn unwind_relaxed_table(
    machine: &[u64],
    format: u64,
    functions: &[u64],
    rows: &[u64],
    landings: &[u64],
    pairs: &[u64],
    places: &mut [u64],
    bytes: &mut [u8],
    relocations: &mut [u64],
    sites: &mut [u8],
) -> Written
    ensures { Exports (relaxed_table format (given_of machine.now functions.now rows.now landings.now pairs.now) (room_in places.old bytes.old relocations.old sites.old)) result places.old places.new bytes.old bytes.new relocations.old relocations.new sites.old sites.new }
{
    Written::from(relaxed_table(
        machine,
        format,
        functions,
        rows,
        landings,
        pairs,
        places,
        bytes,
        relocations,
        sites,
    ))
}

#[unsafe(no_mangle)]
pub extern "C" fn unwind_relaxed_debug_frame(
    machine: &[u64],
    format: u64,
    functions: &[u64],
    rows: &[u64],
    landings: &[u64],
    pairs: &[u64],
    places: &mut [u64],
    bytes: &mut [u8],
    relocations: &mut [u64],
) -> Written
    ensures { Exports (relaxed_debug_frame format (given_of machine.now functions.now rows.now landings.now pairs.now) (room_in places.old bytes.old relocations.old [])) result places.old places.new bytes.old bytes.new relocations.old relocations.new [] [] }
{
    Written::from(relaxed_debug_frame(
        machine,
        format,
        functions,
        rows,
        landings,
        pairs,
        places,
        bytes,
        relocations,
    ))
}

#[unsafe(no_mangle)]
pub extern "C" fn unwind_seh(
    functions: &[u64],
    codes: &[u64],
    markers: &mut [u64],
    bytes: &mut [u8],
    relocations: &mut [u64],
    info: &mut [u8],
) -> Written
    ensures { Exports (seh functions.now codes.now (room_in markers.old bytes.old relocations.old info.old)) result markers.old markers.new bytes.old bytes.new relocations.old relocations.new info.old info.new }
{
    Written::from(seh(functions, codes, markers, bytes, relocations, info))
}

#[unsafe(no_mangle)]
pub extern "C" fn unwind_row_check(functions: &[u64], rows: &[u64], k: u64) -> u64
    ensures { result ≡ bit (row_check_at functions.now rows.now k) }
{
    u64::from(row_check(functions, rows, k))
}

#[unsafe(no_mangle)]
pub extern "C" fn unwind_read(
    section: &[u8],
    relocations: &[u64],
    kind: u64,
    word: u64,
    k: u64,
    q: u16,
    p: u64,
) -> Numbers
    ensures { read_numbers result ≡ marked_numbers (read section.now relocations.now kind word k q p) (shortest_at section.now relocations.now kind word k p) }
{
    match reader::locate(section, relocations, kind, word, k) {
        Ok(l) => {
            let rules = with_number(reader::rules_at(section, l, q, p));
            let shortest = reader::shortest_at(section, l, p);
            numbers_of(rules, shortest)
        }
        Err(question) => numbers_of(Err(question.number()), false),
    }
}
