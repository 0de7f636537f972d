// Writes a small firmware's list and calls each function whose contract is a theorem of README's table: a
// writer, and then a reader, a walk or a check on exactly what was written. The file stdout was worked out
// by hand from the public documents, before the first run; the sizes of the DWARF sections and the counts
// of their relocations are also those that GNU as 2.40 gives the same three functions.
//
// One more call is one more function below: a `heading` of what the writer said, a line of the answer, and
// a line in `main`.
#![tactic(auto)]

use format::{CfaRule, Counts, Question, Refusal, Rule, Rules};
use round_trips::{entries, indexed, marked};
use std::io;
use unwind::{Format, Numbers};
use walk::Memory;
use x64_back::undo::{self, Registers};
use x64_reader::X64Reading;

// ---- the list

// Three functions of x86-64: `reset` (symbol 16, 16 bytes), where chains end, `control` (17, 40), which has
// a call site, and `sample` (18, 32). In .eh_frame (LSB): the header zR 17 bytes and its two rows 5, padded
// to 24; the record of `reset` 17 + 3, 20; the header zPLR 25 + 5, padded to 32; the records of `control`
// 21 + 8 and of `sample` 17 + 8, padded to 32 and 28; 136 in all, each entry to a multiple of 4 and the
// section of 8. A relocation for each record's function, one for the personality and one for the call
// sites: 5. In .debug_frame (DWARF 5, 6.4.1): the header 13 + 5, padded to 24, each record 24 and at most
// 8, padded to 32: 120; two relocations a record: 6.
const FUNCTIONS: [u64; 54] = [
    16, 16, 0, 1, 0, 0, 0, 0, 0, 0, 0, 0, 0, 0, 0, 0, 0, 0, 17, 40, 1, 3, 0, 1, 0, 0, 0, 0, 0, 0,
    0, 0, 0, 0, 0, 0, 18, 32, 4, 3, 0, 0, 0, 0, 0, 0, 0, 0, 0, 0, 0, 0, 0, 0,
];

// An offset of -16 in 32 bits, two's complement.
const MINUS_16: u64 = 4294967280;

// `reset`: the return address is undefined from 1 on. `control`: push rbp; mov rbp, rsp. `sample`: push
// rbx; sub rsp, 32.
const ROWS: [u64; 28] = [
    1, 5, 16, 0, 1, 1, 0, 16, 1, 3, 6, MINUS_16, 4, 2, 6, 0, 1, 1, 0, 16, 1, 3, 3, MINUS_16, 5, 1,
    0, 48,
];

// The call of `control` at 12, 5 bytes long, whose landing pad stands at 32: ff ff 01 04 0c 05 20 00
// (Itanium C++ ABI, call-site table).
const LANDINGS: [u64; 3] = [12, 5, 32];

// No labels.
const PAIRS: [u64; 0] = [];

const RESET: u64 = 0x1000;

const CONTROL: u64 = 0x1100;

const SAMPLE: u64 = 0x1200;

// Where each function lies, and its length.
const PLACED: [u64; 6] = [RESET, 16, CONTROL, 40, SAMPLE, 32];

// Symbols and their addresses: the personality reference (0), the table of call sites (1) and the functions; and where .eh_frame stands.
const ADDRESSES: [u64; 10] = [0, 0x3000, 1, 0x3800, 16, RESET, 17, CONTROL, 18, SAMPLE];

const SECTION: u64 = 0x4000;

// A function of direct x64 codes: push rbp; sub rsp, 32; lea rbp, [rsp + 16]. Its info is 01 0a 03 15, 0a
// 03, 05 32, 01 50 and two zeros, its row of .pdata three addresses (Microsoft, x64 exception handling).
const X64_FUNCTIONS: [u64; 5] = [16, 40, 10, 0, 3];

const X64_CODES: [u64; 15] = [1, 0, 5, 0, 0, 5, 1, 0, 0, 32, 10, 2, 5, 0, 16];

// A function of ARM64, 40 bytes: stp x29, lr, [sp, -16]!; mov x29, sp; and at its end ldp x29, lr, [sp], 16 and the ret, at 32. One word stands
// for it (Microsoft, ARM64 exception handling, packed unwind data): flag 1, 10 instructions, CR 3, FrameSize 1, 0x00e00029.
const ARM64_FUNCTIONS: [u64; 6] = [16, 40, 0, 2, 0, 1];

const ARM64_EPILOGUES: [u64; 3] = [32, 2, 1];

const ARM64_CODES: [u64; 9] = [3, 0, 16, 13, 0, 0, 3, 0, 16];

const ARM64_WORD: u32 = 0x00e00029;

// ---- the recorded fault: `sample` stopped at 20
//
// There the frame address is rsp + 48, 0x8030, and the return address 8 below it: 0x1114, 20 into
// `control`. That one's frame address is rbp + 16, 0x8050, its return address 0x1009, 9 into `reset`, whose
// own is undefined one byte before.

const STACK: u64 = 0x8000;

// Ten words of the stack, the registers 0 to 16 (rbp is 6, rsp 7), and the trailer: how far back the
// registers stand, and in four bytes each how many they are and how long the stack is.
const RECORDED: [u64; 29] = [
    0,
    0,
    0,
    0,
    7,
    0x1114,
    0,
    0,
    0,
    0x1009,
    0,
    0,
    0,
    0,
    0,
    0,
    0x8040,
    STACK,
    0,
    0,
    0,
    0,
    0,
    0,
    0,
    0,
    0,
    136,
    343597383697,
];

// The words as bytes, the low byte first.
fn recorded() -> [u8; 232] {
    let mut file = [0u8; 232];
    for k in 0..29 {
        let word = RECORDED[k].to_le_bytes();
        for i in 0..8 {
            file[8 * k + i] = word[i];
        }
    }
    file
}

// ---- the lists that are lent

#[derive(Drop)]
struct Lent {
    places: [u64; 8],
    bytes: [u8; 256],
    relocations: [u64; 60],
    sites: [u8; 64],
}

impl Lent {
    fn new() -> Lent {
        Lent {
            places: [0; 8],
            bytes: [0; 256],
            relocations: [0; 60],
            sites: [0; 64],
        }
    }
}

// The ready machine as numbers.
fn machine() -> [u64; 70] {
    let mut machine = [0; 70];
    machines::unwind_machine_x86_64(&mut machine);
    machine
}

// ---- what is printed

// A function's name, and what its writer said.
fn heading(
    rt: &impl Print,
    name: &str,
    outcome: Result<Option<Counts>, Refusal>,
) -> io::Result<()> {
    match outcome {
        Ok(Some(c)) => {
            println!(rt;
                "{name}: {} places, {} bytes, {} relocations, {} bytes of call sites or info",
                c.places, c.bytes, c.relocations, c.sites
            )
        }
        Ok(None) => println!(rt; "{name}: nothing"),
        Err(r) => println!(rt;
            "{name}: {} at function {}",
            r.question.number(),
            r.position
        ),
    }
}

// The rules of a register that were read.
fn rules(rt: &impl Print, read: Result<Rules, Question>) -> io::Result<()> {
    let rules = match read {
        Ok(rules) => rules,
        Err(question) => return println!(rt; "    {}", question.number()),
    };
    match rules.cfa {
        CfaRule::Unset => println!(rt; "    no frame address")?,
        CfaRule::Register(reg, z) => println!(rt; "    frame address: register {reg} plus {z}")?,
    }
    match rules.rule {
        Rule::Unstated => println!(rt; "    unstated"),
        Rule::Undefined => println!(rt; "    undefined"),
        Rule::Saved(z) => println!(rt; "    saved at the frame address plus {z}"),
        Rule::SameValue => println!(rt; "    same value"),
        Rule::InRegister(reg) => println!(rt; "    in register {reg}"),
    }
}

// ---- one call each

fn read_back(rt: &impl Print, debug: bool, k: u64, q: u16, p: u64) -> io::Result<()> {
    let mut to = Lent::new();
    let said = unwind::write_and_read(
        debug,
        &machine(),
        u64::from(Format::Elf),
        &FUNCTIONS,
        &ROWS,
        &LANDINGS,
        &PAIRS,
        &mut to.places,
        &mut to.bytes,
        &mut to.relocations,
        &mut to.sites,
        k,
        q,
        p,
    );
    heading(rt, "unwind::write_and_read", said.outcome)?;
    rules(rt, said.answer)
}

// In place the second record's function field, at 84 of the section, is 0x1100 - 0x4054, and is read as before.
fn in_place(rt: &impl Print, k: u64, q: u16, p: u64) -> io::Result<()> {
    let mut to = Lent::new();
    let mut out = [0; 256];
    let said = apply_back::write_apply_and_read(
        &machine(),
        &FUNCTIONS,
        &ROWS,
        &LANDINGS,
        &PAIRS,
        &mut to.places,
        &mut to.bytes,
        &mut to.relocations,
        &mut to.sites,
        &ADDRESSES,
        SECTION,
        0,
        &mut out,
        k,
        q,
        p,
    );
    heading(rt, "apply_back::write_apply_and_read", said.outcome)?;
    let field = i32::from_le_bytes([out[84], out[85], out[86], out[87]]);
    println!(rt; "    {}: {field} at 84", said.answer.number)?;
    rules(rt, said.answer.reading)
}

// What `unwind_read` answers: the numbers of the rules, and last that every number was spelled shortest.
fn numbers(rt: &impl Print, read: Numbers) -> io::Result<()> {
    println!(rt;
        "    {}: frame address {} {} {}, rule {} {}, signing {}, shortest {}",
        read.number,
        read.frame,
        read.frame_register,
        read.frame_offset,
        read.rule,
        read.rule_value,
        read.signing,
        read.shortest
    )
}

// The same reading with its mark, and then by the index of the section and from entry to entry: whether it is a header, its place, and
// the number in its length field.
fn entries_and_index(rt: &impl Print, k: u64, q: u16, p: u64) -> io::Result<()> {
    let mut to = Lent::new();
    let said = marked::write_and_read_marked(
        false,
        &machine(),
        u64::from(Format::Elf),
        &FUNCTIONS,
        &ROWS,
        &LANDINGS,
        &PAIRS,
        &mut to.places,
        &mut to.bytes,
        &mut to.relocations,
        &mut to.sites,
        k,
        q,
        p,
    );
    heading(rt, "round_trips::write_and_read_marked", said.outcome)?;
    numbers(rt, said.answer)?;
    let section = &to.bytes[..136];
    let mut index = [0; 32];
    let read = indexed::read_by_index(section, &PAIRS, 0, 8, &mut index, k, q, p);
    println!(rt; "round_trips::read_by_index: {}", read.indexed.number)?;
    numbers(rt, read.answer)?;
    let mut held = [0; 15];
    match entries::list_entries(section, 0, &mut held) {
        Ok(count) => println!(rt; "round_trips::list_entries: {count}")?,
        Err(question) => println!(rt; "round_trips::list_entries: {}", question.number())?,
    }
    for i in 0..5 {
        println!(rt;
            "    {} {} {}",
            held[3 * i],
            held[3 * i + 1],
            held[3 * i + 2]
        )?;
    }
    Ok(())
}

fn both_sections(rt: &impl Print, k: u64, q: u16, p: u64) -> io::Result<()> {
    let mut eh = Lent::new();
    let mut debug = Lent::new();
    let said = two_sections::write_two_and_read(
        &machine(),
        &FUNCTIONS,
        &ROWS,
        &LANDINGS,
        &PAIRS,
        &mut eh.places,
        &mut eh.bytes,
        &mut eh.relocations,
        &mut eh.sites,
        &mut debug.places,
        &mut debug.bytes,
        &mut debug.relocations,
        k,
        q,
        p,
    );
    heading(
        rt,
        "two_sections::write_two_and_read, eh_frame",
        said.eh.outcome,
    )?;
    rules(rt, said.eh.answer)?;
    heading(
        rt,
        "two_sections::write_two_and_read, debug_frame",
        said.debug.outcome,
    )?;
    rules(rt, said.debug.answer)
}

fn checked(rt: &impl Print) -> io::Result<()> {
    let mut to = Lent::new();
    let said = checked_back::write_and_check(
        &machine(),
        u64::from(Format::Elf),
        &FUNCTIONS,
        &ROWS,
        &LANDINGS,
        &PAIRS,
        &mut to.places,
        &mut to.bytes,
        &mut to.relocations,
        &mut to.sites,
    );
    heading(rt, "checked_back::write_and_check", said.outcome)?;
    println!(rt;
        "    {} at record {}",
        said.answer.number, said.answer.record
    )
}

fn walked(rt: &impl Print) -> io::Result<()> {
    let mut to = Lent::new();
    let mut frames = [0; 6];
    let said = walked_back::write_and_walk(
        false,
        &machine(),
        u64::from(Format::Elf),
        &FUNCTIONS,
        &ROWS,
        &LANDINGS,
        &PAIRS,
        &mut to.places,
        &mut to.bytes,
        &mut to.relocations,
        &mut to.sites,
        &recorded(),
        SAMPLE + 20,
        STACK,
        &PLACED,
        &mut frames,
    );
    heading(rt, "walked_back::write_and_walk", said.outcome)?;
    println!(rt;
        "    {}: {} frames, ending {}",
        said.answer.number, said.answer.frames, said.answer.ending
    )?;
    for k in 0..3 {
        println!(rt; "    function {} at {}", frames[2 * k], frames[2 * k + 1])?;
    }
    Ok(())
}

fn site(rt: &impl Print, k: u64, offset: u64) -> io::Result<()> {
    let mut to = Lent::new();
    let said = sites_back::write_and_read_site(
        &machine(),
        &FUNCTIONS,
        &ROWS,
        &LANDINGS,
        &PAIRS,
        &mut to.places,
        &mut to.bytes,
        &mut to.relocations,
        &mut to.sites,
        k,
        offset,
    );
    heading(rt, "sites_back::write_and_read_site", said.outcome)?;
    let site = said.answer;
    println!(rt;
        "    {}: found {}, start {}, length {}, pad {}, shortest {}",
        site.number, site.found, site.start, site.length, site.pad, site.shortest
    )
}

fn all_sites(rt: &impl Print, k: u64) -> io::Result<()> {
    let mut to = Lent::new();
    let mut held = [0; 3];
    let said = sites_back::write_and_list_sites(
        &machine(),
        &FUNCTIONS,
        &ROWS,
        &LANDINGS,
        &PAIRS,
        &mut to.places,
        &mut to.bytes,
        &mut to.relocations,
        &mut to.sites,
        k,
        &mut held,
    );
    heading(rt, "sites_back::write_and_list_sites", said.outcome)?;
    match said.answer {
        Ok(listed) => println!(rt; "    {} sites, shortest {}", listed.sites, listed.shortest)?,
        Err(question) => println!(rt; "    {}", question.number())?,
    }
    println!(rt; "    {} {} {}", held[0], held[1], held[2])
}

// What was read of an x64 record, and the codes that were stored.
fn codes(rt: &impl Print, read: X64Reading, held: &[u64; 15]) -> io::Result<()> {
    println!(rt;
        "    {}: end {}, frame {}, register {}, offset {}, {} codes",
        read.number, read.end, read.frame, read.frame_register, read.frame_offset, read.codes
    )?;
    for k in 0..3 {
        println!(rt;
            "    {} {} {} {} {}",
            held[5 * k],
            held[5 * k + 1],
            held[5 * k + 2],
            held[5 * k + 3],
            held[5 * k + 4]
        )?;
    }
    Ok(())
}

fn x64_record(rt: &impl Print) -> io::Result<()> {
    let mut to = Lent::new();
    let mut held = [0; 15];
    let said = x64_back::seh_and_read(
        &X64_FUNCTIONS,
        &X64_CODES,
        &mut to.places,
        &mut to.bytes,
        &mut to.relocations,
        &mut to.sites,
        0,
        &mut held,
    );
    heading(rt, "x64_back::seh_and_read", said.outcome)?;
    codes(rt, said.answer, &held)
}

// `sample` alone, from its rows: 01 05 02 00, 05 32 and 01 30. Undone on a thread that stands behind its prologue, rbx (3) is the word
// that was pushed, and rsp (4) stands at the return address, 40 above where it stood.
fn x64_rows(rt: &impl Print) -> io::Result<()> {
    let mut to = Lent::new();
    let mut held = [0; 15];
    let said = x64_back::table_and_read(
        &machine(),
        &FUNCTIONS[36..],
        &ROWS,
        &LANDINGS,
        &PAIRS,
        &mut to.places,
        &mut to.bytes,
        &mut to.relocations,
        &mut to.sites,
        0,
        &mut held,
    );
    heading(rt, "x64_back::table_and_read", said.outcome)?;
    codes(rt, said.answer, &held)?;
    let file = recorded();
    let memory = Memory {
        address: STACK,
        bytes: &file,
    };
    let mut integers = [0; undo::INTEGERS];
    integers[4] = STACK;
    let stopped = Registers {
        integers,
        vectors: [0; undo::VECTOR_HALVES],
    };
    match undo::undo_record(&to.sites, 0, &memory, stopped) {
        Ok(before) => {
            let (rbx, rsp) = (before.integers[3], before.integers[4]);
            println!(rt; "x64_back::undo_record: rbx {rbx}, rsp {rsp}")
        }
        Err(question) => println!(rt; "x64_back::undo_record: {}", question.number()),
    }
}

fn arm64_function(rt: &impl Print) -> io::Result<()> {
    let mut to = Lent::new();
    let mut epilogues = [0; 3];
    let mut codes = [0; 9];
    let said = arm64_back::write_and_read(
        &ARM64_FUNCTIONS,
        &ARM64_EPILOGUES,
        &ARM64_CODES,
        &mut to.places,
        &mut to.bytes,
        &mut to.relocations,
        &mut to.sites,
        0,
        0,
        &mut epilogues,
        &mut codes,
    );
    heading(rt, "arm64_back::write_and_read", said.outcome)?;
    let word = u32::from_le_bytes([to.bytes[4], to.bytes[5], to.bytes[6], to.bytes[7]]);
    println!(rt; "    word {word}")?;
    match said.answer {
        Some(read) => println!(rt;
            "    {}: length {}, {} codes, {} epilogues, {} in all",
            read.number, read.length, read.prologue, read.epilogues, read.codes
        )?,
        None => println!(rt; "    no row")?,
    }
    println!(rt;
        "    epilogue {} {} {}",
        epilogues[0], epilogues[1], epilogues[2]
    )?;
    for i in 0..3 {
        println!(rt;
            "    {} {} {}",
            codes[3 * i],
            codes[3 * i + 1],
            codes[3 * i + 2]
        )?;
    }
    match arm64_back::packed_down(ARM64_WORD) {
        Some(down) => println!(rt; "arm64_back::packed_down: {down}"),
        None => println!(rt; "arm64_back::packed_down: no word"),
    }
}

fn main(rt: HostRuntime) -> io::Result<()> {
    read_back(&rt, false, 1, 6, 12)?;
    read_back(&rt, true, 2, 3, 20)?;
    entries_and_index(&rt, 1, 6, 12)?;
    in_place(&rt, 1, 6, 12)?;
    both_sections(&rt, 0, 16, 8)?;
    checked(&rt)?;
    walked(&rt)?;
    site(&rt, 1, 14)?;
    site(&rt, 1, 17)?;
    all_sites(&rt, 1)?;
    x64_record(&rt)?;
    x64_rows(&rt)?;
    arm64_function(&rt)
}
