// The walk by a section (request W-202): the rules of each frame come from the reader.
#![tactic(auto)]

ghost use Rattle.std.specs.Prelude.{◌≡◌, ℕ, true, false, [], ◌∷◌, ◌<◌, ◌≤◌, ◌&&◌, T, eqb, length, take, drop};
ghost use Rattle.format.specs.Put.{put};
ghost use Rattle.format.specs.Prelude.{pick, bad, onward};
ghost use Rattle.format.specs.Numbers.{number_of};
ghost use Rattle.format.specs.Machine.{is_word_size, machine_ok, machine_of};
ghost use Rattle.format.specs.Rules.{rules_for};
ghost use Rattle.format.specs.declared.Rule.TheVariants.{Unstated};
ghost use Rattle.walk.specs.Walk.{left_by, left_from, left, returned_to, caller_of, frames_f, frame_numbers, fitting, walk_by, by_section};
ghost use Rattle.walk.specs.Found.{found_f, found};
ghost use Rattle.walk.specs.Standing.{memory_of, slots, left_of, caller_as, step_of};
ghost use Rattle.walked.specs.Entry.{numbers_of, chain_numbers, chain_stored, found_numbers, that_fit, found_answer, found_left};
ghost use Rattle.walked.specs.Named.{names, operation_names, Marked, MarkedAll, MarksIn};
ghost use Rattle.walked.specs.Standing.{rules_at, ruled_at, source_at, section_of, all_left, start_of, frames_of, walked_of, fault_of};
ghost use Rattle.walked.specs.Faults.{fault_by};

use crate::chain::{Ending, MOST_FRAMES, Walked};
use crate::fault::Fault;
use crate::leaving::Leaving;
use format::{Machine, Operation, Question, Row, Rules};
use reader::location::Located;
use reader::operation::Operations;
use walk::{Caller, Frame, Holder, Memory, Trailer};

pub mod chain;
pub mod fault;
pub mod leaving;

// An offset of a record that was located.
#[derive(Clone, Copy)]
pub struct Place<'a> {
    pub section: &'a [u8],
    pub located: Located,
    pub p: u64,
}

// ---- the registers that a record and its header name

// The registers 0 to 127 that an operation names.
#[derive(Clone, Copy)]
pub struct Marks {
    pub named: [bool; 128],
}

impl Marks {
    fn mark(&mut self, reg: u16)
        ensures { Marked self.old.named self.new.named (λ q. eqb q reg) }
    {
        if reg < 128 {
            self.named[reg as usize] = true;
        }
    }

    fn mark_row(&mut self, row: Row)
        ensures { Marked self.old.named self.new.named (λ q. names q row) }
    {
        match row {
            Row::Offset(reg, _)
            | Row::Restore(reg)
            | Row::Undefined(reg)
            | Row::SameValue(reg)
            | Row::InRegister(reg, _) => self.mark(reg),
            Row::DefCfa(_, _)
            | Row::DefCfaOffset(_)
            | Row::DefCfaRegister(_)
            | Row::RememberState
            | Row::RestoreState
            | Row::NegateRaState => {}
        }
    }

    fn mark_operation(&mut self, op: Operation)
        ensures { Marked self.old.named self.new.named (λ q. operation_names q op) }
    {
        match op {
            Operation::Nop | Operation::Step(_) => {}
            Operation::Does(row) => self.mark_row(row),
        }
    }
}

// The operations of one entry, up to the first that cannot be read.
fn mark_all(ops: &[u8], word: u64, start: Marks) -> Marks
    requires { 0 < word }
    ensures { MarkedAll start.named result.named word ops.now }
{
    let mut m = start;
    for read in Operations::new(ops, word) {
        let Some((op, _)) = read else {
            return m;
        };
        m.mark_operation(op);
    }
    m
}

// The registers that the header's operations or the record's name.
fn named(section: &[u8], l: Located) -> Marks
    requires { T (is_word_size l.word) × (l.header ≤ l.header_end) × (l.header_end ≤ length section.now) × (l.«record» ≤ l.record_end) × (l.record_end ≤ length section.now) }
    ensures { MarksIn section.now l result.named }
{
    let unmarked = Marks {
        named: [false; 128],
    };
    let m = mark_all(&section[l.header..l.header_end], l.word, unmarked);
    mark_all(&section[l.record..l.record_end], l.word, m)
}

// ---- a frame that is left

impl Leaving<'_, '_> {
    // One register: kept where no operation names it, and else by the rule that the reader gives.
    fn one(&self, named: bool, reg: usize, cfa: u64) -> Result<Option<u64>, Question>
        requires { (reg < 128) × (named ≡ false → (rules_at self.now.at).rules reg ≡ Unstated) }
        ensures { left_of result ≡ left_by (memory_of self.now.memory) cfa (slots self.now.registers) reg ((rules_at self.now.at).rules reg) }
    {
        if !named {
            return Ok(walk::slot(&self.registers, reg));
        }
        let rules = reader::rules_at(self.at.section, self.at.located, reg as u16, self.at.p)?;
        self.memory.left_by(&self.registers, rules.rule, reg, cfa)
    }

    // All of them.
    // Kept: a loop over their numbers. Each is what `one` is asked, the place of its mark and the place that is stored; with an iterator over the
    // registers it would still be counted beside (`enumerate`), and the marks zipped to it.
    fn all_left(&self, cfa: u64) -> Result<[Option<u64>; 128], Question>
        ensures { all_left result ≡ left_from (λ reg. left_by (memory_of self.now.memory) cfa (slots self.now.registers) reg ((rules_at self.now.at).rules reg)) 0 128 }
    {
        let marks = named(self.at.section, self.at.located);
        let mut registers = self.registers;
        for i in 0..128 {
            registers[i] = self.one(marks.named[i], i, cfa)?;
        }
        Ok(registers)
    }

    // And the stack pointer, which is the frame address.
    fn left(&self, cfa: u64) -> Result<[Option<u64>; 128], Question>
        ensures { all_left result ≡ left (memory_of self.now.memory) self.now.machine.stack cfa (rules_at self.now.at) (slots self.now.registers) }
    {
        let registers = self.all_left(cfa)?;
        Ok(walk::with_stack(registers, self.machine.stack, cfa))
    }

    // ---- its caller

    // From the frame address on: the registers, and the return address in them.
    fn resumed(&self, signing: bool, cfa: u64) -> Result<Option<Caller>, Question>
        ensures { step_of result ≡ onward (left (memory_of self.now.memory) self.now.machine.stack cfa (rules_at self.now.at) (slots self.now.registers)) (λ ss. returned_to ss self.now.machine.ret signing self.now.at.located.signal) }
    {
        let registers = self.left(cfa)?;
        walk::returned(registers, self.machine.ret, signing, self.at.located.signal)
    }

    // By the rules of the return address's register.
    fn left_by_rules(&self, rules: Rules) -> Result<Option<Caller>, Question>
        requires { rules ≡ rules_for self.now.machine.ret (rules_at self.now.at) }
        ensures { step_of result ≡ caller_of self.now.machine (memory_of self.now.memory) (ruled_at self.now.at) (slots self.now.registers) }
    {
        if walk::undefined(rules.rule) {
            return Ok(None);
        }
        let cfa = walk::frame_address(rules.cfa, &self.registers)?;
        self.resumed(rules.signing, cfa)
    }
}

// The section that the rules come from, its relocations and its kind.
// Kept: `kind` is a number: C hands it in and `reader::locate` takes any.
#[derive(Clone, Copy)]
pub struct Section<'a> {
    pub bytes: &'a [u8],
    pub relocations: &'a [u64],
    pub kind: u64,
}

impl Fault<'_, '_, '_> {
    // The caller of a frame at an offset of a record that was located.
    fn caller(&self, registers: [Option<u64>; 128], at: Place) -> Result<Option<Caller>, Question>
        ensures { step_of result ≡ onward (source_at at.entry) (λ u. caller_of self.now.machine (memory_of self.now.memory) u (slots registers)) }
    {
        let ret = self.machine.ret as u16;
        let rules = reader::rules_at(at.section, at.located, ret, at.p)?;
        let frame = Leaving {
            machine: self.machine,
            registers,
            at,
            memory: self.memory,
        };
        frame.left_by_rules(rules)
    }

    // The caller of a frame by the function that holds it: one pass over the section.
    fn caller_by(
        &self,
        registers: [Option<u64>; 128],
        holder: Holder,
    ) -> Result<Option<Caller>, Question>
        ensures { step_of result ≡ onward (section_of self.now.section holder.position holder.offset) (λ u. caller_of self.now.machine (memory_of self.now.memory) u (slots registers)) }
    {
        let s = self.section;
        let located = reader::locate(s.bytes, s.relocations, s.kind, 8, holder.position)?;
        let at = Place {
            section: s.bytes,
            located,
            p: holder.offset,
        };
        self.caller(registers, at)
    }

    // ---- the frames

    // Up to 64 frames, by the section. Behind them no function holds the address, or a 65th frame would follow. Where a
    // frame's caller is refused it is the last.
    pub fn frames(&self, start: Caller) -> Walked
        ensures walked { walked_of result ≡ frames_f (section_of self.now.section) (fault_by self.now) 64 (caller_as start) }
        ensures found { frames_of result ≡ found_f (section_of self.now.section) (fault_by self.now) 64 (caller_as start) }
    {
        let mut caller = start;
        let mut frames = [Frame::default(); MOST_FRAMES];
        for count in 0..MOST_FRAMES {
            let Some(holder) = walk::held(self.functions, caller.exact, caller.pc) else {
                return Walked {
                    frames,
                    count,
                    ending: Ok(Ending::Unheld),
                };
            };
            frames[count] = Frame {
                position: holder.position,
                pc: caller.pc,
            };
            match self.caller_by(caller.registers, holder) {
                Err(question) => {
                    return Walked {
                        frames,
                        count: count + 1,
                        ending: Err(question),
                    };
                }
                Ok(None) => {
                    return Walked {
                        frames,
                        count: count + 1,
                        ending: Ok(Ending::Undefined),
                    };
                }
                Ok(Some(next)) => caller = next,
            }
        }
        let ending = match walk::held(self.functions, caller.exact, caller.pc) {
            None => Ending::Unheld,
            Some(_) => Ending::TooMany,
        };
        Walked {
            frames,
            count: MOST_FRAMES,
            ending: Ok(ending),
        }
    }
}

// ---- the entry

// 11 and 12 for the machine, and then the frames, from the registers of the record file. These are read last, so that
// a machine is refused without them.
// Kept: its parameters one by one: `Fault` knows `ret` and is made once question 11 has passed.
fn chain_of(
    machine: &[u64],
    file: &[u8],
    trailer: Trailer,
    section: Section,
    pc: u64,
    memory: Memory,
    functions: &[u64],
) -> Walked
    requires { trailer.size ≤ 65536 }
    ensures walked { walked_of result
        ≡ pick (machine_ok machine.now)
        (pick (eqb (machine_of machine.now).word 8)
        (frames_f (section_of section.entry) (fault_of (machine_of machine.now) (memory_of memory.entry) functions.now)
        64 (start_of trailer file.now pc)) (bad 12)) (bad 11) }
    ensures found { frames_of result
        ≡ pick (machine_ok machine.now && eqb (machine_of machine.now).word 8)
        (found_f (section_of section.entry) (fault_of (machine_of machine.now) (memory_of memory.entry) functions.now)
        64 (start_of trailer file.now pc)) [] }
{
    let known = match lists::read_machine(machine) {
        Ok(known) => known,
        Err(question) => return Walked::refused(question),
    };
    if known.word != 8 {
        return Walked::refused(Question::X64Word);
    }
    let start = Caller {
        registers: walk::registers(file, trailer.size, trailer.count),
        pc,
        exact: true,
    };
    let fault = Fault {
        machine: known,
        section,
        memory,
        functions,
    };
    fault.frames(start)
}

// What `unwind_walk` answers: 0 or a refusal's number, the count of frames that are stored, and why the walk ended.
// Kept: a number and fields that are 0 where it refuses, since C reads it.
#[repr(C)]
#[derive(Clone, Copy, Default)]
pub struct Answer {
    pub number: u64,
    pub frames: u64,
    pub ending: u64,
}

impl From<Question> for Answer {
    ghost from_gives = { λ q a. numbers_of a ≡ number_of q ∷ 0 ∷ 0 ∷ [] };

    fn from(question: Question) -> Answer {
        Answer {
            number: question.number(),
            ..Answer::default()
        }
    }
}

// The frames at the front of a lent list, or 54.
fn stored(w: Walked, out: &mut [u64]) -> Answer
    ensures result_value { numbers_of result ≡ chain_numbers (onward (walked_of w) (fitting (length out.old))) }
    ensures out_after { out.new ≡ chain_stored (onward (walked_of w) (fitting (length out.old))) out.old }
{
    let ending = match w.ending {
        Ok(ending) => ending,
        Err(question) => return Answer::from(question),
    };
    if out.len() / walk::FRAME_STRIDE < w.count {
        return Answer::from(Question::OtherRoom);
    }
    walk::store(&w.frames[..w.count], out);
    Answer {
        number: 0,
        frames: w.count as u64,
        ending: ending.number(),
    }
}

// The frames that were found at the front of a lent list, where it has room for them, and how the walk ended or by
// which question it was refused: 54 is one of these.
fn found_stored(w: Walked, out: &mut [u64]) -> Answer
    ensures result_value { numbers_of result ≡ found_numbers (onward (walked_of w) (fitting (length out.old))) (length (that_fit (length out.old) (frames_of w))) }
    ensures out_after { out.new ≡ put out.old 0 (frame_numbers (that_fit (length out.old) (frames_of w))) }
{
    if out.len() / walk::FRAME_STRIDE < w.count {
        return match w.ending {
            Ok(_) => Answer::from(Question::OtherRoom),
            Err(question) => Answer::from(question),
        };
    }
    walk::store(&w.frames[..w.count], out);
    let frames = w.count as u64;
    match w.ending {
        Ok(ending) => Answer {
            number: 0,
            frames,
            ending: ending.number(),
        },
        Err(question) => Answer {
            number: question.number(),
            frames,
            ending: 0,
        },
    }
}

// The walk over a recorded fault: 73 for the file, and then as `chain_of`.
// Kept: its parameters one by one, as the exports have them from C.
fn walked(
    machine: &[u64],
    file: &[u8],
    section: Section,
    pc: u64,
    stack: u64,
    functions: &[u64],
) -> Walked
    ensures walked { (room : ℕ) → walk_by (section_of section.entry) machine.now file.now pc stack functions.now room ≡ onward (walked_of result) (fitting room) }
    ensures found { frames_of result ≡ found (section_of section.entry) machine.now file.now pc stack functions.now }
{
    let Some(trailer) = walk::read_trailer(file) else {
        return Walked::refused(Question::Recorded);
    };
    let memory = Memory {
        address: stack,
        bytes: &file[..trailer.size],
    };
    chain_of(machine, file, trailer, section, pc, memory, functions)
}

// The frames of a recorded fault, by the section: 73 for the record file, 11 and 12 for the machine, what a frame is refused by, and 54 last.
// Of an accepted walk the frames, two numbers each, stand at the front of the lent list; on a refusal it is as it was.
// Kept: the C interface passes the lists and numbers one by one.
#[unsafe(no_mangle)]
pub extern "C" fn unwind_walk(
    machine: &[u64],
    file: &[u8],
    section: &[u8],
    relocations: &[u64],
    kind: u64,
    pc: u64,
    stack: u64,
    functions: &[u64],
    frames: &mut [u64],
) -> Answer
    ensures result_value { numbers_of result ≡ chain_numbers (walk_by (by_section section.now relocations.now kind) machine.now file.now pc stack functions.now (length frames.old)) }
    ensures frames_after { frames.new ≡ chain_stored (walk_by (by_section section.now relocations.now kind) machine.now file.now pc stack functions.now (length frames.old)) frames.old }
{
    let from = Section {
        bytes: section,
        relocations,
        kind,
    };
    stored(walked(machine, file, from, pc, stack, functions), frames)
}

/// As `unwind_walk`, and where a frame is refused, the frames that were found up to it: `number` is the refusal's, and
/// `frames` counts those that stand at the front of the lent list, 0 where it has no room for all of them.
// Kept: the C interface passes the lists and numbers one by one.
#[unsafe(no_mangle)]
pub extern "C" fn unwind_walk_found(
    machine: &[u64],
    file: &[u8],
    section: &[u8],
    relocations: &[u64],
    kind: u64,
    pc: u64,
    stack: u64,
    functions: &[u64],
    frames: &mut [u64],
) -> Answer
    ensures result_value { numbers_of result ≡ found_answer (by_section section.now relocations.now kind) machine.now file.now pc stack functions.now (length frames.old) }
    ensures frames_after { frames.new ≡ found_left (by_section section.now relocations.now kind) machine.now file.now pc stack functions.now frames.old }
{
    let from = Section {
        bytes: section,
        relocations,
        kind,
    };
    found_stored(walked(machine, file, from, pc, stack, functions), frames)
}
