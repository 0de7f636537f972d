// One operation of an entry's.
ghost use Rattle.std.specs.Prelude.{◌≡◌, ◌+◌, ◌^◌, ◌<◌, length};
ghost use Rattle.format.specs.Numbers.{number_of};
ghost use Rattle.parts.specs.Operations.{no_operation, operation_numbers, operation_from, read_operation_at};

use format::{Operation, Question};
use operations::fields::Position;

// The kinds that are no row's.
const NOP: u64 = 16;

const STEP: u64 = 17;

// What unwind_read_operation answers.
// Kept: a number beside the fields, and a kind by its number, since C reads it.
#[repr(C)]
#[derive(Clone, Copy, Default)]
pub struct OperationRead {
    pub number: u64,
    pub kind: u64,
    pub reg: u64,
    pub value: u64,
    pub next: u64,
    pub opcode: u64,
}

#[tactic(auto, unfolding(crate::specs::Operations::no_operation))]
fn refused(question: Question, at: u64, opcode: u64) -> OperationRead
    ensures { result ≡ no_operation (number_of question) at opcode }
{
    OperationRead {
        number: question.number(),
        next: at,
        opcode,
        ..OperationRead::default()
    }
}

#[tactic(auto, unfolding(crate::specs::Operations::operation_numbers))]
fn numbers_of(op: Operation, next: u64, opcode: u64) -> OperationRead
    ensures { result ≡ operation_numbers op next opcode }
{
    match op {
        Operation::Nop => OperationRead {
            kind: NOP,
            next,
            opcode,
            ..OperationRead::default()
        },
        Operation::Step(n) => OperationRead {
            kind: STEP,
            value: n,
            next,
            opcode,
            ..OperationRead::default()
        },
        Operation::Does(row) => OperationRead {
            number: 0,
            kind: rows::kind(row),
            reg: u64::from(rows::register(row)),
            value: rows::offset(row).cast_unsigned(),
            next,
            opcode,
        },
    }
}

// The first operation of some bytes, which stand at `at`.
fn first(bytes: &[u8], at: u64, word: u64) -> OperationRead
    requires { (0 < word) × (0 < length bytes.now) × (at + length bytes.now < 2 ^ 64) }
    ensures { result ≡ operation_from word at bytes.now }
{
    let opcode = u64::from(bytes[0]);
    let Some((op, past)) = operations::operation(bytes, Position::START, word) else {
        return refused(Question::Operations, at, opcode);
    };
    let size = past.at;
    numbers_of(op, at + size as u64, opcode)
}

// One operation of those from `at` to `end`: 0; 11, 62 where there is none left, 66 where none can be read.
#[unsafe(no_mangle)]
pub extern "C" fn unwind_read_operation(
    section: &[u8],
    at: u64,
    end: u64,
    word: u64,
) -> OperationRead
    ensures { result ≡ read_operation_at section.now at end word }
{
    if !numbers::is_word(word) {
        return refused(Question::Interface, at, 0);
    }
    if at == end {
        return refused(Question::Record, at, 0);
    }
    if end < at {
        return refused(Question::Operations, at, 0);
    }
    let from = at as usize;
    let to = end as usize;
    if section.len() < to {
        return refused(Question::Operations, at, 0);
    }
    first(&section[from..to], at, word)
}
