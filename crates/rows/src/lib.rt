// A row out of the lists, written and sized as an operation. Ported from rucc-asm/src/unwind.rs (row, saved, advance) of tamnd/rucc, changed: see NOTICE.
#![tactic(auto)]

ghost use Rattle.std.specs.Prelude.{◌≡◌, [], ◌∷◌, ◌++◌, true, ◌+◌, ◌*◌, ◌%◌, ◌^◌, ◌≤◌, ◌<◌, length, T, eqb, ltb, nat_abs};
ghost use Rattle.std.specs.Int.{w32};
ghost use Rattle.std.specs.Option.{IfSome};
ghost use Rattle.std.proofs.Common.{to_z};
ghost use Rattle.format.specs.Machine.{is_word_size};
ghost use Rattle.format.specs.Lists.{row_stride, field, has_register, second_operands, row_of, row_ok, row_at, row_ok_at};
ghost use Rattle.format.proofs.Wrote.{Wrote};
ghost use Rattle.format.specs.Leb.{little, uleb};
ghost use Rattle.format.specs.Rows.{factor, cfa_bytes, with_register, saved_bytes, row_bytes, step_in, step_form, step_bytes, whole, whole_below, row_whole, kind_of, reg_of, offset_of, same_row};
ghost use Rattle.format.specs.Prelude.{pick};
ghost use Rattle.rows.specs.Forms.{operand_bytes};
ghost use Rattle.rows.specs.Operands.{by_sign, offset_bytes};
ghost use Rattle.rows.specs.Sizes.{short_size, scaled, second_byte, StepSurveyed};

use format::Row;
use numbers::{kinds, opcodes};
use row_numbers::RowNumbers;

pub mod row_numbers;

// A row in a list: how many numbers it has, and where its kind, register and second operand stand behind its offset.
pub const ROW_STRIDE: usize = 4;

pub const ROW_KIND: usize = 1;

pub const ROW_REGISTER: usize = 2;

pub const ROW_OPERAND: usize = 3;

// A register has 16 bits and an offset 32, in two's complement: NEGATIVE is the first that is below 0.
pub const REGISTERS: u64 = 65536;

const OFFSETS: u64 = 4294967296;

const NEGATIVE: u64 = 2147483648;

// A step has 32 bits.
pub const STEPS: u64 = 4294967296;

// What an opcode holds in its low six bits at most: a step, or a register.
const MOST_IN_OPCODE: u64 = 0x3f;

const MOST_REGISTER_IN_OPCODE: u16 = 0x3f;

// A number below these has one byte in ULEB128, or two.
const ONE_BYTE: u64 = 128;

const TWO_BYTES: u64 = 16384;

// ---- a row out of the lists

// Kept: each public function here takes a list and a row's place and says itself that the row lies in the list: a struct of both would ask more of
// its callers by type.

// The offset of row i.
pub fn offset_at(rows: &[u64], i: usize) -> u64
    requires { row_stride * i + row_stride ≤ length rows.now }
    ensures { result ≡ field row_stride rows.now i 0 }
{
    rows[ROW_STRIDE * i]
}

// The number whose 32 bits, in two's complement, are x.
fn signed32(x: u64) -> i64
    requires { x < 2 ^ 32 }
    ensures { result ≡ to_z w32 x }
{
    i64::from((x as u32).cast_signed())
}

// Row i.
pub fn row_at(rows: &[u64], i: usize) -> Row
    requires { (row_stride * i + row_stride ≤ length rows.now) × T (row_ok_at rows.now i) }
    ensures { result ≡ (row_at rows.now i).1 }
{
    RowNumbers::at(rows, i).row()
}

// How many registers and how many second operands a kind may name.
// Kept: kinds by number, here and in `short_size` and `RowNumbers`. One test against the last kind bounds it; an enum would be made by a match of
// eleven arms for each row that is asked, and matched again where it is used.
#[tactic(auto, unfolding(format::specs::Lists::has_register, format::specs::Prelude::pick))]
fn registers(kind: u64) -> u64
    ensures { result ≡ pick (has_register kind) 65536 1 }
{
    match kind {
        kinds::DEF_CFA => REGISTERS,
        kinds::DEF_CFA_REGISTER => REGISTERS,
        kinds::OFFSET => REGISTERS,
        kinds::RESTORE => REGISTERS,
        kinds::UNDEFINED => REGISTERS,
        kinds::SAME_VALUE => REGISTERS,
        kinds::IN_REGISTER => REGISTERS,
        _ => 1,
    }
}

// Every kind has an arm, and no kind another number, so that the compiler makes a table of them and no jumps.
#[tactic(auto, unfolding(format::specs::Lists::second_operands, format::specs::Lists::has_offset, format::specs::Prelude::pick))]
fn second_operands(kind: u64) -> u64
    requires { kind ≤ 10 }
    ensures { result ≡ second_operands kind }
{
    match kind {
        kinds::DEF_CFA => OFFSETS,
        kinds::DEF_CFA_OFFSET => OFFSETS,
        kinds::DEF_CFA_REGISTER => 1,
        kinds::OFFSET => OFFSETS,
        kinds::RESTORE => 1,
        kinds::UNDEFINED => 1,
        kinds::REMEMBER_STATE => 1,
        kinds::RESTORE_STATE => 1,
        kinds::NEGATE_RA_STATE => 1,
        kinds::SAME_VALUE => 1,
        kinds::IN_REGISTER => REGISTERS,
        _ => 0,
    }
}

// The three numbers behind the offset of row i are a row.
#[tactic(auto, unfolding(format::specs::Lists::row_ok_at, format::specs::Lists::row_ok))]
pub fn row_ok(rows: &[u64], i: usize) -> bool
    requires { row_stride * i + row_stride ≤ length rows.now }
    ensures { result ≡ row_ok_at rows.now i }
{
    let kind = rows[ROW_STRIDE * i + ROW_KIND];
    if kinds::IN_REGISTER < kind {
        return false;
    }
    if registers(kind) <= rows[ROW_STRIDE * i + ROW_REGISTER] {
        return false;
    }
    rows[ROW_STRIDE * i + ROW_OPERAND] < second_operands(kind)
}

// ---- questions of one row

// z without its sign.
// Kept: `unsigned_abs` by a name of this crate, since the function is public (owners calls it); the rows' own question calls the method.
pub fn size(z: i64) -> u64
    ensures { (result ≡ nat_abs z) × (result ≤ 2 ^ 63) }
{
    z.unsigned_abs()
}

// A multiple of the word.
// Kept: a number, and no Word, in the four functions up to `row_whole`: that is public and takes any word but 0, where a Word has 2 to 8 bytes (D124).
#[tactic(auto, unfolding(format::specs::Rows::whole))]
fn multiple(word: u64, z: i64) -> bool
    requires { 0 < word }
    ensures { result ≡ whole word z }
{
    z.unsigned_abs() % word == 0
}

// The same; by 8 without a division.
fn whole(word: u64, z: i64) -> bool
    requires { 0 < word }
    ensures { result ≡ whole word z }
{
    if word == 8 {
        return multiple(8, z);
    }
    multiple(word, z)
}

#[tactic(auto, unfolding(format::specs::Rows::whole_below))]
fn whole_below(word: u64, z: i64) -> bool
    requires { 0 < word }
    ensures { result ≡ whole_below word z }
{
    if z < 0 {
        return whole(word, z);
    }
    true
}

// Question 24 of one row: an offset that is written factored is a multiple of the word.
#[tactic(auto, unfolding(format::specs::Rows::row_whole))]
pub fn row_whole(word: u64, r: Row) -> bool
    requires { 0 < word }
    ensures { result ≡ row_whole word r }
{
    match r {
        Row::DefCfa(_, z) => whole_below(word, z),
        Row::DefCfaOffset(z) => whole_below(word, z),
        Row::Offset(_, z) => whole(word, z),
        Row::DefCfaRegister(_) => true,
        Row::Restore(_) => true,
        Row::Undefined(_) => true,
        Row::RememberState => true,
        Row::RestoreState => true,
        Row::NegateRaState => true,
        Row::SameValue(_) => true,
        Row::InRegister(_, _) => true,
    }
}

// A multiple of the word, without a division by a variable.
#[tactic(auto, unfolding(format::specs::Machine::is_word_size))]
fn in_words(word: u64, off: u64) -> bool
    requires { T (is_word_size word) }
    ensures { result ≡ eqb (off % word) 0 }
{
    if word == 8 {
        return off % 8 == 0;
    }
    if word == 4 {
        return off % 4 == 0;
    }
    off % 2 == 0
}

// A row's kind, register (or 0) and second operand (or 0).
#[tactic(auto, unfolding(format::specs::Rows::kind_of))]
pub fn kind(r: Row) -> u64
    ensures { result ≡ kind_of r }
{
    match r {
        Row::DefCfa(_, _) => kinds::DEF_CFA,
        Row::DefCfaOffset(_) => kinds::DEF_CFA_OFFSET,
        Row::DefCfaRegister(_) => kinds::DEF_CFA_REGISTER,
        Row::Offset(_, _) => kinds::OFFSET,
        Row::Restore(_) => kinds::RESTORE,
        Row::Undefined(_) => kinds::UNDEFINED,
        Row::RememberState => kinds::REMEMBER_STATE,
        Row::RestoreState => kinds::RESTORE_STATE,
        Row::NegateRaState => kinds::NEGATE_RA_STATE,
        Row::SameValue(_) => kinds::SAME_VALUE,
        Row::InRegister(_, _) => kinds::IN_REGISTER,
    }
}

#[tactic(auto, unfolding(format::specs::Rows::reg_of))]
pub fn register(r: Row) -> u16
    ensures { result ≡ reg_of r }
{
    match r {
        Row::DefCfa(reg, _) => reg,
        Row::DefCfaOffset(_) => 0,
        Row::DefCfaRegister(reg) => reg,
        Row::Offset(reg, _) => reg,
        Row::Restore(reg) => reg,
        Row::Undefined(reg) => reg,
        Row::RememberState => 0,
        Row::RestoreState => 0,
        Row::NegateRaState => 0,
        Row::SameValue(reg) => reg,
        Row::InRegister(reg, _) => reg,
    }
}

#[tactic(auto, unfolding(format::specs::Rows::offset_of))]
pub fn offset(r: Row) -> i64
    ensures { result ≡ offset_of r }
{
    match r {
        Row::DefCfa(_, z) => z,
        Row::DefCfaOffset(z) => z,
        Row::DefCfaRegister(_) => 0,
        Row::Offset(_, z) => z,
        Row::Restore(_) => 0,
        Row::Undefined(_) => 0,
        Row::RememberState => 0,
        Row::RestoreState => 0,
        Row::NegateRaState => 0,
        Row::SameValue(_) => 0,
        Row::InRegister(_, other) => i64::from(other),
    }
}

// ---- a row written, and its size

// A machine's word, by its bytes.
#[derive(Clone, Copy)]
pub struct Word {
    pub bytes: u64,
    pub ghost small: { (2 ≤ bytes) × (bytes ≤ 8) },
}

// Kept: a writer's buffer and place stand as in leb.

// An offset divided by minus the word.
fn factored(word: Word, z: i64) -> i64
    ensures { result ≡ factor word.bytes z }
{
    z / (0 - word.bytes as i64)
}

// One opcode or the other, by the offset's sign.
#[tactic(auto, unfolding(crate::specs::Operands::by_sign))]
fn by_sign(plain: u8, signed: u8, z: i64) -> u8
    ensures { result ≡ by_sign plain signed z }
{
    if z < 0 {
        return signed;
    }
    plain
}

// The offset of a frame address: plain, or signed and factored where it is negative.
fn frame_offset(out: &mut [u8], at: usize, word: Word, z: i64) -> usize
    requires { at + length (offset_bytes word.bytes z) ≤ length out.old }
    ensures { Wrote out.old out.new at result (offset_bytes word.bytes z) }
{
    if z < 0 {
        return leb::sleb(out, at, factored(word, z));
    }
    leb::uleb(out, at, z as u64)
}

fn frame_offset_size(word: Word, z: i64) -> usize
    ensures { result ≡ length (offset_bytes word.bytes z) }
{
    if z < 0 {
        return leb::sleb_size(factored(word, z));
    }
    leb::uleb_size(z as u64)
}

// DW_CFA_def_cfa and DW_CFA_def_cfa_offset.
fn def_cfa(out: &mut [u8], at: usize, word: Word, reg: u16, z: i64) -> usize
    requires { at + length (cfa_bytes word.bytes 0x0c 0x12 (uleb reg) z) ≤ length out.old }
    ensures { Wrote out.old out.new at result (cfa_bytes word.bytes 0x0c 0x12 (uleb reg) z) }
{
    let a = leb::byte(
        out,
        at,
        by_sign(opcodes::DW_CFA_DEF_CFA, opcodes::DW_CFA_DEF_CFA_SF, z),
    );
    let b = leb::uleb(out, a, u64::from(reg));
    frame_offset(out, b, word, z)
}

fn def_cfa_offset(out: &mut [u8], at: usize, word: Word, z: i64) -> usize
    requires { at + length (cfa_bytes word.bytes 0x0e 0x13 [] z) ≤ length out.old }
    ensures { Wrote out.old out.new at result (cfa_bytes word.bytes 0x0e 0x13 [] z) }
{
    let a = leb::byte(
        out,
        at,
        by_sign(
            opcodes::DW_CFA_DEF_CFA_OFFSET,
            opcodes::DW_CFA_DEF_CFA_OFFSET_SF,
            z,
        ),
    );
    frame_offset(out, a, word, z)
}

// An opcode with its register: to 63 inside it, else behind the long form.
fn opcode(out: &mut [u8], at: usize, short: u8, long: u8, reg: u16) -> usize
    requires { (short ≤ 192) × (at + length (with_register short long reg []) ≤ length out.old) }
    ensures { Wrote out.old out.new at result (with_register short long reg []) }
{
    if reg <= MOST_REGISTER_IN_OPCODE {
        return leb::byte(out, at, short + reg as u8);
    }
    let a = leb::byte(out, at, long);
    leb::uleb(out, a, u64::from(reg))
}

fn opcode_size(reg: u16) -> usize
    ensures { result ≡ length (with_register 0 0 reg []) }
{
    if MOST_REGISTER_IN_OPCODE < reg {
        return 1 + leb::uleb_size(u64::from(reg));
    }
    1
}

// An opcode with its register behind it.
fn named(out: &mut [u8], at: usize, code: u8, reg: u16) -> usize
    requires { at + 1 + length (uleb reg) ≤ length out.old }
    ensures { Wrote out.old out.new at result (code ∷ uleb reg) }
{
    let a = leb::byte(out, at, code);
    leb::uleb(out, a, u64::from(reg))
}

// A register whose value is in another one.
fn in_register(out: &mut [u8], at: usize, reg: u16, other: u16) -> usize
    requires { at + 1 + length (uleb reg) + length (uleb other) ≤ length out.old }
    ensures { Wrote out.old out.new at result (0x09 ∷ (uleb reg ++ uleb other)) }
{
    let a = named(out, at, opcodes::DW_CFA_REGISTER, reg);
    leb::uleb(out, a, u64::from(other))
}

// A register saved at an offset that is factored already.
pub fn saved(out: &mut [u8], at: usize, reg: u16, z: i64) -> usize
    requires { at + length (saved_bytes reg z) ≤ length out.old }
    ensures { Wrote out.old out.new at result (saved_bytes reg z) }
{
    if z < 0 {
        let a = named(out, at, opcodes::DW_CFA_OFFSET_EXTENDED_SF, reg);
        return leb::sleb(out, a, z);
    }
    let a = opcode(
        out,
        at,
        opcodes::DW_CFA_OFFSET,
        opcodes::DW_CFA_OFFSET_EXTENDED,
        reg,
    );
    leb::uleb(out, a, z as u64)
}

pub fn saved_size(reg: u16, z: i64) -> usize
    ensures { result ≡ length (saved_bytes reg z) }
{
    if z < 0 {
        return 1 + leb::uleb_size(u64::from(reg)) + leb::sleb_size(z);
    }
    opcode_size(reg) + leb::uleb_size(z as u64)
}

// A row's operation.
pub fn row(out: &mut [u8], at: usize, word: Word, r: Row) -> usize
    requires { at + length (row_bytes word.bytes r) ≤ length out.old }
    ensures { Wrote out.old out.new at result (row_bytes word.bytes r) }
{
    match r {
        Row::DefCfa(reg, z) => def_cfa(out, at, word, reg, z),
        Row::DefCfaOffset(z) => def_cfa_offset(out, at, word, z),
        Row::DefCfaRegister(reg) => named(out, at, opcodes::DW_CFA_DEF_CFA_REGISTER, reg),
        Row::Offset(reg, z) => saved(out, at, reg, factored(word, z)),
        Row::Restore(reg) => opcode(
            out,
            at,
            opcodes::DW_CFA_RESTORE,
            opcodes::DW_CFA_RESTORE_EXTENDED,
            reg,
        ),
        Row::Undefined(reg) => named(out, at, opcodes::DW_CFA_UNDEFINED, reg),
        Row::RememberState => leb::byte(out, at, opcodes::DW_CFA_REMEMBER_STATE),
        Row::RestoreState => leb::byte(out, at, opcodes::DW_CFA_RESTORE_STATE),
        Row::NegateRaState => leb::byte(out, at, opcodes::DW_CFA_AARCH64_NEGATE_RA_STATE),
        Row::SameValue(reg) => named(out, at, opcodes::DW_CFA_SAME_VALUE, reg),
        Row::InRegister(reg, other) => in_register(out, at, reg, other),
    }
}

pub fn row_size(word: Word, r: Row) -> usize
    ensures { result ≡ length (row_bytes word.bytes r) }
{
    match r {
        Row::DefCfa(reg, z) => 1 + leb::uleb_size(u64::from(reg)) + frame_offset_size(word, z),
        Row::DefCfaOffset(z) => 1 + frame_offset_size(word, z),
        Row::DefCfaRegister(reg) => 1 + leb::uleb_size(u64::from(reg)),
        Row::Offset(reg, z) => saved_size(reg, factored(word, z)),
        Row::Restore(reg) => opcode_size(reg),
        Row::Undefined(reg) => 1 + leb::uleb_size(u64::from(reg)),
        Row::RememberState => 1,
        Row::RestoreState => 1,
        Row::NegateRaState => 1,
        Row::SameValue(reg) => 1 + leb::uleb_size(u64::from(reg)),
        Row::InRegister(reg, other) => 1
            + leb::uleb_size(u64::from(reg))
            + leb::uleb_size(u64::from(other)),
    }
}

// The size of an operation whose operands are a byte each, by kind. The arms are as those of `second_operands`.
#[tactic(auto, unfolding(crate::specs::Sizes::short_size))]
fn short_size(kind: u64) -> usize
    requires { kind ≤ 10 }
    ensures { (result ≡ short_size kind) × (result ≤ 3) }
{
    match kind {
        kinds::DEF_CFA => 3,
        kinds::DEF_CFA_OFFSET => 2,
        kinds::DEF_CFA_REGISTER => 2,
        kinds::OFFSET => 2,
        kinds::RESTORE => 1,
        kinds::UNDEFINED => 2,
        kinds::REMEMBER_STATE => 1,
        kinds::RESTORE_STATE => 1,
        kinds::NEGATE_RA_STATE => 1,
        kinds::SAME_VALUE => 2,
        kinds::IN_REGISTER => 3,
        _ => 0,
    }
}

// The word times the second operand that is written: a saved register's offset is divided by minus the word.
#[tactic(auto, unfolding(crate::specs::Sizes::scaled, format::specs::Prelude::pick))]
fn scaled(word: u64, kind: u64, off: u64) -> u64
    requires { (word ≤ 8) × (off < 2 ^ 32) }
    ensures { result ≡ scaled word kind off }
{
    if kind == kinds::OFFSET {
        return (OFFSETS - off) % OFFSETS;
    }
    off * word
}

// The second byte of a second operand that has two at most.
#[tactic(auto, unfolding(crate::specs::Sizes::second_byte, format::specs::Prelude::pick))]
fn second_byte(word: u64, y: u64) -> usize
    requires { word ≤ 8 }
    ensures { (result ≡ second_byte word y) × (result ≤ 1) }
{
    if y < ONE_BYTE * word {
        return 0;
    }
    1
}

// ---- a row asked and sized at once

// The size of row i's operation, where the row passes questions 13 and 24. None says nothing.
pub fn surveyed(word: u64, rows: &[u64], i: usize) -> Option<usize>
    requires { T (is_word_size word) × (row_stride * i + row_stride ≤ length rows.now) }
    ensures { IfSome result (λ n. T (row_ok_at rows.now i) × (row_whole word (row_at rows.now i).1 ≡ true) × (n ≡ length (row_bytes word (row_at rows.now i).1))) }
{
    if !row_ok(rows, i) {
        return None;
    }
    let numbers = RowNumbers::at(rows, i);
    if !numbers.surely_whole(word) {
        return None;
    }
    Some(numbers.size(Word { bytes: word }))
}

// ---- a step written, and its size

// The forms of a step: inside the opcode, or as an operand of so many bytes behind it.
#[derive(Clone, Copy, PartialEq, Eq)]
pub enum StepForm {
    InOpcode = 0,
    OneByte = 1,
    TwoBytes = 2,
    FourBytes = 4,
}

impl StepForm {
    ghost use Rattle.rows.specs.Forms.{operand_bytes};

    // How many bytes of operand it has.
    pub fn operand_bytes(self) -> usize
        ensures { result ≡ operand_bytes self }
    {
        self as usize
    }
}

// Of any other number than 0, 1 and 2 the form is that of four bytes.
impl From<u64> for StepForm {
    ghost use Rattle.std.specs.Prelude.{◌≡◌};
    ghost use Rattle.format.specs.Rows.{step_in};
    ghost use Rattle.rows.specs.Forms.{operand_bytes, Meant};

    ghost from_gives = { Meant };

    fn from(form: u64) -> StepForm {
        match form {
            0 => StepForm::InOpcode,
            1 => StepForm::OneByte,
            2 => StepForm::TwoBytes,
            _ => StepForm::FourBytes,
        }
    }
}

// The shortest form of a step.
#[tactic(auto, unfolding(format::specs::Rows::step_form, format::specs::Prelude::pick))]
pub fn step_form(by: u64) -> StepForm
    ensures { operand_bytes result ≡ step_form by }
{
    if by <= MOST_IN_OPCODE {
        return StepForm::InOpcode;
    }
    if by <= 0xff {
        return StepForm::OneByte;
    }
    if by <= 0xffff {
        return StepForm::TwoBytes;
    }
    StepForm::FourBytes
}

// A step behind its opcode, as an operand of n bytes.
fn step_behind(out: &mut [u8], at: usize, opcode: u8, n: usize, by: u64) -> usize
    requires { at + 1 + n ≤ length out.old }
    ensures { Wrote out.old out.new at result (opcode ∷ little n by) }
{
    let a = leb::byte(out, at, opcode);
    leb::le(out, a, n, by)
}

// A step in a given form. The form without operand holds 63 at most.
#[tactic(auto, unfolding(format::specs::Rows::step_in))]
fn step_as(out: &mut [u8], at: usize, form: StepForm, by: u64) -> usize
    requires { (operand_bytes form ≡ 0 → by ≤ 0x3f) × (at + length (step_in (operand_bytes form) by) ≤ length out.old) }
    ensures { Wrote out.old out.new at result (step_in (operand_bytes form) by) }
{
    match form {
        StepForm::InOpcode => leb::byte(out, at, opcodes::DW_CFA_ADVANCE_LOC + by as u8),
        StepForm::OneByte => step_behind(out, at, opcodes::DW_CFA_ADVANCE_LOC1, 1, by),
        StepForm::TwoBytes => step_behind(out, at, opcodes::DW_CFA_ADVANCE_LOC2, 2, by),
        StepForm::FourBytes => step_behind(out, at, opcodes::DW_CFA_ADVANCE_LOC4, 4, by),
    }
}

// The same of a form by how many bytes of operand it has.
// Kept: a number, and no StepForm, since a public function asks no more than it did.
pub fn step_in(out: &mut [u8], at: usize, form: u64, by: u64) -> usize
    requires { (form ≡ 0 → by ≤ 0x3f) × (at + length (step_in form by) ≤ length out.old) }
    ensures { Wrote out.old out.new at result (step_in form by) }
{
    step_as(out, at, StepForm::from(form), by)
}

// A step in its shortest form; a step of 0 is nothing.
pub fn advance(out: &mut [u8], at: usize, by: u64) -> usize
    requires { at + length (step_bytes by) ≤ length out.old }
    ensures { Wrote out.old out.new at result (step_bytes by) }
{
    if by == 0 {
        return at;
    }
    step_as(out, at, step_form(by), by)
}

pub fn advance_size(by: u64) -> usize
    ensures { result ≡ length (step_bytes by) }
{
    if by == 0 {
        return 0;
    }
    1 + step_form(by).operand_bytes()
}

// A step of so many bytes has 32 bits.
pub fn step_ok(by: u64) -> bool
    ensures { result ≡ ltb by (2 ^ 32) }
{
    by < STEPS
}

// The size of a step that passes question 23. Most steps have a byte.
pub fn step_surveyed(by: u64) -> Option<usize>
    ensures { StepSurveyed by result }
{
    if by <= MOST_IN_OPCODE {
        if by == 0 {
            return Some(0);
        }
        return Some(1);
    }
    if !step_ok(by) {
        return None;
    }
    Some(advance_size(by))
}
