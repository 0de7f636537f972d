// Operations read out of a slice: an opcode's operands, by the numbers that the module fields reads, and the row or the step that they
// make.
#![tactic(auto)]

ghost use Rattle.std.specs.Prelude.{ℕ, ◌≡◌, ◌*◌, ◌≤◌, ◌<◌, length, pos};
ghost use Rattle.format.specs.Rows.{unfactor};
ghost use Rattle.format.specs.declared.Row.{Row};
ghost use Rattle.operations.specs.Positions.{operation_at};
ghost use Rattle.operations.specs.Reads.{register_at, plain_at, factored_at, signed_at, held, operand_at, pair_row, step_at, register_row_at, offset_row_at, pair_row_at, in_register_at, saved_at, extended_at};

use crate::fields::{Position, read_le, read_sleb, read_uleb};
use format::{Operation, Row};
use numbers::opcodes;

pub mod fields;

// The bytes that operations stand in, and the word that their offsets are factored by.
#[derive(Clone, Copy)]
struct Operations<'a> {
    bytes: &'a [u8],
    word: u64,
}

// ---- an operation read

// The row of opcode b with a register and an offset.
fn pair_row(b: u8, reg: u16, z: i64) -> Row
    ensures { result ≡ pair_row b reg z }
{
    match b {
        opcodes::DW_CFA_OFFSET_EXTENDED => Row::Offset(reg, z),
        opcodes::DW_CFA_OFFSET_EXTENDED_SF => Row::Offset(reg, z),
        _ => Row::DefCfa(reg, z),
    }
}

impl Operations<'_> {
    // A register, to 65,535.
    fn register_at(&self, at: Position) -> Option<(u16, Position)>
        ensures { result ≡ register_at self.now.bytes.now at }
    {
        let (v, past) = read_uleb(self.bytes, at)?;
        Some((u16::try_from(v).ok()?, past))
    }

    // An offset as it stands.
    fn plain_at(&self, at: Position) -> Option<(i64, Position)>
        ensures { result ≡ plain_at self.now.bytes.now at }
    {
        let (v, past) = read_uleb(self.bytes, at)?;
        Some((i64::try_from(v).ok()?, past))
    }

    // An offset v words below the frame address, where 64 bits hold it.
    fn words_below(&self, v: u64, past: Position) -> Option<(i64, Position)>
        ensures { result ≡ held (unfactor self.now.word (pos v)) past }
    {
        let n = v.checked_mul(self.word)?;
        Some((0i64.checked_sub_unsigned(n)?, past))
    }

    // An offset m words above it.
    fn words_above(&self, m: u64, past: Position) -> Option<(i64, Position)>
        ensures { result ≡ held (pos (m * self.now.word)) past }
    {
        let n = m.checked_mul(self.word)?;
        Some((i64::try_from(n).ok()?, past))
    }

    // A factored offset, unsigned.
    fn factored_at(&self, at: Position) -> Option<(i64, Position)>
        ensures { result ≡ factored_at self.now.word self.now.bytes.now at }
    {
        let (v, past) = read_uleb(self.bytes, at)?;
        self.words_below(v, past)
    }

    // A factored offset, signed.
    fn signed_at(&self, at: Position) -> Option<(i64, Position)>
        ensures { result ≡ signed_at self.now.word self.now.bytes.now at }
    {
        let (z, past) = read_sleb(self.bytes, at)?;
        if z < 0 {
            return self.words_above(z.unsigned_abs(), past);
        }
        self.words_below(z.unsigned_abs(), past)
    }

    // The offset behind opcode b.
    // Kept: a position and an opcode go together to four methods. `Operations` has what is the same in all calls; in a struct with the opcode the
    // position would be taken out again where it is handed on alone, in `operand_at`, `extended_at` and `pair_row_at`, which then makes a second struct
    // for the position of the offset.
    fn operand_at(&self, at: Position, b: u8) -> Option<(i64, Position)>
        ensures { result ≡ operand_at self.now.word b self.now.bytes.now at }
    {
        match b {
            opcodes::DW_CFA_OFFSET_EXTENDED => self.factored_at(at),
            opcodes::DW_CFA_DEF_CFA => self.plain_at(at),
            opcodes::DW_CFA_DEF_CFA_OFFSET => self.plain_at(at),
            _ => self.signed_at(at),
        }
    }

    // A step whose operand has n bytes.
    fn step_at(&self, at: Position, n: usize) -> Option<(Operation, Position)>
        requires { (0 < n) × (n ≤ 8) }
        ensures { result ≡ step_at n self.now.bytes.now at }
    {
        let (v, past) = read_le(self.bytes, at, n)?;
        Some((Operation::Step(v), past))
    }

    // The row that `made` makes of a register.
    fn register_row_at<F: Fn(u16) -> Row>(
        &self,
        at: Position,
        made: F,
    ) -> Option<(Operation, Position)>
        requires { (x : ℕ) → F.pre made x }
        ensures { (of : ℕ → Row) → ((x : ℕ) (v : Row) → F.post made x v → v ≡ of x) → result ≡ register_row_at of self.now.bytes.now at }
    {
        let (reg, past) = self.register_at(at)?;
        Some((Operation::Does(made(reg)), past))
    }

    // Opcode b with an offset.
    fn offset_row_at(&self, at: Position, b: u8) -> Option<(Operation, Position)>
        ensures { result ≡ offset_row_at self.now.word b self.now.bytes.now at }
    {
        let (z, past) = self.operand_at(at, b)?;
        Some((Operation::Does(Row::DefCfaOffset(z)), past))
    }

    // Opcode b with a register and an offset.
    fn pair_row_at(&self, at: Position, b: u8) -> Option<(Operation, Position)>
        ensures { result ≡ pair_row_at self.now.word b self.now.bytes.now at }
    {
        let (reg, next) = self.register_at(at)?;
        let (z, past) = self.operand_at(next, b)?;
        Some((Operation::Does(pair_row(b, reg, z)), past))
    }

    // Two registers: the second holds the value of the first.
    fn in_register_at(&self, at: Position) -> Option<(Operation, Position)>
        ensures { result ≡ in_register_at self.now.bytes.now at }
    {
        let (reg, next) = self.register_at(at)?;
        let (other, past) = self.register_at(next)?;
        Some((Operation::Does(Row::InRegister(reg, other)), past))
    }

    // A saved register whose number was in the opcode.
    #[inline(never)]
    fn saved_at(&self, at: Position, reg: u16) -> Option<(Operation, Position)>
        ensures { result ≡ saved_at self.now.word reg self.now.bytes.now at }
    {
        let (z, past) = self.factored_at(at)?;
        Some((Operation::Does(Row::Offset(reg, z)), past))
    }

    // The operations whose opcode b holds no number, behind it.
    // Kept: an opcode with an offset is matched once more behind it. With a reader of the offset passed as a function the contracts of
    // offset_row_at and pair_row_at would say what it reads, its kind of number and how many bytes it takes at most.
    #[inline(never)]
    fn extended_at(&self, at: Position, b: u8) -> Option<(Operation, Position)>
        requires { at.at ≤ length self.now.bytes.now }
        ensures { result ≡ extended_at self.now.word b self.now.bytes.now at }
    {
        match b {
            opcodes::DW_CFA_NOP => Some((Operation::Nop, at)),
            opcodes::DW_CFA_ADVANCE_LOC1 => self.step_at(at, 1),
            opcodes::DW_CFA_ADVANCE_LOC2 => self.step_at(at, 2),
            opcodes::DW_CFA_ADVANCE_LOC4 => self.step_at(at, 4),
            opcodes::DW_CFA_OFFSET_EXTENDED => self.pair_row_at(at, b),
            opcodes::DW_CFA_RESTORE_EXTENDED => self.register_row_at(at, |reg| Row::Restore(reg)),
            opcodes::DW_CFA_UNDEFINED => self.register_row_at(at, |reg| Row::Undefined(reg)),
            opcodes::DW_CFA_SAME_VALUE => self.register_row_at(at, |reg| Row::SameValue(reg)),
            opcodes::DW_CFA_REGISTER => self.in_register_at(at),
            opcodes::DW_CFA_REMEMBER_STATE => Some((Operation::Does(Row::RememberState), at)),
            opcodes::DW_CFA_RESTORE_STATE => Some((Operation::Does(Row::RestoreState), at)),
            opcodes::DW_CFA_DEF_CFA => self.pair_row_at(at, b),
            opcodes::DW_CFA_DEF_CFA_REGISTER => self.register_row_at(
                at,
                |reg| Row::DefCfaRegister(reg),
            ),
            opcodes::DW_CFA_DEF_CFA_OFFSET => self.offset_row_at(at, b),
            opcodes::DW_CFA_OFFSET_EXTENDED_SF => self.pair_row_at(at, b),
            opcodes::DW_CFA_DEF_CFA_SF => self.pair_row_at(at, b),
            opcodes::DW_CFA_DEF_CFA_OFFSET_SF => self.offset_row_at(at, b),
            opcodes::DW_CFA_AARCH64_NEGATE_RA_STATE => Some((
                Operation::Does(Row::NegateRaState),
                at,
            )),
            _ => None,
        }
    }
}

// The operation at a position. It stands in the readers' loops; what is read behind an opcode is out of line.
#[inline(always)]
pub fn operation(s: &[u8], at: Position, word: u64) -> Option<(Operation, Position)>
    requires { 0 < word }
    ensures { result ≡ operation_at word s.now at }
{
    let from = at.at;
    if s.len() <= from {
        return None;
    }
    let x = Operations { bytes: s, word };
    let b = s[from];
    let behind = Position { at: from + 1, ..at };
    if b < opcodes::DW_CFA_ADVANCE_LOC {
        return x.extended_at(behind, b);
    }
    if b < opcodes::DW_CFA_OFFSET {
        return Some((
            Operation::Step((b - opcodes::DW_CFA_ADVANCE_LOC) as u64),
            behind,
        ));
    }
    if b < opcodes::DW_CFA_RESTORE {
        return x.saved_at(behind, (b - opcodes::DW_CFA_OFFSET) as u16);
    }
    Some((
        Operation::Does(Row::Restore((b - opcodes::DW_CFA_RESTORE) as u16)),
        behind,
    ))
}
