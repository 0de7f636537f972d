// A row by its numbers in the list: asked, written and sized without a `Row` between. Ported from rucc-asm/src/unwind.rs (row) of tamnd/rucc, changed: see NOTICE.

ghost use Rattle.std.specs.Prelude.{◌≡◌, true, ◌+◌, ◌*◌, ◌≤◌, length, T};
ghost use Rattle.format.specs.Machine.{is_word_size};
ghost use Rattle.format.specs.Lists.{row_stride, row_ok, row_of, row_at, row_ok_at};
ghost use Rattle.format.specs.Rows.{row_bytes, row_whole};
ghost use Rattle.format.proofs.Wrote.{Wrote};

use crate::{ROW_KIND, ROW_OPERAND, ROW_REGISTER, ROW_STRIDE, Word};
use format::Row;
use numbers::{kinds, opcodes};

// What a row has in the list behind its offset, which make a row. An operand is an offset, in two's complement, or another register.
#[derive(Clone, Copy)]
pub struct RowNumbers {
    kind: u64,
    register: u64,
    operand: u64,
    ghost ok: { T (row_ok kind register operand) },
}

impl RowNumbers {
    ghost use Rattle.rows.specs.Meanings.{means};

    // Those of row i.
    #[tactic(auto, unfolding(format::specs::Lists::row_at, format::specs::Lists::row_ok_at))]
    pub fn at(rows: &[u64], i: usize) -> RowNumbers
        requires { (row_stride * i + row_stride ≤ length rows.now) × T (row_ok_at rows.now i) }
        ensures { means result ≡ (row_at rows.now i).1 }
    {
        RowNumbers {
            kind: rows[ROW_STRIDE * i + ROW_KIND],
            register: rows[ROW_STRIDE * i + ROW_REGISTER],
            operand: rows[ROW_STRIDE * i + ROW_OPERAND],
        }
    }

    #[tactic(auto, unfolding(format::specs::Lists::row_of, format::specs::Prelude::pick))]
    pub fn row(self) -> Row
        ensures { result ≡ means self }
    {
        let g = self.register as u16;
        let z = crate::signed32(self.operand);
        match self.kind {
            kinds::DEF_CFA => Row::DefCfa(g, z),
            kinds::DEF_CFA_OFFSET => Row::DefCfaOffset(z),
            kinds::DEF_CFA_REGISTER => Row::DefCfaRegister(g),
            kinds::OFFSET => Row::Offset(g, z),
            kinds::RESTORE => Row::Restore(g),
            kinds::UNDEFINED => Row::Undefined(g),
            kinds::REMEMBER_STATE => Row::RememberState,
            kinds::RESTORE_STATE => Row::RestoreState,
            kinds::SAME_VALUE => Row::SameValue(g),
            kinds::IN_REGISTER => Row::InRegister(g, self.operand as u16),
            _ => Row::NegateRaState,
        }
    }

    // Question 24, asked for more: a multiple of the word, or a small offset that is not factored. A no says nothing.
    pub fn surely_whole(self, word: u64) -> bool
        requires { T (is_word_size word) }
        ensures { result ≡ true → row_whole word (means self) ≡ true }
    {
        if crate::in_words(word, self.operand) {
            return true;
        }
        if self.kind == kinds::OFFSET {
            return false;
        }
        self.operand < crate::NEGATIVE
    }

    // The row's operation.
    // Kept: beside `row`. By `row(out, at, word, self.row())` a row is stored, passed on and matched again, 29 instructions more of some 115 for each
    // row (tried); the writer takes some nine tenths of the Rust's time (docs/PERFORMANCE.md), and would take more than all of it.
    // Kept: a writer's buffer and place, as in leb.
    pub fn put(self, out: &mut [u8], at: usize, word: Word) -> usize
        requires { at + length (row_bytes word.bytes (means self)) ≤ length out.old }
        ensures { Wrote out.old out.new at result (row_bytes word.bytes (means self)) }
    {
        let g = self.register as u16;
        let z = crate::signed32(self.operand);
        match self.kind {
            kinds::DEF_CFA => crate::def_cfa(out, at, word, g, z),
            kinds::DEF_CFA_OFFSET => crate::def_cfa_offset(out, at, word, z),
            kinds::DEF_CFA_REGISTER => crate::named(out, at, opcodes::DW_CFA_DEF_CFA_REGISTER, g),
            kinds::OFFSET => crate::saved(out, at, g, crate::factored(word, z)),
            kinds::RESTORE => crate::opcode(
                out,
                at,
                opcodes::DW_CFA_RESTORE,
                opcodes::DW_CFA_RESTORE_EXTENDED,
                g,
            ),
            kinds::UNDEFINED => crate::named(out, at, opcodes::DW_CFA_UNDEFINED, g),
            kinds::REMEMBER_STATE => leb::byte(out, at, opcodes::DW_CFA_REMEMBER_STATE),
            kinds::RESTORE_STATE => leb::byte(out, at, opcodes::DW_CFA_RESTORE_STATE),
            kinds::SAME_VALUE => crate::named(out, at, opcodes::DW_CFA_SAME_VALUE, g),
            kinds::IN_REGISTER => crate::in_register(out, at, g, self.operand as u16),
            _ => leb::byte(out, at, opcodes::DW_CFA_AARCH64_NEGATE_RA_STATE),
        }
    }

    // The size of a row that has a number of more bytes than `size` counts without a jump by kind. It stays a call, so that a row's place on the
    // stack is made ready for these few rows alone.
    #[inline(never)]
    fn size_by_kind(self, word: Word) -> usize
        ensures { result ≡ length (row_bytes word.bytes (means self)) }
    {
        crate::row_size(word, self.row())
    }

    // Its size; without a jump by kind where the register has a byte at most and the second operand two.
    pub fn size(self, word: Word) -> usize
        ensures { result ≡ length (row_bytes word.bytes (means self)) }
    {
        let y = crate::scaled(word.bytes, self.kind, self.operand);
        if crate::MOST_IN_OPCODE < self.register {
            return self.size_by_kind(word);
        }
        if crate::TWO_BYTES * word.bytes <= y {
            return self.size_by_kind(word);
        }
        crate::short_size(self.kind) + crate::second_byte(word.bytes, y)
    }
}
