// The packed word of Windows' unwind data on ARM64: its fields, whether the page defines it, and the codes of the prologue and epilogue that it stands for.
#![tactic(auto)]

ghost use Rattle.std.specs.Prelude.{◌≡◌, true, [], ◌∷◌, ◌+◌, ◌*◌, ◌≤◌, ◌<◌, length};
ghost use Rattle.format.proofs.Asked.{option_of};
ghost use Rattle.format.proofs.Wrote.{Wrote};
ghost use Rattle.arm64.specs.Lists.{code_stride, code_numbers};
ghost use Rattle.arm64.specs.Packed.{packed_of, integer_size, vector_count, saved_size, local_size, chain_ok, packed_ok, lone, integer_pair, integer_odd, integer_slot, vector_pair, vector_slot, alloc_slot, rest_slot, chain_slot, local_slot, slot, slots_from, undone, slot_at};
ghost use Rattle.arm64_packed.specs.Fields.{Small};

use arm64::{Code, Packed, Part, packed_bits};

// A packed word: no field is above what its bits hold.
#[derive(Clone, Copy)]
pub struct Word {
    pub fields: Packed,
    pub ghost small: { Small fields },
}

impl Word {
    // ---- the fields

    #[tactic(auto, unfolding(arm64::specs::Packed::packed_of, format::specs::Prelude::pick))]
    pub fn of(w: u64) -> Word
        requires { w < 4294967296 }
        ensures { result.fields ≡ packed_of w }
    {
        let fields = Packed {
            flag: w % packed_bits::LENGTH,
            length: w / packed_bits::LENGTH % 2048,
            vectors: w / packed_bits::VECTORS % 8,
            registers: w / packed_bits::REGISTERS % 16,
            homes: w / packed_bits::HOMES % 2,
            chain: w / packed_bits::CHAIN % 4,
            frame: w / packed_bits::FRAME,
        };
        Word { fields }
    }

    // Bytes of integer registers, lr among them where CR is 1.
    #[tactic(auto, unfolding(arm64::specs::Packed::integer_size, arm64::specs::Packed::saves_lr, format::specs::Prelude::pick))]
    fn integer_size(self) -> u64
        ensures { (result ≡ integer_size self.fields) × (result ≤ 128) }
    {
        8 * self.fields.registers + 8 * u64::from(self.fields.chain == 1)
    }

    #[tactic(auto, unfolding(arm64::specs::Packed::vector_count, format::specs::Prelude::pick))]
    fn vector_count(self) -> u64
        ensures { (result ≡ vector_count self.fields) × (result ≤ 8) }
    {
        if self.fields.vectors == 0 {
            0
        } else {
            self.fields.vectors + 1
        }
    }

    #[tactic(auto, unfolding(arm64::specs::Packed::saved_size, format::specs::Prelude::pick))]
    fn saved_size(self) -> u64
        ensures { result ≡ saved_size self.fields }
    {
        (self.integer_size() + 8 * self.vector_count() + 64 * self.fields.homes + 15) / 16 * 16
    }

    #[tactic(auto, unfolding(arm64::specs::Packed::local_size, format::specs::Prelude::pick))]
    fn local_size(self) -> u64
        ensures { result ≡ local_size self.fields }
    {
        (16 * self.fields.frame).saturating_sub(self.saved_size())
    }

    // ---- the places of the prologue

    #[tactic(auto, unfolding(arm64::specs::Packed::lone, format::specs::Prelude::pick))]
    fn lone(self, j: u64, register: u64) -> Code
        requires { j < 6 }
        ensures { result ≡ lone self.fields j register }
    {
        if j == 0 {
            return Code::new(arm64::REG_X, register, self.saved_size());
        }
        Code::new(arm64::REG, register, 16 * j)
    }

    #[tactic(auto, unfolding(arm64::specs::Packed::integer_pair, format::specs::Prelude::pick))]
    fn integer_pair(self, j: u64) -> Code
        requires { j < 6 }
        ensures { result ≡ integer_pair self.fields j }
    {
        if j == 0 {
            return Code::new(arm64::R19R20X, 0, self.saved_size());
        }
        Code::new(arm64::REGP, 19 + 2 * j, 16 * j)
    }

    #[tactic(auto, unfolding(arm64::specs::Packed::integer_odd, format::specs::Prelude::pick))]
    fn integer_odd(self, j: u64) -> Code
        requires { j < 6 }
        ensures { result ≡ integer_odd self.fields j }
    {
        if self.fields.chain == 1 {
            return Code::new(arm64::LRPAIR, 19 + 2 * j, 16 * j);
        }
        self.lone(j, 19 + 2 * j)
    }

    #[tactic(auto, unfolding(arm64::specs::Packed::integer_slot, format::specs::Prelude::pick))]
    fn integer_slot(self, j: u64) -> Option<Code>
        requires { j < 6 }
        ensures { result ≡ option_of (integer_slot self.fields j) }
    {
        if 2 * j + 1 < self.fields.registers {
            return Some(self.integer_pair(j));
        }
        if 2 * j + 1 == self.fields.registers {
            return Some(self.integer_odd(j));
        }
        if 2 * j == self.fields.registers && self.fields.chain == 1 {
            return Some(self.lone(j, 30));
        }
        None
    }

    #[tactic(auto, unfolding(arm64::specs::Packed::vector_pair, format::specs::Prelude::pick))]
    fn vector_pair(self, j: u64) -> Code
        requires { j < 4 }
        ensures { result ≡ vector_pair self.fields j }
    {
        let n = self.integer_size();
        if n + j == 0 {
            return Code::new(arm64::FREGP_X, 8, self.saved_size());
        }
        Code::new(arm64::FREGP, 8 + 2 * j, n + 16 * j)
    }

    #[tactic(auto, unfolding(arm64::specs::Packed::vector_slot, format::specs::Prelude::pick))]
    fn vector_slot(self, j: u64) -> Option<Code>
        requires { j < 4 }
        ensures { result ≡ option_of (vector_slot self.fields j) }
    {
        let n = self.vector_count();
        if 2 * j + 1 < n {
            return Some(self.vector_pair(j));
        }
        if 2 * j + 1 == n {
            return Some(Code::new(arm64::FREG, 8 + 2 * j, self.integer_size() + 16 * j));
        }
        None
    }

    // One instruction takes 4,080 bytes at most, and the frame record of CR 2 and 3 up to 512 itself.
    #[tactic(auto, unfolding(arm64::specs::Packed::alloc_slot, format::specs::Prelude::pick))]
    fn alloc_slot(self) -> Option<Code>
        ensures { result ≡ option_of (alloc_slot self.fields) }
    {
        let n = self.local_size();
        let taken = if 2 <= self.fields.chain { 512 } else { 0 };
        (taken < n).then_some(Code::new(arm64::ALLOC, 0, n.min(4080)))
    }

    #[tactic(auto, unfolding(arm64::specs::Packed::rest_slot, format::specs::Prelude::pick))]
    fn rest_slot(self) -> Option<Code>
        ensures { result ≡ option_of (rest_slot self.fields) }
    {
        let rest = self.local_size().saturating_sub(4080);
        (rest != 0).then_some(Code::new(arm64::ALLOC, 0, rest))
    }

    #[tactic(auto, unfolding(arm64::specs::Packed::chain_slot, format::specs::Prelude::pick))]
    fn chain_slot(self) -> Option<Code>
        ensures { result ≡ option_of (chain_slot self.fields) }
    {
        if self.fields.chain < 2 {
            return None;
        }
        let n = self.local_size();
        if n <= 512 {
            return Some(Code::new(arm64::FPLR_X, 0, n));
        }
        Some(Code::new(arm64::FPLR, 0, 0))
    }

    #[tactic(auto, unfolding(arm64::specs::Packed::local_slot, arm64::specs::Packed::frame_slot, format::specs::Prelude::pick))]
    fn local_slot(self, j: u64) -> Option<Code>
        ensures { result ≡ option_of (local_slot self.fields j) }
    {
        match j {
            0 => self.alloc_slot(),
            1 => self.rest_slot(),
            2 => self.chain_slot(),
            _ => (2 <= self.fields.chain).then_some(Code::new(arm64::SET_FP, 0, 0)),
        }
    }

    #[tactic(auto, unfolding(arm64::specs::Packed::slot, arm64::specs::Packed::sign_slot, arm64::specs::Packed::home_slot, format::specs::Prelude::pick))]
    fn slot(self, i: u64) -> Option<Code>
        requires { i < 19 }
        ensures { result ≡ option_of (slot self.fields i) }
    {
        match i {
            0 => (self.fields.chain == 2).then_some(Code::new(arm64::PAC_SIGN_LR, 0, 0)),
            1..=6 => self.integer_slot(i - 1),
            7..=10 => self.vector_slot(i - 7),
            11..=14 => (self.fields.homes == 1).then_some(Code::new(arm64::NOP, 0, 0)),
            _ => self.local_slot(i - 15),
        }
    }

    // ---- the prologue and the epilogue

    // Place i of the prologue or of the epilogue, which undoes it backwards but for homing and the setting of the frame pointer.
    #[tactic(auto, unfolding(arm64::specs::Packed::slot_at, arm64::specs::Packed::undone, format::specs::Prelude::pick))]
    pub fn slot_at(self, part: Part, i: u64) -> Option<Code>
        requires { i < 19 }
        ensures { result ≡ option_of (slot_at part self.fields i) }
    {
        match part {
            Part::Prologue => self.slot(i),
            Part::Epilogue => {
                self.slot(18 - i)
                    .filter(|c| c.kind != arm64::NOP && c.kind != arm64::SET_FP)
            }
        }
    }

    // How many codes the prologue has or the epilogue.
    pub fn count_slots(self, part: Part) -> usize
        ensures { (result ≡ length (slots_from (slot_at part self.fields) 0 19)) × (result ≤ 19) }
    {
        (0..19).filter_map(|i| self.slot_at(part, i)).count()
    }

    // The prologue's codes or the epilogue's.
    pub fn put_slots(self, out: &mut [u64], at: usize, part: Part) -> usize
        requires { at + code_stride * length (slots_from (slot_at part self.fields) 0 19) ≤ length out.old }
        ensures { Wrote out.old out.new at result (code_numbers (slots_from (slot_at part self.fields) 0 19)) }
    {
        let mut to = at;
        for c in (0..19).filter_map(|i| self.slot_at(part, i)) {
            to = arm64_runs::put_code(out, to, c);
        }
        to
    }

    // ---- words that the page defines

    #[tactic(auto, unfolding(arm64::specs::Packed::chain_ok, format::specs::Prelude::pick))]
    fn chain_ok(self) -> bool
        ensures { result ≡ chain_ok self.fields }
    {
        self.fields.chain < 2 || self.local_size() != 0
    }

    #[tactic(auto, unfolding(arm64::specs::Packed::packed_ok, format::specs::Prelude::pick))]
    pub fn ok(self) -> bool
        ensures { (result ≡ packed_ok self.fields) × (result ≡ true → saved_size self.fields ≤ 16 * self.fields.frame) }
    {
        if 10 < self.fields.registers || 16 * self.fields.frame < self.saved_size() {
            return false;
        }
        if self.fields.chain == 1 {
            return self.fields.registers != 1;
        }
        if self.fields.homes == 1 && self.integer_size() + 8 * self.vector_count() == 0 {
            return false;
        }
        self.chain_ok()
    }
}
