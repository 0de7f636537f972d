// Whether a packed word stands for a function of Windows on ARM64: the only word that may, and its instructions compared with the given ones. Ported from
// rucc-asm/src/xdata.rs (pack) of tamnd/rucc, changed: see NOTICE.
#![tactic(auto)]

ghost use Rattle.std.specs.Prelude.{◌≡◌, true, false, ◌&&◌, ◌*◌, ◌^◌, ◌≤◌, ◌<◌, eqb, Some, None};
ghost use Rattle.std.specs.Option.{MatchOption};
ghost use Rattle.format.proofs.Asked.{option_of};
ghost use Rattle.format.specs.Prelude.{pick};
ghost use Rattle.format.specs.Lists.{most_records};
ghost use Rattle.arm64.specs.Packed.{packed_ok, slots_from};
ghost use Rattle.arm64.specs.Runs.{no_pair, run_fits, same_codes};
ghost use Rattle.arm64.specs.Packing.{integers_in, vectors_in, down_in, chain_behind, tally, as_fields, candidate, packed_word, fields_hold, stands_for};
ghost use Rattle.arm64_simple.specs.Written.{saved_in, written_in};
ghost use Rattle.arm64_packing.specs.Places.{placed, given};

use arm64::{Code, Packed, Part, packed_bits};
use arm64_packed::Word;
use arm64_simple::Codes;

// ---- what a code counts

#[tactic(auto, unfolding(arm64::specs::Packing::integers_in, format::specs::Prelude::pick))]
fn integers_in(c: Code) -> u64
    ensures { (result ≡ integers_in c) × (result ≤ 2) }
{
    match c.kind {
        arm64::R19R20X | arm64::REGP => 2,
        arm64::LRPAIR => 1,
        arm64::REG | arm64::REG_X if c.register != 30 => 1,
        _ => 0,
    }
}

#[tactic(auto, unfolding(arm64::specs::Packing::vectors_in, format::specs::Prelude::pick))]
fn vectors_in(c: Code) -> u64
    ensures { (result ≡ vectors_in c) × (result ≤ 2) }
{
    match c.kind {
        arm64::FREGP | arm64::FREGP_X => 2,
        arm64::FREG => 1,
        _ => 0,
    }
}

#[tactic(auto, unfolding(arm64::specs::Packing::down_in, format::specs::Prelude::pick))]
fn down_in(c: Code) -> u64
    ensures { result ≡ down_in c }
{
    match c.kind {
        arm64::ALLOC | arm64::R19R20X | arm64::FPLR_X | arm64::REG_X | arm64::FREGP_X => c.offset,
        _ => 0,
    }
}

// ---- the only word that may stand for a prologue

// How a prologue saves lr: CR.
#[derive(Clone, Copy, PartialEq, Eq)]
enum Chain {
    Unchained = 0,
    Saved = 1,
    Signed = 2,
    Recorded = 3,
}

impl Chain {
    ghost use Rattle.arm64_packing.specs.Places.{chain_number};

    fn number(self) -> u64
        ensures { (result ≡ chain_number self) × (result < 4) }
    {
        self as u64
    }

    // Behind the frame record.
    fn recorded(self) -> Chain
        ensures { chain_number result ≡ pick (eqb (chain_number self) 2) 2 3 }
    {
        match self {
            Chain::Signed => Chain::Signed,
            _ => Chain::Recorded,
        }
    }

    // Behind a save of lr.
    fn saved(self) -> Chain
        ensures { chain_number result ≡ pick (eqb (chain_number self) 0) 1 (chain_number self) }
    {
        match self {
            Chain::Unchained => Chain::Saved,
            _ => self,
        }
    }

    #[tactic(auto, unfolding(arm64::specs::Packing::chain_behind, format::specs::Prelude::pick))]
    fn behind(self, c: Code) -> Chain
        ensures { chain_number result ≡ chain_behind (chain_number self) c }
    {
        match c.kind {
            arm64::PAC_SIGN_LR => Chain::Signed,
            arm64::FPLR | arm64::FPLR_X => self.recorded(),
            arm64::LRPAIR => self.saved(),
            arm64::REG | arm64::REG_X if c.register == 30 => self.saved(),
            _ => self,
        }
    }
}

// What the codes of a prologue count so far, of a function of `length` instructions: the frame is in bytes.
#[derive(Clone, Copy)]
struct Counts {
    length: u64,
    vectors: u64,
    registers: u64,
    chain: Chain,
    frame: u64,
}

impl Counts {
    ghost use Rattle.arm64_packing.specs.Places.{counted, Low, Counted};

    // With one code more.
    fn and(self, c: Code) -> Counts
        requires { Low self × (down_in c < 2 ^ 29) }
        ensures { (counted result ≡ tally (counted self) c) × Counted self result }
    {
        Counts {
            vectors: self.vectors + vectors_in(c),
            registers: self.registers + integers_in(c),
            chain: self.chain.behind(c),
            frame: self.frame + down_in(c),
            ..self
        }
    }

    fn as_fields(self) -> Packed
        ensures { (result ≡ as_fields (counted self)) × (result.flag ≡ 1) × (result.homes ≡ 0) × (result.chain < 4) }
    {
        Packed {
            flag: 1,
            length: self.length,
            vectors: self.vectors.saturating_sub(1),
            registers: self.registers,
            homes: 0,
            chain: self.chain.number(),
            frame: self.frame / 16,
        }
    }
}

// One pair goes before a code both as it is written and with its SaveNext resolved.
fn candidate(run: &Codes, size: u64) -> Packed
    requires { (run_fits no_pair (saved_in run.now) ≡ true) × (run.now.run.count ≤ most_records) }
    ensures { (result ≡ candidate size (written_in run.now)) × (result.flag ≡ 1) × (result.homes ≡ 0) × (result.chain < 4) }
{
    let mut counts = Counts {
        length: size,
        vectors: 0,
        registers: 0,
        chain: Chain::Unchained,
        frame: 0,
    };
    for s in run.steps() {
        counts = counts.and(s.resolved());
    }
    counts.as_fields()
}

// ---- whether it does

// A word that holds the fields, where the page defines it.
fn defined(p: Packed) -> Option<Word>
    requires { (p.homes ≡ 0) × (p.chain < 4) }
    ensures { MatchOption result ((fields_hold p && packed_ok p) ≡ false) (λ w. (w.fields ≡ p) × ((fields_hold w.fields && packed_ok w.fields) ≡ true)) }
{
    if 2047 < p.length {
        return None;
    }
    if 7 < p.vectors {
        return None;
    }
    if 511 < p.frame {
        return None;
    }
    if 10 < p.registers {
        return None;
    }
    let w = Word { fields: p };
    if !w.ok() {
        return None;
    }
    Some(w)
}

// A place in the order in which it saves: the prologue's, or what the epilogue undoes of it.
#[tactic(auto, unfolding(crate::specs::Places::placed))]
fn place(part: Part, w: Word, i: u64) -> Option<Code>
    requires { i < 19 }
    ensures { result ≡ option_of (placed part w.fields i) }
{
    match part {
        Part::Prologue => w.slot_at(part, i),
        Part::Epilogue => w.slot_at(part, 18 - i),
    }
}

// Kept: a loop over the places. Tried by the iterators' `eq`: a list of packed functions (differential/arm64_speed.py) took 10 to 15 % longer to write than
// by this loop, which is the bar.
// Whether a run's instructions are those of the word's prologue or of its epilogue.
fn same_places(run: &Codes, part: Part, w: Word) -> bool
    ensures { result ≡ same_codes (given run.now.list.now run.now.run) (slots_from (placed part w.fields) 0 19) }
{
    let mut steps = run.steps();
    'places: for i in 0..19 {
        let Some(d) = place(part, w, i) else {
            continue 'places;
        };
        let Some(s) = steps.next() else {
            return false;
        };
        if s.resolved() != d {
            return false;
        }
    }
    steps.next().is_none()
}

fn packed_word(w: Word) -> u64
    requires { w.fields.flag ≡ 1 }
    ensures { result ≡ packed_word w.fields }
{
    let p = w.fields;
    p.flag
        + packed_bits::LENGTH * p.length
        + packed_bits::VECTORS * p.vectors
        + packed_bits::REGISTERS * p.registers
        + packed_bits::HOMES * p.homes
        + packed_bits::CHAIN * p.chain
        + packed_bits::FRAME * p.frame
}

// The packed word that stands for a function of `size` instructions.
pub fn packed(size: u64, prologue: &Codes, epilogue: &Codes) -> Option<u64>
    requires { (run_fits no_pair (saved_in prologue.now) ≡ true) × (prologue.now.run.count ≤ most_records) }
    ensures { result ≡ pick (stands_for (candidate size (written_in prologue.now)) (written_in prologue.now) (written_in epilogue.now)) (Some (packed_word (candidate size (written_in prologue.now)))) None }
{
    let w = defined(candidate(prologue, size))?;
    if !same_places(prologue, Part::Prologue, w) {
        return None;
    }
    if !same_places(epilogue, Part::Epilogue, w) {
        return None;
    }
    Some(packed_word(w))
}
