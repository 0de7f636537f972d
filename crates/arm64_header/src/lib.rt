// The header of a full record of Windows' unwind data on ARM64, and the padding of its codes. Ported from rucc-asm/src/xdata.rs (describe) of tamnd/rucc,
// changed: see NOTICE.
#![tactic(auto)]

ghost use Rattle.std.specs.Prelude.{◌≡◌, ◌+◌, ◌*◌, ◌^◌, ◌≤◌, ◌<◌, length, replicate};
ghost use Rattle.format.proofs.Wrote.{Wrote};
ghost use Rattle.arm64.specs.Records.{only_in, count_in};
ghost use Rattle.arm64.specs.Writer.{nop_byte};
ghost use Rattle.arm64_header.specs.Header.{is_long_of, first_word, header_by};

use arm64::{Epilogues, header_bits, limits};

// A full record's header: the length in instructions, the count's field, and the words of codes.
// Kept: beside arm64's `Header`, which is read: that has the handler's mark and the place past it besides, which the writer has not.
#[derive(Clone, Copy)]
pub struct Header {
    pub length: u64,
    pub epilogues: Epilogues,
    pub words: u64,
}

impl Header {
    // The short form holds counts below 32 and 31 words of codes.
    fn is_long(self) -> bool
        ensures { result ≡ is_long_of (count_in self.epilogues) self.words }
    {
        limits::SHORT_COUNT < self.epilogues.count() || limits::SHORT_COUNT < self.words
    }

    // The length in instructions, and E.
    fn first_word(self) -> u64
        requires { self.length < 2 ^ 18 }
        ensures { (result ≡ first_word self.length (only_in self.epilogues)) × (result < 2 ^ 22) }
    {
        match self.epilogues {
            Epilogues::Single(_) => self.length + header_bits::SINGLE,
            Epilogues::Scoped(_) => self.length,
        }
    }

    pub fn size(self) -> usize
        ensures { (result ≡ length (header_by self)) × (4 ≤ result) × (result ≤ 8) }
    {
        if self.is_long() { 8 } else { 4 }
    }

    pub fn put(self, out: &mut [u8], at: usize) -> usize
        requires { (self.length < 2 ^ 18) × (count_in self.epilogues < 2 ^ 16) × (self.words < 2 ^ 8) × (at + length (header_by self) ≤ length out.old) }
        ensures { Wrote out.old out.new at result (header_by self) }
    {
        let first = self.first_word();
        let count = self.epilogues.count();
        if self.is_long() {
            let a = leb::le(out, at, 4, first);
            return leb::le(out, a, 4, count + header_bits::LONG_WORDS * self.words);
        }
        leb::le(
            out,
            at,
            4,
            first + header_bits::COUNT * count + header_bits::WORDS * self.words,
        )
    }
}

// Kept: the list and the place stand side by side here and in `put`: a struct of the two would make both contracts, and that of leb's `le` below, say
// beside the bytes that the same list is lent still (its ghost_name), where `Wrote` of a slice says all.
// Codes are padded to words with nop.
pub fn pad(out: &mut [u8], at: usize, n: usize) -> usize
    requires { (n ≤ 3) × (at + n ≤ length out.old) }
    ensures { Wrote out.old out.new at result (replicate n nop_byte) }
{
    leb::le(out, at, n, 0xe3e3e3)
}
