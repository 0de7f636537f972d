// Headers (CIE): their bytes, sizes and relocations. Ported from rucc-asm/src/unwind.rs (header, personal_header, named_header, pointer, starts, pad) of tamnd/rucc, changed: see NOTICE.
#![tactic(auto)]

ghost use Rattle.std.specs.Prelude.{◌≡◌, [], ◌∷◌, ◌+◌, ◌*◌, ◌^◌, ◌≤◌, ◌<◌, length, IfSome};
ghost use Rattle.format.proofs.Wrote.{Wrote};
ghost use Rattle.format.specs.Lists.{numbers_of};
ghost use Rattle.format.specs.Headers.{padding, pointer_reloc, plain, letters, lsda_letter, augmentation_data, data_factor, header_fields, pointer_place, header_relocs};
ghost use Rattle.format.proofs.Fits.{MachineFits};
ghost use Rattle.header_keys.specs.Functions.{key_in};
ghost use Rattle.format.proofs.SectionSize.{Aligned};
ghost use Rattle.headers.specs.Entries.{Closed};
ghost use Rattle.header_keys.specs.Kinds.{lsda_of, named_by, asked_kind, kind_in};
ghost use Rattle.headers.specs.Kinds.{head_in, personality_in, EncodingFits, NamedFits, KindFits, ending, middle, named_letters, named_data, header_reloc_count};
ghost use Rattle.headers.specs.Written.{middle_of, tail_by, fields_of, starts_of, header_of};

use format::Machine;
use header_keys::written::Function;
use header_keys::{Kind, kind_of};
use lists::{Extent, Lsda, Personality};
use numbers::encodings;
use rows::Word;

// Kept: sizes stand beside bytes, here and in records. As one function over a buffer or a counter each clause would speak of both, and a
// size would have to be asked with the places and symbols that its bytes take.

// ---- the end of an entry

// Zeros after n bytes of a section, up to the alignment.
// Kept: no `next_multiple_of`, which overflows near the top: public `padding` takes any n.
#[tactic(auto, unfolding(format::specs::Headers::padding))]
fn gap(align: usize, n: usize) -> usize
    requires { 0 < align }
    ensures { result ≡ padding align n }
{
    (align - n % align) % align
}

// The same; to 4 and 8 without a division.
#[tactic(auto, unfolding(format::specs::Headers::padding))]
pub fn padding(align: usize, n: usize) -> usize
    requires { 0 < align }
    ensures { result ≡ padding align n }
{
    if align == 4 {
        return gap(4, n);
    }
    if align == 8 {
        return gap(8, n);
    }
    gap(align, n)
}

// Zeros up to the alignment, which counts from the section's start, and the length into the 4 bytes at `start`.
pub fn pad(out: &mut [u8], start: usize, at: usize, align: usize) -> usize
    requires { Aligned align × (start + 4 ≤ at) × (at + padding align at ≤ length out.old) }
    ensures { Closed out.old out.new start at align result }
{
    let end = leb::fill(out, at, padding(align, at));
    leb::le(out, start, 4, (end - start - 4) as u64);
    end
}

// ---- pointers by their encodings

// A pointer's relocation: a distance of 4 bytes where it is relative, else an address.
#[tactic(auto, unfolding(format::specs::Headers::pointer_reloc, format::specs::Prelude::pick))]
pub fn pointer(out: &mut [u64], i: usize, word: u64, place: u64, symbol: u64, e: u64) -> usize
    requires { i + 5 ≤ length out.old }
    ensures { Wrote out.old out.new i result (numbers_of (pointer_reloc word place symbol e ∷ [])) }
{
    if encodings::DW_EH_PE_PCREL <= e % encodings::DW_EH_PE_INDIRECT {
        return relocs::relocation(out, i, place, symbol, relocs::DATA, 4, 0);
    }
    relocs::relocation(
        out,
        i,
        place,
        symbol,
        relocs::ADDRESS,
        numbers::pointer_bytes(word, e),
        0,
    )
}

// ---- the personality

// The personality that a function's header names. That of functions with landings is indirect, relative and of 4 bytes, and so is the
// pointer to their call sites.
#[tactic(auto, unfolding(crate::specs::Kinds::personality_in, crate::specs::Kinds::personality_for))]
pub fn personality(e: &Extent) -> Option<Personality>
    ensures { result ≡ personality_in e.now }
{
    match kind_of(e) {
        Kind::Plain => None,
        Kind::Personal => Some(Personality {
            encoding: encodings::INDIRECT_PCREL_SDATA4,
            routine: relocs::PERSONALITY,
            lsda: Some(Lsda {
                encoding: encodings::PCREL_SDATA4,
                symbol: relocs::EXCEPT_TABLE,
            }),
        }),
        Kind::Named(p) => Some(p),
    }
}

// ---- the fields

// Kept: in all that write a part of a header the list and the place stand apart, as in leb; what is written is the function.

// Letters of the augmentation string.
fn text(out: &mut [u8], at: usize, letters: &[u8]) -> usize
    requires { at + length letters.now ≤ length out.old }
    ensures { Wrote out.old out.new at result letters.now }
{
    let past = at + letters.len();
    out[at..past].copy_from_slice(letters);
    past
}

// The end of the augmentation string: S for a signal frame, and a 0.
fn ending(out: &mut [u8], at: usize, signal: bool) -> usize
    requires { at + length (ending signal) ≤ length out.old }
    ensures { Wrote out.old out.new at result (ending signal) }
{
    if signal {
        return text(out, at, b"S\0");
    }
    text(out, at, b"\0")
}

// The data alignment factor, minus the word.
#[tactic(auto, unfolding(format::specs::Headers::data_factor))]
fn data_factor(word: u64) -> i64
    requires { word ≤ 8 }
    ensures { result ≡ data_factor word }
{
    0 - word as i64
}

// The string's end, the factors and the return address register.
fn middle(out: &mut [u8], at: usize, f: &Function) -> usize
    requires { at + length (middle_of f.now) ≤ length out.old }
    ensures { Wrote out.old out.new at result (middle_of f.now) }
{
    let a = ending(out, at, f.extent.signal);
    let b = leb::uleb(out, a, 1);
    let c = leb::sleb(out, b, data_factor(f.machine.word));
    leb::uleb(out, c, f.machine.ret)
}

// z, R; the middle; one byte of data, the records' encoding.
fn plain_header(out: &mut [u8], at: usize, f: &Function) -> usize
    requires { at + length (tail_by f.now plain) ≤ length out.old }
    ensures { Wrote out.old out.new at result (tail_by f.now plain) }
{
    let a = text(out, at, b"zR");
    let b = middle(out, a, f);
    let c = leb::byte(out, b, 1);
    leb::byte(out, c, encodings::PCREL_SDATA4 as u8)
}

// z, P, L where there is an LSDA, R.
fn named_letters(out: &mut [u8], at: usize, lsda: bool) -> usize
    requires { at + length (named_letters lsda) ≤ length out.old }
    ensures { Wrote out.old out.new at result (named_letters lsda) }
{
    if lsda {
        return text(out, at, b"zPLR");
    }
    text(out, at, b"zPR")
}

// The LSDA's encoding, where there is an LSDA.
fn lsda_letter(out: &mut [u8], at: usize, lsda: Option<Lsda>) -> usize
    requires { IfSome lsda (λ l. l.encoding < 256) × (at + length (lsda_letter (lsda_of lsda)) ≤ length out.old) }
    ensures { Wrote out.old out.new at result (lsda_letter (lsda_of lsda)) }
{
    match lsda {
        Some(l) => leb::byte(out, at, l.encoding as u8),
        None => at,
    }
}

// The personality's encoding and blank pointer, the LSDA's encoding, the records' encoding.
fn named_data(out: &mut [u8], at: usize, p: &Personality, size: usize) -> usize
    requires { NamedFits p.now × (at + length (named_data p.now.encoding size (lsda_of p.now.lsda)) ≤ length out.old) }
    ensures { Wrote out.old out.new at result (named_data p.now.encoding size (lsda_of p.now.lsda)) }
{
    let a = leb::byte(out, at, p.encoding as u8);
    let b = leb::fill(out, a, size);
    let c = lsda_letter(out, b, p.lsda);
    leb::byte(out, c, encodings::PCREL_SDATA4 as u8)
}

// A personality by its encoding, and an LSDA by its.
fn named_header(out: &mut [u8], at: usize, f: &Function, p: &Personality) -> usize
    requires { NamedFits p.now × (at + length (tail_by f.now (named_by p.now)) ≤ length out.old) }
    ensures { Wrote out.old out.new at result (tail_by f.now (named_by p.now)) }
{
    let has_lsda = p.lsda.is_some();
    let a = named_letters(out, at, has_lsda);
    let b = middle(out, a, f);
    let size = numbers::pointer_bytes(f.machine.word, p.encoding);
    let c = leb::uleb(out, b, 2 + size + u64::from(has_lsda));
    named_data(out, c, p, size as usize)
}

// What follows the version, by the function's record.
fn tail(out: &mut [u8], at: usize, f: &Function) -> usize
    requires { KindFits (asked_kind f.now.extent) × (at + length (tail_by f.now (kind_in f.now.extent)) ≤ length out.old) }
    ensures { Wrote out.old out.new at result (tail_by f.now (kind_in f.now.extent)) }
{
    match personality(&f.extent) {
        Some(p) => named_header(out, at, f, &p),
        None => plain_header(out, at, f),
    }
}

// The fields in front of the rows. In debug_frame there is no augmentation but the signal mark.
fn fields(out: &mut [u8], at: usize, f: &Function) -> usize
    requires { KindFits (asked_kind f.now.extent) × (at + length (fields_of f.now) ≤ length out.old) }
    ensures { Wrote out.old out.new at result (fields_of f.now) }
{
    let a = leb::le(out, at, 4, numbers::header_id(f.debug));
    let b = leb::byte(out, a, 1);
    if f.debug {
        return middle(out, b, f);
    }
    tail(out, b, f)
}

// ---- the leading rows

// The leading rows, one after the other.
fn starts(out: &mut [u8], at: usize, f: &Function) -> usize
    requires { at + length (starts_of f.now) ≤ length out.old }
    ensures { Wrote out.old out.new at result (starts_of f.now) }
{
    let n = header_keys::leading_count(f.machine, &f.extent, f.rows);
    let word = Word {
        bytes: f.machine.word,
    };
    let mut p = at;
    for i in 0..n {
        let row = header_keys::leading_at(f.machine, &f.extent, f.rows, i);
        p = rows::row(out, p, word, row);
    }
    p
}

// How many bytes they have.
fn starts_size(f: &Function) -> usize
    ensures { result ≡ length (starts_of f.now) }
{
    let n = header_keys::leading_count(f.machine, &f.extent, f.rows);
    let word = Word {
        bytes: f.machine.word,
    };
    let mut size = 0;
    for i in 0..n {
        let row = header_keys::leading_at(f.machine, &f.extent, f.rows, i);
        size += rows::row_size(word, row);
    }
    size
}

// ---- sizes

// What the fields of a header depend on.
#[derive(Drop)]
struct Head<'a> {
    machine: &'a Machine,
    extent: &'a Extent,
    ghost small: { machine.now.word ≤ 8 },
}

impl Head<'_> {
    // How many bytes `middle` stores.
    fn middle_size(&self) -> usize
        ensures { (result ≡ length (middle self.now.machine.now.word self.now.machine.now.ret self.now.extent.now.signal)) × (result ≤ 23) }
    {
        let factor = leb::sleb_size(data_factor(self.machine.word));
        2 + usize::from(self.extent.signal) + factor + leb::uleb_size(self.machine.ret)
    }

    // How many letters the augmentation string has.
    fn letters_size(&self) -> usize
        ensures { (result ≡ length (letters (kind_in self.now.extent.now))) × (result ≤ 4) }
    {
        match personality(self.extent) {
            Some(p) => 3 + usize::from(p.lsda.is_some()),
            None => 2,
        }
    }

    // How many bytes the augmentation data has.
    fn data_size(&self) -> usize
        ensures { (result ≡ length (augmentation_data self.now.machine.now.word (kind_in self.now.extent.now))) × (result ≤ 11) }
    {
        match personality(self.extent) {
            Some(p) => {
                let pointer = numbers::pointer_bytes(self.machine.word, p.encoding);
                2 + pointer as usize + usize::from(p.lsda.is_some())
            }
            None => 1,
        }
    }

    // How many bytes `fields` stores; the data's length is one of them.
    // Kept: `debug`, here and in what is below, is a `bool`, for the reason at `written::Function` of header_keys.
    fn fields_size(&self, debug: bool) -> usize
        ensures { (result ≡ length (header_fields debug self.now.machine.now (head_in self.now.extent.now))) × (result ≤ 44) }
    {
        let n = 5 + self.middle_size();
        if debug {
            return n;
        }
        n + self.letters_size() + 1 + self.data_size()
    }

    // The place of the personality's pointer, behind its encoding, the first byte of the augmentation data.
    fn pointer_place(&self, at: usize) -> u64
        requires { at < 2 ^ 32 }
        ensures { result ≡ pointer_place self.now.machine.now at (head_in self.now.extent.now) }
    {
        (at + 4 + self.fields_size(false) - self.data_size() + 1) as u64
    }
}

// ---- a header

pub fn header_size(f: &Function, at: usize) -> usize
    requires { at < 2 ^ 32 }
    ensures { result ≡ length (header_of f.now at) }
{
    let head = Head {
        machine: f.machine,
        extent: &f.extent,
    };
    let n = 4 + head.fields_size(f.debug) + starts_size(f);
    n + padding(f.align, at + n)
}

// The bytes of a header: a blank length, the fields and the leading rows, and what `pad` adds.
pub fn header(out: &mut [u8], at: usize, f: &Function) -> usize
    requires { EncodingFits f.now.extent × (at + length (header_of f.now at) ≤ length out.old) }
    ensures { Wrote out.old out.new at result (header_of f.now at) }
{
    let a = leb::fill(out, at, 4);
    let b = fields(out, a, f);
    let c = starts(out, b, f);
    pad(out, at, c, f.align)
}

// ---- its relocation

// How many relocations a header has: one where it names a personality, none in debug_frame.
#[tactic(auto, unfolding(crate::specs::Kinds::header_reloc_count, crate::specs::Kinds::kind_reloc_count, format::specs::Prelude::pick))]
pub fn header_relocs_count(debug: bool, e: &Extent) -> usize
    ensures { result ≡ header_reloc_count debug e.now }
{
    if debug {
        return 0;
    }
    usize::from(personality(e).is_some())
}

// The relocation of a header's personality.
// Kept: no `Function`, whose parts these are: of its questions this asks the machine's alone (D124 of docs/DECISIONS.md).
pub fn header_relocs(
    out: &mut [u64],
    i: usize,
    debug: bool,
    m: &Machine,
    at: usize,
    e: &Extent,
) -> usize
    requires { MachineFits m.now × (at < 2 ^ 32) × (i + 5 * header_reloc_count debug e.now ≤ length out.old) }
    ensures { Wrote out.old out.new i result (numbers_of (header_relocs debug m.now at (key_in m.now e.now []))) }
{
    if debug {
        return i;
    }
    let Some(p) = personality(e) else {
        return i;
    };
    let head = Head {
        machine: m,
        extent: e,
    };
    pointer(
        out,
        i,
        m.word,
        head.pointer_place(at),
        p.routine,
        p.encoding,
    )
}
