// Numbers that the writers and the readers share: sizes of words and of pointers by their encodings, what marks a header; and the constants of the formats and of the lists. Ported from rucc-asm/src/unwind.rs (pointer_size) of tamnd/rucc, changed: see NOTICE.
#![tactic(auto)]

ghost use Rattle.std.specs.Prelude.{◌≡◌, ◌-◌, ◌*◌, ◌^◌, ◌<◌, ◌≤◌};
ghost use Rattle.format.proofs.Asked.{option_of};
ghost use Rattle.format.specs.Machine.{is_word_size};
ghost use Rattle.format.specs.Lists.{inside};
ghost use Rattle.format.specs.Headers.{size_of, pointer_size, pointer_bytes, header_id};

pub mod codes;
pub mod encodings;
pub mod kinds;
pub mod machine;
pub mod opcodes;
pub mod uwop;

// A machine's word has 2, 4 or 8 bytes.
#[tactic(auto, unfolding(format::specs::Machine::is_word_size))]
pub fn is_word(w: u64) -> bool
    ensures { result ≡ is_word_size w }
{
    matches!(w, 2 | 4 | 8)
}

// A range of n from `at` lies inside `size`: bytes of a section, or records of a list.
#[tactic(auto, unfolding(format::specs::Lists::inside))]
pub fn inside(at: u64, n: u64, size: u64) -> bool
    ensures { result ≡ inside at n size }
{
    if size < at {
        return false;
    }
    n <= size - at
}

// The largest number that so many bytes hold.
pub fn largest(bytes: u64) -> u64
    requires { (0 < bytes) × (bytes ≤ 8) }
    ensures { result ≡ 2 ^ (8 * bytes) - 1 }
{
    u64::MAX >> (64 - 8 * bytes)
}

// What marks a header, in the field where a record has the place of its header.
#[tactic(auto, unfolding(format::specs::Headers::header_id, format::specs::Prelude::pick))]
pub fn header_id(debug: bool) -> u64
    ensures { result ≡ header_id debug }
{
    if debug { 0xffffffff } else { 0 }
}

// ---- pointers by their encodings

// The bytes of a pointer, where its encoding is one that is written.
#[tactic(auto, unfolding(format::specs::Headers::size_of, format::specs::Prelude::pick))]
fn size_of(word: u64, e: u64) -> Option<u64>
    ensures { result ≡ option_of (size_of word e) }
{
    match e {
        encodings::DW_EH_PE_ABSPTR => Some(word),
        encodings::DW_EH_PE_UDATA4
        | encodings::DW_EH_PE_SDATA4
        | encodings::PCREL_UDATA4
        | encodings::PCREL_SDATA4 => Some(4),
        encodings::DW_EH_PE_UDATA8 | encodings::DW_EH_PE_SDATA8 => Some(8),
        _ => None,
    }
}

// The bytes that are written for a pointer, whatever its indirect bit says.
pub fn pointer_bytes(word: u64, e: u64) -> u64
    ensures { (result ≡ pointer_bytes word e) × (word ≤ 8 → result ≤ 8) }
{
    size_of(word, e % encodings::DW_EH_PE_INDIRECT).unwrap_or(0)
}

// Question 22 of one encoding: the pointer's bytes, where it is accepted. The indirect bit is taken for a personality only.
#[tactic(auto, unfolding(format::specs::Headers::pointer_size, format::specs::Prelude::pick))]
pub fn pointer_size(indirect: bool, word: u64, e: u64) -> Option<u64>
    ensures { result ≡ option_of (pointer_size indirect word e) }
{
    if encodings::DW_EH_PE_INDIRECT <= e && !indirect {
        return None;
    }
    size_of(word, e % encodings::DW_EH_PE_INDIRECT)
}
