//! A pointer at a place of a section.

ghost use Rattle.std.specs.Prelude.{◌≡◌, ◌+◌, ◌-◌, ◌*◌, ◌%◌, ◌^◌, ◌≤◌, ◌<◌, length, IfSome, IfOk};
ghost use Rattle.cfi_pointers.specs.Pointers.{extended, signed_field_at, signed_leb_at, number_at};
ghost use Rattle.cfi_pointers.specs.Pointers.{base_address, gap, pointer_at, size_at};

use crate::encoding::{Base, Encoding, Format};
use crate::size::AddressSize;
use cfi_entries::places::{field, sleb, uleb};
use cfi_entries::{Question, Refusal};

/// What pointers are relative to: the addresses of the section, of the text, of the data and of the function,
/// where they are known.
#[derive(Clone, Copy, Debug)]
pub struct Bases {
    pub section: u64,
    pub text: Option<u64>,
    pub data: Option<u64>,
    pub function: Option<u64>,
}

/// A pointer that was read.
#[derive(Clone, Copy, PartialEq, Eq, Debug)]
pub struct Pointer {
    /// The number that stands there.
    pub number: u64,
    /// The address that it means.
    pub address: u64,
    /// The place behind it.
    pub next: usize,
}

/// A number below twice `half` as one of 64 bits in two's complement.
#[tactic(auto, unfolding(crate::specs::Pointers::extended))]
fn extended(half: u64, v: u64) -> u64
    requires { half ≤ 2 ^ 63 }
    ensures { result ≡ extended half v }
{
    if v >= half {
        v.wrapping_sub(half).wrapping_sub(half)
    } else {
        v
    }
}

/// A field with a sign, whose sign bit is `half`.
fn signed_field(s: &[u8], at: usize, n: usize, half: u64) -> Option<(u64, usize)>
    requires some { 0 < n }
    requires few { n ≤ 8 }
    requires low { half ≤ 2 ^ 63 }
    ensures value { result ≡ signed_field_at n half s.now at }
    ensures ahead { IfSome result (λ x. (at < x.1) × (x.1 ≤ length s.now)) }
{
    match field(s, at, n) {
        Some((v, past)) => Some((extended(half, v), past)),
        None => None,
    }
}

/// A signed LEB128 number in two's complement.
fn signed_leb(s: &[u8], at: usize) -> Option<(u64, usize)>
    ensures value { result ≡ signed_leb_at s.now at }
    ensures ahead { IfSome result (λ x. (at < x.1) × (x.1 ≤ length s.now)) }
{
    match sleb(s, at) {
        Some((v, past)) => Some((v.cast_unsigned(), past)),
        None => None,
    }
}

/// The number of a format at a place, and the place behind it; one with a sign in two's complement.
pub fn number(s: &[u8], at: usize, format: Format, size: AddressSize) -> Option<(u64, usize)>
    ensures value { result ≡ number_at format size s.now at }
    ensures ahead { IfSome result (λ x. (at < x.1) × (x.1 ≤ length s.now)) }
{
    match format {
        Format::Address => field(s, at, size.bytes()),
        Format::Uleb => uleb(s, at),
        Format::Udata2 => field(s, at, 2),
        Format::Udata4 => field(s, at, 4),
        Format::Udata8 => field(s, at, 8),
        Format::Sleb => signed_leb(s, at),
        Format::Sdata2 => signed_field(s, at, 2, 0x8000),
        Format::Sdata4 => signed_field(s, at, 4, 0x8000_0000),
        Format::Sdata8 => signed_field(s, at, 8, 0x8000_0000_0000_0000),
    }
}

impl Bases {
    /// The address that a pointer at a place is relative to.
    fn address(&self, base: Base, at: usize) -> Option<u64>
        ensures { result ≡ base_address self.now base at }
    {
        match base {
            Base::Absolute => Some(0),
            Base::Place => Some(self.section.wrapping_add(at as u64)),
            Base::Text => self.text,
            Base::Data => self.data,
            Base::Function => self.function,
            Base::Aligned => Some(0),
        }
    }

    /// How many bytes are passed over in front of a pointer.
    fn gap(&self, base: Base, size: AddressSize, at: usize) -> usize
        ensures value { result ≡ gap self.now base size at }
        ensures few { result < 8 }
    {
        if base != Base::Aligned {
            return 0;
        }
        let n = size.bytes() as u64;
        let past = self.section.wrapping_add(at as u64) % n;
        ((n - past) % n) as usize
    }
}

/// The pointer at a place. Question 64: the section ends there, or the number has more than 64 bits. 94: the
/// base that it is relative to is not known.
#[tactic(auto, unfolding(crate::specs::Pointers::pointer_at))]
pub fn pointer_at(
    s: &[u8],
    at: usize,
    encoding: Encoding,
    size: AddressSize,
    bases: &Bases,
) -> Result<Pointer, Refusal>
    requires { at ≤ length s.now }
    ensures value { result ≡ pointer_at encoding size bases.now s.now at }
    ensures ahead { IfOk result (λ p. (at < p.next) × (p.next ≤ length s.now)) }
{
    let gap = bases.gap(encoding.base, size, at);
    if s.len() - at < gap {
        return Err(Refusal::new(Question::Fields, at));
    }
    let Some((n, next)) = number(s, at + gap, encoding.format, size) else {
        return Err(Refusal::new(Question::Fields, at));
    };
    let Some(base) = bases.address(encoding.base, at) else {
        return Err(Refusal::new(Question::Base, at));
    };
    Ok(Pointer {
        number: n,
        address: size.cut(n.wrapping_add(base)),
        next,
    })
}

/// The length of a function, whose format is that of a pointer without its sign.
#[tactic(auto, unfolding(crate::specs::Pointers::size_at))]
pub fn size_at(
    s: &[u8],
    at: usize,
    encoding: Encoding,
    size: AddressSize,
) -> Result<(u64, usize), Refusal>
    ensures value { result ≡ size_at encoding size s.now at }
    ensures ahead { IfOk result (λ x. (at < x.1) × (x.1 ≤ length s.now)) }
{
    let Some(read) = number(s, at, encoding.format.unsigned(), size) else {
        return Err(Refusal::new(Question::Fields, at));
    };
    Ok(read)
}
