//! The fields of a CIE.

ghost use Rattle.std.specs.Prelude.{◌≡◌, ◌+◌, ◌≤◌, ◌<◌, length, take, IfOk};
ghost use Rattle.cfi_entries.specs.Entries.{is_cie};
ghost use Rattle.cfi_fields.specs.Cies.{version_at, text_at, address_at, factors_at, cie_fields};
ghost use Rattle.cfi_fields.specs.Cies.{cie_of_entry, cie_at};

use crate::augmentation::{Augmentation, augmentation_at, byte, text_size};
use cfi_entries::places::{sleb, uleb};
use cfi_entries::{Entry, Kind, Question, Refusal, entry_at};
use cfi_pointers::{AddressSize, Bases};

/// A common information entry.
#[derive(Clone, Copy, PartialEq, Eq, Debug)]
pub struct Cie {
    /// Where its entry starts.
    pub at: usize,
    /// 1, 3 or 4.
    pub version: u8,
    pub size: AddressSize,
    /// The code alignment factor.
    pub code_factor: u64,
    /// The data alignment factor.
    pub data_factor: i64,
    /// The register of the return address.
    pub register: u16,
    pub augmentation: Augmentation,
    /// Where its operations start and end.
    pub operations: usize,
    pub end: usize,
}

/// The place of an augmentation string, and how many bytes stand in front of its 0.
#[derive(Clone, Copy)]
struct Text {
    at: usize,
    size: usize,
}

/// The factors and the register, and the place behind them.
#[derive(Clone, Copy)]
struct Factors {
    code_factor: u64,
    data_factor: i64,
    register: u16,
    next: usize,
}

/// The version, one of 1, 3 and 4.
#[tactic(auto, unfolding(crate::specs::Cies::version_at))]
fn version(s: &[u8], at: usize) -> Result<u8, Refusal>
    ensures value { result ≡ version_at s.now at }
    ensures inside { IfOk result (λ v. at < length s.now) }
{
    let v = byte(s, at)?;
    match v {
        1 | 3 | 4 => Ok(v),
        _ => Err(Refusal::new(Question::Fields, at)),
    }
}

/// The string at a place.
#[tactic(auto, unfolding(crate::specs::Cies::text_at))]
fn text_in(s: &[u8], at: usize) -> Result<Text, Refusal>
    requires { at ≤ length s.now }
    ensures value { result ≡ text_at s.now at }
    ensures inside { IfOk result (λ t. (t.at ≡ at) × (at + t.size < length s.now)) }
{
    match text_size(&s[at..]) {
        Some(size) => Ok(Text { at, size }),
        None => Err(Refusal::new(Question::Fields, at)),
    }
}

/// The size of an address, and the place behind it: in version 4 a field, with that of a segment selector, 0,
/// behind it.
#[tactic(auto, unfolding(crate::specs::Cies::address_at))]
fn address(
    s: &[u8],
    at: usize,
    version: u8,
    size: AddressSize,
) -> Result<(AddressSize, usize), Refusal>
    requires { at ≤ length s.now }
    ensures value { result ≡ address_at s.now at version size }
    ensures inside { IfOk result (λ x. x.1 ≤ length s.now) }
{
    if version != 4 {
        return Ok((size, at));
    }
    let bytes = byte(s, at)?;
    let Some(own) = AddressSize::new(u64::from(bytes)) else {
        return Err(Refusal::new(Question::Fields, at));
    };
    let selector = byte(s, at + 1)?;
    if selector != 0 {
        return Err(Refusal::new(Question::Fields, at + 1));
    }
    Ok((own, at + 2))
}

/// Both factors and the return address register, each a LEB128 number.
#[tactic(auto, unfolding(crate::specs::Cies::factors_at))]
fn factors_in(s: &[u8], at: usize) -> Result<Factors, Refusal>
    ensures value { result ≡ factors_at s.now at }
    ensures inside { IfOk result (λ f. f.next ≤ length s.now) }
{
    let Some((code, behind)) = uleb(s, at) else {
        return Err(Refusal::new(Question::Fields, at));
    };
    let Some((data, next)) = sleb(s, behind) else {
        return Err(Refusal::new(Question::Fields, behind));
    };
    let Some((register, past)) = uleb(s, next) else {
        return Err(Refusal::new(Question::Fields, next));
    };
    if register > 0xffff {
        return Err(Refusal::new(Question::Fields, next));
    }
    Ok(Factors {
        code_factor: code,
        data_factor: data,
        register: register as u16,
        next: past,
    })
}

/// The fields of a CIE in the bytes up to its end.
#[tactic(auto, unfolding(crate::specs::Cies::cie_fields))]
fn fields(s: &[u8], cie: Entry, size: AddressSize, bases: &Bases) -> Result<Cie, Refusal>
    requires { cie.end ≡ length s.now }
    ensures value { result ≡ cie_fields size bases.now s.now cie }
    ensures inside { IfOk result (λ c. (c.operations ≤ length s.now) × (c.end ≡ cie.end)) }
{
    let version = version(s, cie.fields)?;
    let text = text_in(s, cie.fields + 1)?;
    let from = text.at;
    let to = from + text.size;
    let (size, at) = address(s, to + 1, version, size)?;
    let factors = factors_in(s, at)?;
    let read = augmentation_at(s, size, bases, from, &s[from..to], factors.next)?;
    Ok(Cie {
        at: cie.at,
        version,
        size,
        code_factor: factors.code_factor,
        data_factor: factors.data_factor,
        register: factors.register,
        augmentation: read.says,
        operations: read.next,
        end: cie.end,
    })
}

/// The fields of an entry that was read in the section, as those of a CIE.
#[tactic(auto, unfolding(crate::specs::Cies::cie_of_entry))]
pub fn cie_of_entry(s: &[u8], cie: Entry, size: AddressSize, bases: &Bases) -> Result<Cie, Refusal>
    requires { cie.end ≤ length s.now }
    ensures value { result ≡ cie_of_entry size bases.now s.now cie }
    ensures inside { IfOk result (λ c. (c.operations ≤ c.end) × (c.end ≤ length s.now)) }
{
    let end = cie.end;
    fields(&s[..end], cie, size, bases)
}

/// The CIE at a place of a section, for a target whose addresses have that size. Question 61: no entry fits
/// the rest of the section. 62: no CIE starts there. 64: a field. 94: a base that its personality is relative
/// to.
#[tactic(auto, unfolding(crate::specs::Cies::cie_at))]
pub fn cie_at(
    s: &[u8],
    debug: bool,
    at: usize,
    size: AddressSize,
    bases: &Bases,
) -> Result<Cie, Refusal>
    ensures value { result ≡ cie_at debug size bases.now s.now at }
    ensures inside { IfOk result (λ c. (c.operations ≤ c.end) × (c.end ≤ length s.now)) }
{
    let entry = entry_at(s, debug, at)?;
    if entry.kind != Kind::Cie {
        return Err(Refusal::new(Question::Record, at));
    }
    cie_of_entry(s, entry, size, bases)
}
