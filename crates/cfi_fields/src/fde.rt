//! The fields of an FDE.

ghost use Rattle.std.specs.Prelude.{◌≡◌, ◌+◌, ◌≤◌, ◌<◌, length, IfOk};
ghost use Rattle.cfi_fields.specs.Fdes.{Holds, encoding_of_cie, call_sites_at, tail_at, fde_fields};
ghost use Rattle.cfi_fields.specs.Fdes.{fde_of_entry, fde_at};

use crate::cie::{Cie, cie_of_entry};
use cfi_entries::places::uleb;
use cfi_entries::{Entry, Kind, Question, Refusal, cie_of, entry_at};
use cfi_pointers::{AddressSize, Base, Bases, Encoding, Format, pointer_at, size_at};

/// Where the table of call sites stands.
#[derive(Clone, Copy, PartialEq, Eq, Debug)]
pub struct Lsda {
    /// The table's address, or where that stands.
    pub address: u64,
    pub indirect: bool,
}

/// A frame description entry.
#[derive(Clone, Copy, PartialEq, Eq, Debug)]
pub struct Fde {
    /// Where its entry starts.
    pub at: usize,
    pub cie: Cie,
    /// The address at which its function starts.
    pub start: u64,
    /// How many bytes the function has.
    pub size: u64,
    /// The function's call sites.
    pub lsda: Option<Lsda>,
    /// Where its operations start and end.
    pub operations: usize,
    pub end: usize,
}

/// The pointer to call sites, and where the operations start.
#[derive(Clone, Copy)]
struct Tail {
    lsda: Option<Lsda>,
    operations: usize,
}

/// The encoding of the pointers in FDEs: without an R they are addresses.
pub fn encoding_of(cie: &Cie) -> Encoding
    ensures { result ≡ encoding_of_cie cie.now }
{
    match cie.augmentation.pointers {
        Some(encoding) => encoding,
        None => Encoding {
            format: Format::Address,
            base: Base::Absolute,
            indirect: false,
        },
    }
}

/// The pointer to call sites in the data that starts at `at`; one that is 0 is none.
#[tactic(auto, unfolding(crate::specs::Fdes::call_sites_at))]
fn call_sites(s: &[u8], at: usize, cie: &Cie, bases: &Bases) -> Result<Option<Lsda>, Refusal>
    requires { at ≤ length s.now }
    ensures { result ≡ call_sites_at cie.now bases.now s.now at }
{
    let Some(encoding) = cie.augmentation.lsda else {
        return Ok(None);
    };
    let pointer = pointer_at(s, at, encoding, cie.size, bases)?;
    if pointer.number == 0 {
        return Ok(None);
    }
    Ok(Some(Lsda {
        address: pointer.address,
        indirect: encoding.indirect,
    }))
}

/// The augmentation data of an FDE, which it has where its CIE's string starts with `z`.
#[tactic(auto, unfolding(crate::specs::Fdes::tail_at))]
fn tail_in(s: &[u8], at: usize, cie: &Cie, bases: &Bases) -> Result<Tail, Refusal>
    requires { at ≤ length s.now }
    ensures value { result ≡ tail_at cie.now bases.now s.now at }
    ensures inside { IfOk result (λ t. t.operations ≤ length s.now) }
{
    if !cie.augmentation.augmented {
        return Ok(Tail {
            lsda: None,
            operations: at,
        });
    }
    let Some((n, from)) = uleb(s, at) else {
        return Err(Refusal::new(Question::Fields, at));
    };
    if ((s.len() - from) as u64) < n {
        return Err(Refusal::new(Question::Fields, at));
    }
    let end = from + n as usize;
    let lsda = call_sites(&s[..end], from, cie, bases)?;
    Ok(Tail {
        lsda,
        operations: end,
    })
}

/// The fields of an FDE in the bytes up to its end.
#[tactic(auto, unfolding(crate::specs::Fdes::fde_fields))]
fn fields(s: &[u8], fde: Entry, cie: Cie, bases: &Bases) -> Result<Fde, Refusal>
    requires { (fde.fields ≤ fde.end) × (fde.end ≡ length s.now) }
    ensures value { result ≡ fde_fields cie bases.now s.now fde }
    ensures inside { IfOk result (λ f. (f.operations ≤ length s.now) × (f.end ≡ fde.end) × (f.cie ≡ cie)) }
{
    let encoding = encoding_of(&cie);
    let start = pointer_at(s, fde.fields, encoding, cie.size, bases)?;
    let (size, at) = size_at(s, start.next, encoding, cie.size)?;
    let own = Bases {
        function: Some(start.address),
        ..*bases
    };
    let tail = tail_in(s, at, &cie, &own)?;
    Ok(Fde {
        at: fde.at,
        cie,
        start: start.address,
        size,
        lsda: tail.lsda,
        operations: tail.operations,
        end: fde.end,
    })
}

/// The fields of an entry that was read in the section, as those of an FDE of a CIE.
#[tactic(auto, unfolding(crate::specs::Fdes::fde_of_entry))]
pub fn fde_of_entry(s: &[u8], fde: Entry, cie: Cie, bases: &Bases) -> Result<Fde, Refusal>
    requires { (fde.fields ≤ fde.end) × (fde.end ≤ length s.now) }
    ensures value { result ≡ fde_of_entry cie bases.now s.now fde }
    ensures inside { IfOk result (λ f. (f.operations ≤ f.end) × (f.end ≤ length s.now) × (f.cie ≡ cie)) }
{
    let end = fde.end;
    fields(&s[..end], fde, cie, bases)
}

/// The FDE at a place of a section, with its CIE, for a target whose addresses have that size. Question 61:
/// no entry fits the rest of the section. 62: no FDE starts there. 63: it has no CIE. 64: a field of either.
/// 94: a base that a pointer is relative to.
#[tactic(auto, unfolding(crate::specs::Fdes::fde_at))]
pub fn fde_at(
    s: &[u8],
    debug: bool,
    at: usize,
    size: AddressSize,
    bases: &Bases,
) -> Result<Fde, Refusal>
    ensures value { result ≡ fde_at debug size bases.now s.now at }
    ensures inside { IfOk result (Holds (length s.now)) }
{
    let entry = entry_at(s, debug, at)?;
    if !matches!(entry.kind, Kind::Fde(_)) {
        return Err(Refusal::new(Question::Record, at));
    }
    let header = cie_of(s, debug, entry)?;
    let cie = cie_of_entry(s, header, size, bases)?;
    fde_of_entry(s, entry, cie, bases)
}
