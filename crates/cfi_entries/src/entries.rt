//! Entries one by one, and all of a section.

ghost use Rattle.std.specs.Prelude.{◌≡◌, ◌+◌, ◌≤◌, ◌<◌, length, IfSome, IfOk};
ghost use Rattle.cfi_entries.specs.Entries.{length_at, id_size, cie_id, kind_of, identified, entry_at};
ghost use Rattle.cfi_entries.specs.Entries.{is_cie, cie_of};
ghost use Rattle.cfi_entries.specs.Entries.{Ahead};
ghost use Rattle.cfi_entries.specs.Listing.{entries, counted, Tiled};
ghost use Rattle.cfi_entries.specs.Refusals.{refused};

use crate::places::field;
use crate::refusal::{Question, Refusal};

/// What an entry is.
#[derive(Clone, Copy, PartialEq, Eq, Debug)]
pub enum Kind {
    /// A length of 0, with nothing behind it.
    Terminator,
    /// A common information entry.
    Cie,
    /// A frame description entry, and where its CIE stands: none where that would be in front of the section.
    Fde(Option<usize>),
}

/// An entry of a section.
#[derive(Clone, Copy, PartialEq, Eq, Debug)]
pub struct Entry {
    /// Where its length stands.
    pub at: usize,
    /// Whether it is of 64-bit DWARF.
    pub wide: bool,
    pub kind: Kind,
    /// Where its fields start, behind the length and the id.
    pub fields: usize,
    /// Where it ends, and the next one starts.
    pub end: usize,
}

/// Where an entry's contents start, and how many bytes they have.
#[derive(Clone, Copy)]
struct Extent {
    wide: bool,
    from: usize,
    size: usize,
}

/// The length field of an entry: of 4 bytes, or 0xffffffff and then of 8.
#[tactic(auto, unfolding(crate::specs::Entries::length_at))]
fn length(s: &[u8], at: usize) -> Option<Extent>
    ensures value { result ≡ length_at s.now at }
    ensures ahead { IfSome result (λ x. (at + 4 ≤ x.from) × (x.from ≤ length s.now)) }
{
    let Some((n, past)) = field(s, at, 4) else {
        return None;
    };
    if n < 0xffff_fff0 {
        return Some(Extent {
            wide: false,
            from: past,
            size: n as usize,
        });
    }
    if n != 0xffff_ffff {
        return None;
    }
    let Some((n, past)) = field(s, past, 8) else {
        return None;
    };
    Some(Extent {
        wide: true,
        from: past,
        size: n as usize,
    })
}

/// How many bytes the id of an entry has.
fn id_size(debug: bool, wide: bool) -> usize
    ensures value { result ≡ id_size debug wide }
    ensures low { 0 < result }
    ensures high { result ≤ 8 }
{
    if debug && wide { 8 } else { 4 }
}

/// The id of a CIE.
fn cie_id(debug: bool, wide: bool) -> u64
    ensures { result ≡ cie_id debug wide }
{
    match (debug, wide) {
        (false, _) => 0,
        (true, false) => 0xffff_ffff,
        (true, true) => 0xffff_ffff_ffff_ffff,
    }
}

/// What an entry with this id is.
#[tactic(auto, unfolding(crate::specs::Entries::kind_of))]
fn kind_with(debug: bool, wide: bool, place: usize, id: u64) -> Kind
    ensures { result ≡ kind_of debug wide place id }
{
    if id == cie_id(debug, wide) {
        return Kind::Cie;
    }
    if debug {
        return Kind::Fde(Some(id as usize));
    }
    Kind::Fde(place.checked_sub(id as usize))
}

/// The entry at `at` whose contents are not empty.
#[tactic(auto, unfolding(crate::specs::Entries::identified))]
fn identified(s: &[u8], debug: bool, at: usize, x: Extent) -> Result<Entry, Refusal>
    requires low { at + 4 ≤ x.from }
    requires high { x.from + x.size ≤ length s.now }
    ensures value { result ≡ identified debug s.now at x }
    ensures ahead { IfOk result (Ahead (length s.now) at) }
{
    let size = id_size(debug, x.wide);
    if x.size < size {
        return Err(Refusal::new(Question::Tiling, at));
    }
    let Some((id, fields)) = field(s, x.from, size) else {
        return Err(Refusal::new(Question::Tiling, at));
    };
    Ok(Entry {
        at,
        wide: x.wide,
        kind: kind_with(debug, x.wide, x.from, id),
        fields,
        end: x.from + x.size,
    })
}

/// The entry at a place of a section. Question 62: the section ends there. 61: no entry fits the rest of it.
#[tactic(auto, unfolding(crate::specs::Entries::entry_at))]
pub fn entry_at(s: &[u8], debug: bool, at: usize) -> Result<Entry, Refusal>
    ensures value { result ≡ entry_at debug s.now at }
    ensures ahead { IfOk result (Ahead (length s.now) at) }
{
    if s.len() <= at {
        return Err(Refusal::new(Question::Record, at));
    }
    let Some(x) = length(s, at) else {
        return Err(Refusal::new(Question::Tiling, at));
    };
    if s.len() - x.from < x.size {
        return Err(Refusal::new(Question::Tiling, at));
    }
    if x.size == 0 {
        return Ok(Entry {
            at,
            wide: x.wide,
            kind: Kind::Terminator,
            fields: x.from,
            end: x.from,
        });
    }
    identified(s, debug, at, x)
}

/// The CIE of an FDE. Question 63: at the place that the FDE names stands none.
#[tactic(auto, unfolding(crate::specs::Entries::cie_of))]
pub fn cie_of(s: &[u8], debug: bool, fde: Entry) -> Result<Entry, Refusal>
    ensures value { result ≡ cie_of debug s.now fde }
    ensures ahead { IfOk result (λ e. (e.fields ≤ e.end) × (e.end ≤ length s.now)) }
{
    let refusal = Refusal::new(Question::Header, fde.at);
    let Kind::Fde(Some(place)) = fde.kind else {
        return Err(refusal);
    };
    let Ok(cie) = entry_at(s, debug, place) else {
        return Err(refusal);
    };
    if cie.kind != Kind::Cie {
        return Err(refusal);
    }
    Ok(cie)
}

/// How many entries a section has. They tile it: the first starts where the section does, each of the others
/// where the one before it ends, and the last ends where the section does. Question 61: there no entry fits
/// the rest.

#[tactic(auto, using(crate::proofs::EntryLaws::start, crate::proofs::EntryLaws::turn))]
pub fn check_entries(s: &[u8], debug: bool) -> Result<u64, Refusal>
    ensures counted { result ≡ counted 0 (entries debug s.now) }
    ensures tiled { Tiled (length s.now) (entries debug s.now) }
{
    let mut at = 0;
    let mut n = 0u64;
    while at < s.len() {
        match entry_at(s, debug, at) {
            Ok(entry) => {
                at = entry.end;
                n += 1;
            }
            Err(refusal) => return Err(refusal),
        }
    }
    Ok(n)
}
