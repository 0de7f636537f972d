//! Notes, one after another (gABI, "Note Section"), in a section or a segment.

ghost use Rattle.std.specs.Prelude.{◌≡◌, ◌+◌, ◌-◌, ◌≤◌, ◌<◌, ◌^◌, length, IfOk};
ghost use Rattle.elf.specs.Fields.{piece};
ghost use Rattle.elf.specs.Notes.{padded, is_padded_to_eight, name_length, note_numbers, NoteLiesIn, note_in, is_wanted, first_note, note_at, note_named, refused_note, note_answer};

use crate::fields::u32_at;
use crate::refusal::{Reason, Refusal};
use crate::section::{Span, end_of};

/// What unwind_elf_note answers: a note's kind, where its name and its text stand, and where the next note
/// does.
// Kept: a number beside the fields, since C reads it.
#[repr(C)]
#[derive(Clone, Copy, Default)]
pub struct ElfNote {
    pub number: u64,
    pub at: u64,
    pub kind: u64,
    pub name: u64,
    pub name_length: u64,
    pub text: u64,
    pub text_length: u64,
    pub next: u64,
}

/// A size padded to a multiple of 8 or of 4.
fn padded(eight: bool, size: u64) -> u64
    requires { size < 2 ^ 40 }
    ensures value { result ≡ padded eight size }
    ensures least { size ≤ result }
    ensures most { result ≤ size + 7 }
{
    if eight {
        (size + 7) / 8 * 8
    } else {
        (size + 3) / 4 * 4
    }
}

/// Whether parts of notes are padded to 8 bytes, by the alignment that their section or segment tells.
fn is_padded_to_eight(align: u64, place: u64) -> Result<bool, Refusal>
    ensures { result ≡ is_padded_to_eight align place }
{
    match align {
        0..=4 => Ok(false),
        8 => Ok(true),
        _ => Err(Refusal::new(Reason::Alignment, place)),
    }
}

/// How long a note's name is in the bytes that it has: up to a 0.
fn name_length(bytes: &[u8]) -> u64
    ensures value { result ≡ name_length bytes.now }
    ensures most { result ≤ length bytes.now }
{
    match end_of(bytes) {
        Some(end) => end as u64,
        None => bytes.len() as u64,
    }
}

/// The note at a place, in front of an end that lies in the file.
#[tactic(auto, unfolding(crate::specs::Notes::note_in))]
fn note_in(file: &[u8], place: u64, end: u64, eight: bool) -> Result<ElfNote, Refusal>
    requires inside { end ≤ length file.now }
    requires before { place ≤ end }
    ensures value { result ≡ note_in file.now place end eight }
    ensures inside { IfOk result (NoteLiesIn end) }
{
    if place == end {
        return Err(Refusal::new(Reason::NoEntry, place));
    }
    if end - place < 12 {
        return Err(Refusal::new(Reason::Outside, place));
    }
    let name_size = u64::from(u32_at(file, place as usize));
    let text_length = u64::from(u32_at(file, place as usize + 4));
    let kind = u64::from(u32_at(file, place as usize + 8));
    let before_text = padded(eight, 12 + name_size);
    if end - place < before_text + text_length {
        return Err(Refusal::new(Reason::Outside, place));
    }
    let name = Span {
        place: place + 12,
        length: name_size,
    };
    let all = padded(eight, before_text + text_length);
    Ok(ElfNote {
        number: 0,
        at: 0,
        kind,
        name: name.place,
        name_length: name_length(name.of(file)),
        text: place + before_text,
        text_length,
        next: place + all.min(end - place),
    })
}

impl ElfNote {
    fn is_wanted(self, file: &[u8], name: &[u8], kind: u64) -> bool
        requires { self.name + self.name_length ≤ length file.now }
        ensures { result ≡ is_wanted file.now name.now kind self }
    {
        let own = Span {
            place: self.name,
            length: self.name_length,
        };
        self.kind == kind && own.of(file) == name
    }
}

/// The first note of a name and a kind.
#[tactic(auto, using(crate::proofs::Walks::walk_steps))]
fn first_note(
    file: &[u8],
    place: u64,
    end: u64,
    eight: bool,
    name: &[u8],
    kind: u64,
) -> Result<ElfNote, Refusal>
    requires inside { end ≤ length file.now }
    requires before { place ≤ end }
    ensures value { result ≡ first_note file.now name.now kind end eight (end - place) place }
    ensures inside { IfOk result (NoteLiesIn end) }
{
    let mut at = place;
    for i in 0..end - place {
        match note_in(file, at, end, eight) {
            Ok(note) => {
                if note.is_wanted(file, name, kind) {
                    return Ok(note);
                }
                at = note.next;
            }
            Err(refusal) => return Err(refusal),
        }
    }
    Err(Refusal::new(Reason::NoEntry, end))
}

#[tactic(auto, unfolding(crate::specs::Notes::note_at))]
fn note_at(file: &[u8], place: u64, end: u64, align: u64) -> Result<ElfNote, Refusal>
    ensures value { result ≡ note_at file.now place end align }
    ensures inside { IfOk result (NoteLiesIn (length file.now)) }
{
    if place > end || end > file.len() as u64 {
        return Err(Refusal::new(Reason::Outside, place));
    }
    let eight = is_padded_to_eight(align, place)?;
    note_in(file, place, end, eight)
}

#[tactic(auto, unfolding(crate::specs::Notes::note_named))]
fn note_named(
    file: &[u8],
    place: u64,
    end: u64,
    align: u64,
    name: &[u8],
    kind: u64,
) -> Result<ElfNote, Refusal>
    ensures value { result ≡ note_named file.now place end align name.now kind }
    ensures inside { IfOk result (NoteLiesIn (length file.now)) }
{
    if place > end || end > file.len() as u64 {
        return Err(Refusal::new(Reason::Outside, place));
    }
    let eight = is_padded_to_eight(align, place)?;
    first_note(file, place, end, eight, name, kind)
}

fn refused(refusal: Refusal) -> ElfNote
    ensures { result ≡ refused_note refusal }
{
    ElfNote {
        number: refusal.reason.number(),
        at: refusal.place,
        ..ElfNote::default()
    }
}

/// The note at a place of a file, in a section or a segment that ends at `end` and has an alignment; or a
/// refusal by 103, 107 where no byte is left, or 109.
#[unsafe(no_mangle)]
pub extern "C" fn unwind_elf_note(file: &[u8], place: u64, end: u64, align: u64) -> ElfNote
    ensures value { result ≡ note_answer (note_at file.now place end align) }
    ensures inside { NoteLiesIn (length file.now) result }
{
    match note_at(file, place, end, align) {
        Ok(note) => note,
        Err(refusal) => refused(refusal),
    }
}

// Kept: its parameters one by one, as C passes them.
/// The first note of a name and a kind from a place on, or a refusal by 103, 107 or 109.
#[unsafe(no_mangle)]
pub extern "C" fn unwind_elf_note_named(
    file: &[u8],
    place: u64,
    end: u64,
    align: u64,
    name: &[u8],
    kind: u64,
) -> ElfNote
    ensures value { result ≡ note_answer (note_named file.now place end align name.now kind) }
    ensures inside { NoteLiesIn (length file.now) result }
{
    match note_named(file, place, end, align, name, kind) {
        Ok(note) => note,
        Err(refusal) => refused(refusal),
    }
}
