//! The segments of a file (gABI, "Program Header").

ghost use Rattle.std.specs.Prelude.{◌≡◌, ◌-◌, ◌≤◌, length, min, true, IfOk};
ghost use Rattle.elf.specs.Header.{header_size};
ghost use Rattle.elf.specs.Segments.{segment_size, phoff, table_in, first_info, count_of, checked, segments_of, file_segments, segments_answer, segments_numbers, refused_segments, SegmentLiesIn, segment_in, segment_at, refused_segment, segment_answer};
ghost use Rattle.elf.specs.Tables.{is_inside};

use crate::class::Class;
use crate::fields::{u16_at, u32_at, word_at};
use crate::header::class_of;
use crate::refusal::{Reason, Refusal};
use crate::sections::{has_first, sections_place, shoff};
use crate::table::Table;

/// A table of segments that lies in its file.
#[derive(Clone, Copy)]
pub struct Segments {
    pub class: Class,
    pub place: u64,
    pub count: u64,
}

fn segment_size(class: Class) -> usize
    ensures { result ≡ segment_size class }
{
    class.pick(32, 56)
}

fn phoff(class: Class) -> usize
    ensures { result ≡ phoff class }
{
    class.pick(28, 32)
}

impl Segments {
    fn table(self) -> Table
        ensures { result ≡ table_in self }
    {
        Table {
            place: self.place,
            size: segment_size(self.class) as u64,
            count: self.count,
        }
    }
}

#[tactic(auto, unfolding(crate::specs::Segments::first_info))]
fn first_info(class: Class, file: &[u8]) -> Result<u64, Refusal>
    requires { header_size class ≤ length file.now }
    ensures { result ≡ first_info class file.now }
{
    let place = sections_place(class, file);
    if place == 0 || !has_first(class, file, place) {
        return Err(Refusal::new(Reason::Outside, shoff(class) as u64));
    }
    Ok(u64::from(u32_at(file, place as usize + class.pick(28, 44))))
}

#[tactic(auto, unfolding(crate::specs::Segments::count_of))]
fn count(class: Class, file: &[u8]) -> Result<u64, Refusal>
    requires { header_size class ≤ length file.now }
    ensures { result ≡ count_of class file.now }
{
    match u16_at(file, class.pick(44, 56)) {
        0xffff => first_info(class, file),
        count => Ok(u64::from(count)),
    }
}

fn checked(segments: Segments, file: &[u8]) -> Result<Segments, Refusal>
    ensures value { result ≡ checked segments file.now }
    ensures inside { IfOk result (λ t. is_inside (table_in t) (length file.now) ≡ true) }
{
    if segments.table().is_inside(file.len() as u64) {
        Ok(segments)
    } else {
        Err(Refusal::new(Reason::Outside, phoff(segments.class) as u64))
    }
}

#[tactic(auto, unfolding(crate::specs::Segments::segments_of))]
fn segments_of(class: Class, file: &[u8]) -> Result<Segments, Refusal>
    requires { header_size class ≤ length file.now }
    ensures value { result ≡ segments_of class file.now }
    ensures inside { IfOk result (λ t. is_inside (table_in t) (length file.now) ≡ true) }
{
    let place = word_at(class, file, phoff(class));
    if place == 0 {
        return Ok(Segments {
            class,
            place: 0,
            count: 0,
        });
    }
    if usize::from(u16_at(file, class.pick(42, 54))) != segment_size(class) {
        return Err(Refusal::new(Reason::EntrySize, class.pick(42, 54) as u64));
    }
    let count = count(class, file)?;
    checked(
        Segments {
            class,
            place,
            count,
        },
        file,
    )
}

#[tactic(auto, unfolding(crate::specs::Segments::file_segments))]
fn file_segments(file: &[u8]) -> Result<Segments, Refusal>
    ensures value { result ≡ file_segments file.now }
    ensures inside { IfOk result (λ t. is_inside (table_in t) (length file.now) ≡ true) }
{
    let class = class_of(file)?;
    segments_of(class, file)
}

/// What unwind_elf_segments answers: where the table of segments stands, and how many it has.
// Kept: a number beside the fields, since C reads it.
#[repr(C)]
#[derive(Clone, Copy, Default)]
pub struct ElfSegments {
    pub number: u64,
    pub at: u64,
    pub place: u64,
    pub count: u64,
}

fn numbers(segments: Segments) -> ElfSegments
    ensures { result ≡ segments_numbers segments }
{
    ElfSegments {
        number: 0,
        at: 0,
        place: segments.place,
        count: segments.count,
    }
}

fn refused(refusal: Refusal) -> ElfSegments
    ensures { result ≡ refused_segments refusal }
{
    ElfSegments {
        number: refusal.reason.number(),
        at: refusal.place,
        ..ElfSegments::default()
    }
}

/// The table of segments of a file, or a refusal by 101 to 103 or 105.
#[unsafe(no_mangle)]
pub extern "C" fn unwind_elf_segments(file: &[u8]) -> ElfSegments
    ensures { result ≡ segments_answer file.now }
{
    match file_segments(file) {
        Ok(segments) => numbers(segments),
        Err(refusal) => refused(refusal),
    }
}

/// What unwind_elf_segment answers.
// Kept: a number beside the fields, since C reads it.
#[repr(C)]
#[derive(Clone, Copy, Default)]
pub struct ElfSegment {
    pub number: u64,
    pub at: u64,
    pub index: u64,
    pub kind: u64,
    pub flags: u64,
    pub place: u64,
    pub address: u64,
    pub physical: u64,
    pub size: u64,
    pub memory: u64,
    pub align: u64,
    /// How many of its bytes the file has at its place; a core file may be cut off.
    pub length: u64,
}

/// How many bytes of a size stand from a place on in a file of a length.
fn held(place: u64, size: u64, len: u64) -> u64
    ensures { result ≡ min size (len - place) }
{
    size.min(len.saturating_sub(place))
}

fn segment_in(class: Class, index: u64, len: u64, entry: &[u8]) -> ElfSegment
    requires { length entry.now ≡ segment_size class }
    ensures value { result ≡ segment_in class index len entry.now }
    ensures inside { SegmentLiesIn len result }
{
    let place = word_at(class, entry, class.pick(4, 8));
    let size = word_at(class, entry, class.pick(16, 32));
    ElfSegment {
        number: 0,
        at: 0,
        index,
        kind: u64::from(u32_at(entry, 0)),
        flags: u64::from(u32_at(entry, class.pick(24, 4))),
        place,
        address: word_at(class, entry, class.pick(8, 16)),
        physical: word_at(class, entry, class.pick(12, 24)),
        size,
        memory: word_at(class, entry, class.pick(20, 40)),
        align: word_at(class, entry, class.pick(28, 48)),
        length: held(place, size, len),
    }
}

#[tactic(auto, unfolding(crate::specs::Segments::segment_at))]
fn segment_at(file: &[u8], index: u64) -> Result<ElfSegment, Refusal>
    ensures value { result ≡ segment_at file.now index }
    ensures inside { IfOk result (SegmentLiesIn (length file.now)) }
{
    let segments = file_segments(file)?;
    let entry = segments.table().get(file, index)?;
    Ok(segment_in(segments.class, index, file.len() as u64, entry))
}

fn refused_segment(refusal: Refusal) -> ElfSegment
    ensures { result ≡ refused_segment refusal }
{
    ElfSegment {
        number: refusal.reason.number(),
        at: refusal.place,
        ..ElfSegment::default()
    }
}

/// The segment at an index, or a refusal by 101 to 103, 105 or 107. The bytes that the file has of it can be
/// read where it says, also after a refusal.
#[unsafe(no_mangle)]
pub extern "C" fn unwind_elf_segment(file: &[u8], index: u64) -> ElfSegment
    ensures value { result ≡ segment_answer (segment_at file.now index) }
    ensures inside { SegmentLiesIn (length file.now) result }
{
    match segment_at(file, index) {
        Ok(segment) => segment,
        Err(refusal) => refused_segment(refusal),
    }
}
