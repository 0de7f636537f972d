// ELF files: their headers, sections, segments and notes.
ghost use Rattle.std.specs.Prelude.{◌≡◌, length};
ghost use Rattle.elf.specs.Header.{header_answer};
ghost use Rattle.elf.specs.Sections.{sections_answer};
ghost use Rattle.elf.specs.Section.{section_at, section_named, section_answer, SectionLiesIn};
ghost use Rattle.elf.specs.Segments.{segments_answer, segment_at, segment_answer, SegmentLiesIn};
ghost use Rattle.elf.specs.Notes.{note_at, note_named, note_answer, NoteLiesIn};

use elf::{ElfHeader, ElfNote, ElfSection, ElfSections, ElfSegment, ElfSegments};

/// The header of a file, or a refusal by 101, 102 or 103.
#[unsafe(no_mangle)]
pub extern "C" fn unwind_elf_header(file: &[u8]) -> ElfHeader
    ensures { result ≡ header_answer file.now }
{
    elf::unwind_elf_header(file)
}

/// The section table of a file, or a refusal by 101 to 105.
#[unsafe(no_mangle)]
pub extern "C" fn unwind_elf_sections(file: &[u8]) -> ElfSections
    ensures { result ≡ sections_answer file.now }
{
    elf::unwind_elf_sections(file)
}

/// The section at an index, or a refusal by 101 to 107.
#[unsafe(no_mangle)]
pub extern "C" fn unwind_elf_section(file: &[u8], index: u64) -> ElfSection
    ensures value { result ≡ section_answer (section_at file.now index) }
    ensures inside { SectionLiesIn (length file.now) result }
{
    elf::unwind_elf_section(file, index)
}

/// The first section of a name, or a refusal by 101 to 107. A section whose name cannot be read is passed
/// over.
#[unsafe(no_mangle)]
pub extern "C" fn unwind_elf_section_named(file: &[u8], name: &[u8]) -> ElfSection
    ensures value { result ≡ section_answer (section_named file.now name.now) }
    ensures inside { SectionLiesIn (length file.now) result }
{
    elf::unwind_elf_section_named(file, name)
}

/// The table of segments of a file, or a refusal by 101 to 103 or 105.
#[unsafe(no_mangle)]
pub extern "C" fn unwind_elf_segments(file: &[u8]) -> ElfSegments
    ensures { result ≡ segments_answer file.now }
{
    elf::unwind_elf_segments(file)
}

/// The segment at an index, or a refusal by 101 to 103, 105 or 107.
#[unsafe(no_mangle)]
pub extern "C" fn unwind_elf_segment(file: &[u8], index: u64) -> ElfSegment
    ensures value { result ≡ segment_answer (segment_at file.now index) }
    ensures inside { SegmentLiesIn (length file.now) result }
{
    elf::unwind_elf_segment(file, index)
}

/// The note at a place of a file, in a section or a segment that ends at `end` and has an alignment; or a
/// refusal by 103, 107 where no byte is left, or 109.
#[unsafe(no_mangle)]
pub extern "C" fn unwind_elf_note(file: &[u8], place: u64, end: u64, align: u64) -> ElfNote
    ensures value { result ≡ note_answer (note_at file.now place end align) }
    ensures inside { NoteLiesIn (length file.now) result }
{
    elf::unwind_elf_note(file, place, end, align)
}

// Kept: its parameters one by one, as C passes them.
/// The first note of a name and a kind from a place on, or a refusal by 103, 107 or 109.
#[unsafe(no_mangle)]
pub extern "C" fn unwind_elf_note_named(
    file: &[u8],
    place: u64,
    end: u64,
    align: u64,
    name: &[u8],
    kind: u64,
) -> ElfNote
    ensures value { result ≡ note_answer (note_named file.now place end align name.now kind) }
    ensures inside { NoteLiesIn (length file.now) result }
{
    elf::unwind_elf_note_named(file, place, end, align, name, kind)
}
