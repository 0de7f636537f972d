// A section taken apart: entries, the fields of headers and records, operations.
ghost use Rattle.std.specs.Prelude.{◌≡◌};
ghost use Rattle.parts.specs.Entries.{next_entry};
ghost use Rattle.parts.specs.Headers.{read_header_at};
ghost use Rattle.parts.specs.Records.{read_record_at};
ghost use Rattle.parts.specs.Operations.{read_operation_at};
ghost use Rattle.parts.specs.Agrees.{HeaderTaken, RecordTaken};

use parts::EntryRead;
use parts::headers::HeaderRead;
use parts::operation::OperationRead;
use parts::records::RecordRead;

// The entry at a position: 0; 11, 61 or 62, and the position stays.
#[unsafe(no_mangle)]
pub extern "C" fn unwind_next_entry(section: &[u8], kind: u64, at: u64) -> EntryRead
    ensures { result ≡ next_entry section.now kind at }
{
    parts::unwind_next_entry(section, kind, at)
}

// The header at a place: 0; 11, 61, 63 where it is a record, 64 and the field at fault.
#[unsafe(no_mangle)]
pub extern "C" fn unwind_read_header(section: &[u8], kind: u64, word: u64, place: u64) -> HeaderRead
    ensures result_value { result ≡ read_header_at section.now kind word place }
    ensures taken { HeaderTaken section.now kind word place result }
{
    parts::headers::unwind_read_header(section, kind, word, place)
}

// The record at a place, with its header's pointer size: 0; 11, 61, 62 where it is a header, 64 and the field at fault.
#[unsafe(no_mangle)]
pub extern "C" fn unwind_read_record(
    section: &[u8],
    kind: u64,
    word: u64,
    pointer: u64,
    place: u64,
) -> RecordRead
    ensures result_value { result ≡ read_record_at section.now kind word pointer place }
    ensures taken { RecordTaken section.now kind word pointer place result }
{
    parts::records::unwind_read_record(section, kind, word, pointer, place)
}

// One operation of those from `at` to `end`: 0; 11, 62 where there is none left, 66 where none can be read.
#[unsafe(no_mangle)]
pub extern "C" fn unwind_read_operation(
    section: &[u8],
    at: u64,
    end: u64,
    word: u64,
) -> OperationRead
    ensures { result ≡ read_operation_at section.now at end word }
{
    parts::operation::unwind_read_operation(section, at, end, word)
}
