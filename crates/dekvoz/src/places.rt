// The reader by places.
ghost use Rattle.std.specs.Prelude.{◌≡◌, length};
ghost use Rattle.reads.specs.Places.{locate_record, reader_places, rules_of};
ghost use Rattle.format.specs.Answers.{marked_numbers};
ghost use Rattle.unwind.specs.Entries.{read_numbers};
ghost use Rattle.reader.specs.Finds.{shortest_from};
ghost use Rattle.reads.specs.Addresses.{function_at, record_of};
ghost use Rattle.reads.specs.Index.{index, locate_at};
ghost use Rattle.reads.specs.Standing.{Indexes};

use reads::{Holder, Indexed, Located, Placed};
use unwind::Numbers;

// Record k: where its operations and those of its header are.
#[unsafe(no_mangle)]
pub extern "C" fn unwind_locate(
    section: &[u8],
    relocations: &[u64],
    kind: u64,
    word: u64,
    k: u64,
) -> Located
    ensures { result ≡ locate_record section.now relocations.now kind word k }
{
    reads::unwind_locate(section, relocations, kind, word, k)
}

// The rules at p from what unwind_locate or unwind_locate_at answered: unwind_read's answer.
#[unsafe(no_mangle)]
pub extern "C" fn unwind_rules_at(section: &[u8], located: Located, q: u16, p: u64) -> Numbers
    ensures { read_numbers result ≡ marked_numbers (rules_of section.now located q p) (shortest_from section.now (reader_places located) p) }
{
    reads::unwind_rules_at(section, located, q, p)
}

// Where the function of the record at a place starts, and its length, by the record's own fields.
#[unsafe(no_mangle)]
pub extern "C" fn unwind_function_at(
    section: &[u8],
    kind: u64,
    word: u64,
    address: u64,
    record: u64,
) -> Placed
    ensures { result ≡ function_at section.now kind word address «record» }
{
    reads::unwind_function_at(section, kind, word, address, record)
}

// The first record whose function holds pc.
#[unsafe(no_mangle)]
pub extern "C" fn unwind_record_of(
    section: &[u8],
    kind: u64,
    word: u64,
    address: u64,
    pc: u64,
) -> Holder
    ensures { result ≡ record_of section.now kind word address pc }
{
    reads::unwind_record_of(section, kind, word, address, pc)
}

// The place of each record and of its header, two numbers each, at the front of a lent list.
#[unsafe(no_mangle)]
pub extern "C" fn unwind_index(
    section: &[u8],
    relocations: &[u64],
    kind: u64,
    word: u64,
    places: &mut [u64],
) -> Indexed
    ensures { Indexes (index section.now relocations.now kind word (length places.old)) result places.old places.new }
{
    reads::unwind_index(section, relocations, kind, word, places)
}

// Where the operations of the record at one place and of the header at another are, with no pass over the section.
#[unsafe(no_mangle)]
pub extern "C" fn unwind_locate_at(
    section: &[u8],
    kind: u64,
    word: u64,
    record: u64,
    header: u64,
) -> Located
    ensures { result ≡ locate_at section.now kind word «record» header }
{
    reads::unwind_locate_at(section, kind, word, record, header)
}
