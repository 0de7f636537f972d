// The reader's exports by place (include/dekvoz.h): where a record's operations are, the rules from there, the function of a record and the
// record of an address, and the index of all records.
#![tactic(auto)]

ghost use Rattle.std.specs.Prelude.{◌≡◌, length};
ghost use Rattle.format.specs.Answers.{marked_numbers};
ghost use Rattle.format.specs.Coded.{numbered};
ghost use Rattle.format.specs.Reader.{read};
ghost use Rattle.unwind.specs.Entries.{read_numbers};
ghost use Rattle.reads.specs.Places.{located_as, locate_record, reader_places, rules_of};
ghost use Rattle.reader.specs.Finds.{shortest_from};
ghost use Rattle.reads.specs.Addresses.{placed_as, function_at, holder_as, record_of};
ghost use Rattle.reads.specs.Index.{index, indexed_as, locate_at};
ghost use Rattle.reads.specs.Standing.{Indexes};

use crate::addresses::Loaded;
use format::{Question, Rules};
use reader::location;
use unwind::Numbers;

pub mod addresses;
pub mod index;
pub mod places;

// What unwind_locate answers: where the operations of a record and of its header are, the function's length, the bytes of a record's pointer
// to call sites, the header's signal mark, the word, and whether the numbers among the fields of both are spelled shortest. On a refusal all
// but the question's number is 0.
// Kept: these four have a number beside their fields, and 0 or 1 for a mark, since C reads them.
#[repr(C)]
#[derive(Clone, Copy, Default)]
pub struct Located {
    pub number: u64,
    pub header: u64,
    pub header_end: u64,
    pub record: u64,
    pub record_end: u64,
    pub length: u64,
    pub pointer: u64,
    pub signal: u64,
    pub word: u64,
    pub shortest: u64,
}

// What unwind_function_at answers: where the function of a record starts, and its length.
#[repr(C)]
#[derive(Clone, Copy, Default)]
pub struct Placed {
    pub number: u64,
    pub address: u64,
    pub length: u64,
}

// What unwind_record_of answers: the record's number and its place.
#[repr(C)]
#[derive(Clone, Copy, Default)]
pub struct Holder {
    pub number: u64,
    pub k: u64,
    pub place: u64,
}

// What unwind_index answers: how many records there are.
#[repr(C)]
#[derive(Clone, Copy, Default)]
pub struct Indexed {
    pub number: u64,
    pub records: u64,
}

// ---- the exports' answers, by what was found

impl From<Result<Located, Question>> for Located {
    ghost from_gives = { λ found a. a ≡ located_as (numbered found) };

    #[tactic(auto, unfolding(crate::specs::Places::located_as, crate::specs::Places::refused))]
    fn from(found: Result<Located, Question>) -> Located {
        match found {
            Ok(l) => l,
            Err(question) => Located {
                number: question.number(),
                ..Located::default()
            },
        }
    }
}

// Kept: two impls of one form, for Placed and for Holder: each makes a struct of C with fields of its own names, and meets its own definition
// (`placed_as`, `holder_as`).
impl From<Result<(u64, u64), Question>> for Placed {
    ghost from_gives = { λ found a. a ≡ placed_as (numbered found) };

    #[tactic(auto, unfolding(crate::specs::Addresses::placed_as))]
    fn from(found: Result<(u64, u64), Question>) -> Placed {
        match found {
            Ok((address, length)) => Placed {
                number: 0,
                address,
                length,
            },
            Err(question) => Placed {
                number: question.number(),
                ..Placed::default()
            },
        }
    }
}

impl From<Result<(u64, u64), Question>> for Holder {
    ghost from_gives = { λ found a. a ≡ holder_as (numbered found) };

    #[tactic(auto, unfolding(crate::specs::Addresses::holder_as))]
    fn from(found: Result<(u64, u64), Question>) -> Holder {
        match found {
            Ok((k, place)) => Holder {
                number: 0,
                k,
                place,
            },
            Err(question) => Holder {
                number: question.number(),
                ..Holder::default()
            },
        }
    }
}

impl From<Result<usize, Question>> for Indexed {
    ghost from_gives = { λ found a. a ≡ indexed_as (numbered found) };

    #[tactic(auto, unfolding(crate::specs::Index::indexed_as))]
    fn from(found: Result<usize, Question>) -> Indexed {
        match found {
            Ok(n) => Indexed {
                number: 0,
                records: n as u64,
            },
            Err(question) => Indexed {
                number: question.number(),
                ..Indexed::default()
            },
        }
    }
}

// ---- the exports

// Kept: their parameters one by one, as C passes them; so for `read_located`, which is asked as `unwind_read` is.
#[unsafe(no_mangle)]
pub extern "C" fn unwind_locate(
    section: &[u8],
    relocations: &[u64],
    kind: u64,
    word: u64,
    k: u64,
) -> Located
    ensures { result ≡ locate_record section.now relocations.now kind word k }
{
    let Some(section) = reader::section_of(section, relocations, kind, word) else {
        return Located::from(Err(Question::Interface));
    };
    Located::from(places::locate_nth(&section, k))
}

// The rules from any numbers; a refusal of the locating is answered as it is.
// Kept: a number and no question, here and in `read_located`, since C may pass any number in `l`.
pub fn rules_of(section: &[u8], l: Located, q: u16, p: u64) -> Result<Rules, u64>
    ensures { result ≡ rules_of section.now l q p }
{
    if l.number != 0 {
        return Err(l.number);
    }
    let rules = reader::rules_at(section, location::Located::from(l), q, p)?;
    Ok(rules)
}

// Locating and then the rules, which is what `read` answers.
pub fn read_located(
    section: &[u8],
    relocations: &[u64],
    kind: u64,
    word: u64,
    k: u64,
    q: u16,
    p: u64,
) -> Result<Rules, u64>
    ensures { result ≡ read section.now relocations.now kind word k q p }
{
    let located = unwind_locate(section, relocations, kind, word, k);
    rules_of(section, located, q, p)
}

#[unsafe(no_mangle)]
pub extern "C" fn unwind_rules_at(section: &[u8], located: Located, q: u16, p: u64) -> Numbers
    ensures { read_numbers result ≡ marked_numbers (rules_of section.now located q p) (shortest_from section.now (reader_places located) p) }
{
    let rules = rules_of(section, located, q, p);
    let shortest = reader::shortest_at(section, location::Located::from(located), p);
    unwind::numbers_of(rules, shortest)
}

#[unsafe(no_mangle)]
pub extern "C" fn unwind_function_at(
    section: &[u8],
    kind: u64,
    word: u64,
    address: u64,
    record: u64,
) -> Placed
    ensures { result ≡ function_at section.now kind word address «record» }
{
    let none = [];
    let Some(section) = reader::section_of(section, &none, kind, word) else {
        return Placed::from(Err(Question::Interface));
    };
    Placed::from(Loaded { section, address }.function_at(record as usize))
}

#[unsafe(no_mangle)]
pub extern "C" fn unwind_record_of(
    section: &[u8],
    kind: u64,
    word: u64,
    address: u64,
    pc: u64,
) -> Holder
    ensures { result ≡ record_of section.now kind word address pc }
{
    let none = [];
    let Some(section) = reader::section_of(section, &none, kind, word) else {
        return Holder::from(Err(Question::Interface));
    };
    Holder::from(Loaded { section, address }.holder_in(pc))
}

#[unsafe(no_mangle)]
pub extern "C" fn unwind_index(
    section: &[u8],
    relocations: &[u64],
    kind: u64,
    word: u64,
    places: &mut [u64],
) -> Indexed
    ensures { Indexes (index section.now relocations.now kind word (length places.old)) result places.old places.new }
{
    let Some(section) = reader::section_of(section, relocations, kind, word) else {
        return Indexed::from(Err(Question::Interface));
    };
    Indexed::from(index::index_in(&section.links(), places))
}

#[unsafe(no_mangle)]
pub extern "C" fn unwind_locate_at(
    section: &[u8],
    kind: u64,
    word: u64,
    record: u64,
    header: u64,
) -> Located
    ensures { result ≡ locate_at section.now kind word «record» header }
{
    let none = [];
    let Some(section) = reader::section_of(section, &none, kind, word) else {
        return Located::from(Err(Question::Interface));
    };
    Located::from(places::locate_at(&section, record as usize, header as usize))
}
