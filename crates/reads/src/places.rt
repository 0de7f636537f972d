// Where the operations of a record and of its header are, by numbers.
ghost use Rattle.std.specs.Prelude.{◌≡◌, ◌+◌, ◌≤◌, length};
ghost use Rattle.format.specs.Coded.{result_of, numbered};
ghost use Rattle.format.specs.Lists.{relocations_of};
ghost use Rattle.reader.specs.Spans.{entry_of, Holds};
ghost use Rattle.reads.specs.Places.{locate_entries, locate_nth, reader_places};
ghost use Rattle.reads.specs.Index.{locate_in};
ghost use Rattle.reads.specs.Standing.{located_numbers};

use crate::Located;
use format::Question;
use reader::section::{Section, Span};
use reader::{entries, location};

// The numbers of what the reader located.
impl From<location::Located> for Located {
    ghost from_gives = { λ l n. n ≡ located_numbers l };

    fn from(l: location::Located) -> Located {
        Located {
            number: 0,
            header: l.header as u64,
            header_end: l.header_end as u64,
            record: l.record as u64,
            record_end: l.record_end as u64,
            length: l.size,
            pointer: l.pointer,
            signal: u64::from(l.signal),
            word: l.word,
            shortest: u64::from(l.shortest),
        }
    }
}

// The numbers as the reader takes them.
impl From<Located> for location::Located {
    ghost from_gives = { λ n l. l ≡ reader_places n };

    fn from(l: Located) -> location::Located {
        location::Located {
            header: l.header as usize,
            header_end: l.header_end as usize,
            record: l.record as usize,
            record_end: l.record_end as usize,
            size: l.length,
            pointer: l.pointer,
            signal: l.signal == 1,
            word: l.word,
            shortest: l.shortest == 1,
        }
    }
}

// Question 64 of a header, and then of a record.
pub fn locate_entries(section: &Section, cie: Span, fde: Span) -> Result<Located, Question>
    requires { Holds section.now.bytes.now cie × Holds section.now.bytes.now fde }
    ensures { numbered result ≡ result_of (locate_entries section.now.layout.debug section.now.layout.word (entry_of section.now.bytes.now cie) (entry_of section.now.bytes.now fde)) }
{
    let l = section.parse(cie, fde)?;
    Ok(Located::from(l))
}

// Questions 61 to 64 of record k, in this order.
pub fn locate_nth(section: &Section, k: u64) -> Result<Located, Question>
    ensures { numbered result ≡ result_of (locate_nth section.now.layout.debug (relocations_of section.now.relocations.now) section.now.layout.word k section.now.bytes.now) }
{
    let (cie, fde) = section.header_and_record(k)?;
    locate_entries(section, cie, fde)
}

// Question 63 and 64 of the record at a place with the header at another.
pub fn locate_at(section: &Section, at: usize, cie: usize) -> Result<Located, Question>
    ensures { numbered result ≡ result_of (locate_in section.now.layout.debug section.now.layout.word section.now.bytes.now at cie) }
{
    if at <= cie {
        return Err(Question::Header);
    }
    let s = section.bytes;
    let Some(past) = entries::entry_end(s, cie) else {
        return Err(Question::Fields);
    };
    let Some(end) = entries::entry_end(s, at) else {
        return Err(Question::Fields);
    };
    let header = Span { at: cie, end: past };
    locate_entries(section, header, Span { at, end })
}
