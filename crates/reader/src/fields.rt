// The fields of headers and records: question 64. What one field needs answers an Option, which `?` passes on; where the answer meets the
// question, `let .. else` names it (docs/DECISIONS.md, D121).
ghost use Rattle.std.specs.Prelude.{◌≡◌, true, false, ◌&&◌, ◌≤◌, length, drop};
ghost use Rattle.format.specs.Questions.{is_some};
ghost use Rattle.format.specs.Reader.{strip, spellings, read_letters, read_counted, personality_in, lsda_in, letters_in, header_tail, parse_header, record_tail, parse_record, header_numbers, header_short, record_short};
ghost use Rattle.format.specs.Prelude.{pick};
ghost use Rattle.format.specs.Shortest.{numbers_short};
ghost use Rattle.format.specs.Rows.{same_offset};
ghost use Rattle.format.specs.Headers.{pointer_size, data_factor};
ghost use Rattle.format.proofs.Asked.{option_of};
ghost use Rattle.reader.specs.Fields.{letters_of, two_of, ReadsAugmentation, CountsIn, SkipsTo, Numbers, Heads, ParsesHeader, tail_mark, header_factors, Records, ParsesRecord};

use crate::section::{Body, Layout};
use format::Question;
use numbers::encodings;
use operations::fields::{Position, read_le, read_sleb, read_uleb};

// ---- the augmentation string of a header

// What the string announces: a personality, a pointer to call sites, a signal frame.
#[derive(Clone, Copy)]
pub struct Augmentation {
    pub personality: bool,
    pub lsda: bool,
    pub signal: bool,
}

// One string, or the one that marks a signal frame: what it announces, and the position past it.
// Kept: called for each pair of strings, and no table of strings and what they announce that `find` searches: what a search promises is that no entry in
// front matches, and a law would turn that into `read_letters`, which goes on from string to string as the calls do.
fn marked(
    s: &[u8],
    at: Position,
    plain: &[u8],
    signal: &[u8],
    personality: bool,
    lsda: bool,
) -> Option<(Augmentation, Position)>
    requires { at.at ≤ length s.now }
    ensures { ReadsAugmentation s.now at.shortest result (read_letters (two_of plain.now signal.now personality lsda) (drop at.at s.now)) }
{
    let from = at.at;
    if s[from..].starts_with(plain) {
        return Some((
            Augmentation {
                personality,
                lsda,
                signal: false,
            },
            Position {
                at: from + plain.len(),
                ..at
            },
        ));
    }
    if s[from..].starts_with(signal) {
        return Some((
            Augmentation {
                personality,
                lsda,
                signal: true,
            },
            Position {
                at: from + signal.len(),
                ..at
            },
        ));
    }
    None
}

// The string at `at`, one of the source's.
pub fn letters(s: &[u8], at: Position, debug: bool) -> Option<(Augmentation, Position)>
    requires { at.at ≤ length s.now }
    ensures { ReadsAugmentation s.now at.shortest result (read_letters (spellings debug) (drop at.at s.now)) }
{
    if debug {
        return marked(s, at, b"\0", b"S\0", false, false);
    }
    if let Some(read) = marked(s, at, b"zR\0", b"zRS\0", false, false) {
        return Some(read);
    }
    if let Some(read) = marked(s, at, b"zPR\0", b"zPRS\0", true, false) {
        return Some(read);
    }
    marked(s, at, b"zPLR\0", b"zPLRS\0", true, true)
}

// ---- encodings

// How many bytes a pointer has, where its encoding is accepted. The indirect bit is taken for a personality only.
fn pointer_size(indirect: bool, word: u64, e: u8) -> Option<usize>
    ensures { result ≡ option_of (pointer_size indirect word e) }
{
    let n = numbers::pointer_size(indirect, word, u64::from(e))?;
    Some(n as usize)
}

// ---- augmentation data

// Augmentation data, a length and as many bytes: their position, and where they end.
fn counted(s: &[u8], at: Position) -> Option<(Position, usize)>
    ensures { CountsIn s.now (tail_mark false s.now at) result (read_counted (drop at.at s.now)) }
{
    let (n, start) = read_uleb(s, at)?;
    let from = start.at;
    if s.len() - from < n as usize {
        return None;
    }
    Some((start, from + n as usize))
}

// The position past a personality's encoding and pointer.
fn personality_in(s: &[u8], word: u64) -> Option<usize>
    ensures { SkipsTo s.now result (personality_in true word s.now) }
{
    if s.len() == 0 {
        return None;
    }
    let n = pointer_size(true, word, s[0])?;
    if s.len() - 1 < n {
        return None;
    }
    Some(1 + n)
}

// The bytes of a record's pointer to call sites by the encoding at `at`.
fn lsda_in(s: &[u8], at: Position, word: u64) -> Option<(u64, Position)>
    requires { at.at ≤ length s.now }
    ensures { Numbers s.now at.shortest result (lsda_in true word (drop at.at s.now)) }
{
    let from = at.at;
    if s.len() <= from {
        return None;
    }
    let n = pointer_size(false, word, s[from])?;
    Some((n as u64, Position { at: from + 1, ..at }))
}

// The data that the string promises, the records' own encoding last: the bytes of a record's pointer to call sites.
fn letters_in(s: &[u8], word: u64, p: Augmentation) -> Option<usize>
    ensures { result ≡ option_of (letters_in (letters_of p) word s.now) }
{
    let at = if p.personality {
        personality_in(s, word)?
    } else {
        0
    };
    let start = Position::from(at);
    let (size, last) = if p.lsda {
        lsda_in(s, start, word)?
    } else {
        (0, start)
    };
    let end = last.at;
    if s.len() <= end {
        return None;
    }
    if u64::from(s[end]) != encodings::PCREL_SDATA4 {
        return None;
    }
    Some(size as usize)
}

// ---- the fields of a header

// The position of the operations, the bytes of a record's pointer to call sites, and the signal mark.
#[derive(Clone, Copy)]
pub struct Header {
    pub operations: Position,
    pub pointer: u64,
    pub signal: bool,
}

impl Body<'_> {
    // The augmentation data, of which debug_frame has none; the operations follow it.
    pub fn header_tail(&self, at: Position, p: Augmentation) -> Option<Header>
        requires { at.at ≤ length self.now.bytes.now }
        ensures { Heads self.now.bytes.now (tail_mark self.now.layout.debug self.now.bytes.now at) result (header_tail self.now.layout.debug (letters_of p) self.now.layout.word (drop at.at self.now.bytes.now)) }
    {
        let s = self.bytes;
        if self.layout.debug {
            return Some(Header {
                operations: at,
                pointer: 0,
                signal: p.signal,
            });
        }
        let (start, end) = counted(s, at)?;
        let from = start.at;
        let n = letters_in(&s[from..end], self.layout.word, p)?;
        Some(Header {
            operations: Position { at: end, ..start },
            pointer: n as u64,
            signal: p.signal,
        })
    }
}

// The data alignment factor is minus the word.
pub fn factor_ok(z: i64, word: u64) -> bool
    ensures { result ≡ same_offset z (data_factor word) }
{
    if 0 < z {
        return false;
    }
    z.unsigned_abs() == word
}

impl Body<'_> {
    // From the code alignment factor on.
    fn header_factors(&self, at: Position, p: Augmentation) -> Result<Header, Question>
        ensures { ParsesHeader self.now.bytes.now (at.shortest && numbers_short (header_numbers self.now.layout.debug) (drop at.at self.now.bytes.now)) result (header_factors self.now.layout.debug (letters_of p) self.now.layout.word (drop at.at self.now.bytes.now)) }
    {
        let s = self.bytes;
        let Some((code, data)) = read_uleb(s, at) else {
            return Err(Question::Fields);
        };
        if code != 1 {
            return Err(Question::Fields);
        }
        let Some((z, ret)) = read_sleb(s, data) else {
            return Err(Question::Fields);
        };
        if !factor_ok(z, self.layout.word) {
            return Err(Question::Fields);
        }
        let Some((reg, tail)) = read_uleb(s, ret) else {
            return Err(Question::Fields);
        };
        if 0xffff < reg {
            return Err(Question::Fields);
        }
        let Some(header) = self.header_tail(tail, p) else {
            return Err(Question::Fields);
        };
        Ok(header)
    }

    // Question 64 of a header, by the bytes behind its length.
    pub fn parse_header(&self) -> Result<Header, Question>
        ensures { ParsesHeader self.now.bytes.now (header_short self.now.layout.debug self.now.bytes.now) result (parse_header self.now.layout.debug self.now.layout.word self.now.bytes.now) }
    {
        let s = self.bytes;
        let Some((_, version)) = read_le(s, Position::START, 4) else {
            return Err(Question::Fields);
        };
        let from = version.at;
        if s.len() <= from {
            return Err(Question::Fields);
        }
        if s[from] != 1 {
            return Err(Question::Fields);
        }
        let string = Position {
            at: from + 1,
            ..version
        };
        let Some((p, past)) = letters(s, string, self.layout.debug) else {
            return Err(Question::Fields);
        };
        self.header_factors(past, p)
    }
}

// ---- the fields of a record

// The position of the operations, and the function's length.
#[derive(Clone, Copy)]
pub struct Record {
    pub operations: Position,
    pub size: u64,
}

// The augmentation of a record holds its pointer to call sites.
pub fn record_tail(s: &[u8], at: Position, debug: bool, pointer: u64, size: u64) -> Option<Record>
    requires { at.at ≤ length s.now }
    ensures { Records s.now (tail_mark debug s.now at) result (record_tail debug pointer size (drop at.at s.now)) }
{
    if debug {
        return Some(Record {
            operations: at,
            size,
        });
    }
    let (start, end) = counted(s, at)?;
    let from = start.at;
    if ((end - from) as u64) < pointer {
        return None;
    }
    Some(Record {
        operations: Position { at: end, ..start },
        size,
    })
}

// The bytes of a function's place and of its length.
pub fn field_size(debug: bool, word: u64) -> u64
    ensures { result ≡ pick debug word 4 }
{
    if debug { word } else { 4 }
}

impl Body<'_> {
    // Question 64 of a record; `shortest` is the mark of what was read before.
    pub fn parse_record(&self, pointer: u64, shortest: bool) -> Result<Record, Question>
        ensures { ParsesRecord self.now.bytes.now (shortest && record_short self.now.layout.debug self.now.bytes.now) result (parse_record self.now.layout.debug self.now.layout.word pointer self.now.bytes.now) }
    {
        let s = self.bytes;
        let n = field_size(self.layout.debug, self.layout.word) as usize;
        let start = Position { at: 0, shortest };
        let Some((_, place)) = read_le(s, start, 4) else {
            return Err(Question::Fields);
        };
        let Some((_, length)) = read_le(s, place, n) else {
            return Err(Question::Fields);
        };
        let Some((size, tail)) = read_le(s, length, n) else {
            return Err(Question::Fields);
        };
        let Some(record) = record_tail(s, tail, self.layout.debug, pointer, size) else {
            return Err(Question::Fields);
        };
        Ok(record)
    }
}
