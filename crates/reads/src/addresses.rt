// The function of a record by the record's own fields, and the record that holds an address.
ghost use Rattle.std.specs.Prelude.{◌≡◌, ◌+◌, ◌*◌, ◌%◌, ◌^◌, ◌<◌, ◌≤◌, length};
ghost use Rattle.format.specs.Coded.{result_of, numbered};
ghost use Rattle.format.proofs.Asked.{option_of};
ghost use Rattle.reader.specs.Spans.{entry_of, Holds};
ghost use Rattle.reads.specs.Addresses.{function_fields, start_of, function_of, function_found, holds, holder_in};

use format::Question;
use operations::fields::{Position, read_le};
use reader::entries;
use reader::records::Records;
use reader::section::{Body, Layout, Section, Span};

// 2^31, and what a signed number of 4 bytes from there on lacks to 2^64.
// Kept: a sum. The library's casts would be `u32::try_from(field)`, `cast_signed`, `i64::from` and `cast_unsigned`, with a case for a field of more
// bytes, which eh_frame does not have.
const NEGATIVE: u64 = 0x80000000;

const EXTENSION: u64 = 0xffffffff00000000;

// A section, and the address at which it is loaded.
#[derive(Clone, Copy)]
pub struct Loaded<'a> {
    pub section: Section<'a>,
    pub address: u64,
}

// The fields of a function's place and length.
fn fields_of(b: &Body) -> Option<(u64, u64)>
    ensures { result ≡ option_of (function_fields b.now.layout.debug b.now.layout.word b.now.bytes.now) }
{
    let s = b.bytes;
    let n = reader::fields::field_size(b.layout.debug, b.layout.word) as usize;
    let (_, place) = read_le(s, Position::START, 4)?;
    let (field, size) = read_le(s, place, n)?;
    let (length, _) = read_le(s, size, n)?;
    Some((field, length))
}

// An address of the target.
// Kept: remainders. A cast by `as` asks that the value fits its type, so by way of `u32` and `u16` they would stand inside all the same:
// `u64::from((n % 4294967296) as u32)`.
fn address_of(l: Layout, n: u64) -> u64
    ensures { result ≡ n % 2 ^ (8 * l.word) }
{
    if l.word == 8 {
        return n;
    }
    if l.word == 4 {
        return n % 4294967296;
    }
    n % 65536
}

// Where the function starts whose place field is `field`, of the record at `at`.
fn start_of(l: Layout, address: u64, at: usize, field: u64) -> u64
    requires { at + 8 < 2 ^ 64 }
    ensures { result ≡ start_of l.debug l.word address at field }
{
    if l.debug {
        return field;
    }
    let here = address.wrapping_add((at + 8) as u64);
    let sum = here.wrapping_add(field);
    if field < NEGATIVE {
        return address_of(l, sum);
    }
    address_of(l, sum.wrapping_add(EXTENSION))
}

impl<'a> Loaded<'a> {
    // The function of a record: where it starts, and its length; none where the record is too short for its fields.
    pub fn function_of(&self, fde: Span) -> Option<(u64, u64)>
        requires { Holds self.now.section.bytes.now fde }
        ensures { result ≡ option_of (function_of self.now.section.layout.debug self.now.section.layout.word self.now.address (entry_of self.now.section.bytes.now fde)) }
    {
        let (field, length) = fields_of(&self.section.body(fde))?;
        let start = start_of(self.section.layout, self.address, fde.at, field);
        Some((start, length))
    }

    // Question 64: the function of the record at a place.
    pub fn function_at(&self, at: usize) -> Result<(u64, u64), Question>
        ensures { numbered result ≡ result_of (function_found self.now.section.layout.debug self.now.section.layout.word self.now.address at self.now.section.bytes.now) }
    {
        let s = self.section.bytes;
        let Some(end) = entries::entry_end(s, at) else {
            return Err(Question::Fields);
        };
        let entry = Span { at, end };
        let debug = self.section.layout.debug;
        if entry.is_header(s, debug) {
            return Err(Question::Fields);
        }
        let Some(function) = self.function_of(entry) else {
            return Err(Question::Fields);
        };
        Ok(function)
    }

    // A record holds the address.
    // Kept: the test of walk's `holds` and call_sites' `covers`, over an Option here and by a definition of its own.
    fn record_holds(&self, fde: Span, pc: u64) -> bool
        requires { Holds self.now.section.bytes.now fde }
        ensures { result ≡ holds pc (function_of self.now.section.layout.debug self.now.section.layout.word self.now.address (entry_of self.now.section.bytes.now fde)) }
    {
        let Some((start, length)) = self.function_of(fde) else {
            return false;
        };
        start <= pc && pc - start < length
    }

    // Question 61, and the first record that holds the address, by its number and its place: 62 where none does.
    pub fn holder_in(&self, pc: u64) -> Result<(u64, u64), Question>
        ensures { numbered result ≡ result_of (holder_in self.now.section.layout.debug self.now.section.layout.word self.now.address pc self.now.section.bytes.now) }
    {
        let s = self.section.bytes;
        if !entries::tiles(s) {
            return Err(Question::Tiling);
        }
        for (k, fde) in Records::new(s, self.section.layout.debug).enumerate() {
            if self.record_holds(fde, pc) {
                return Ok((k as u64, fde.at as u64));
            }
        }
        Err(Question::Record)
    }
}
