// The entries of a section, one behind the other: question 61, which are headers, and record k.
ghost use Rattle.std.specs.Prelude.{◌≡◌, ◌+◌, ◌-◌, ◌≤◌, ◌<◌, length, T};
ghost use Rattle.std.proofs.Math.ListN.{get_elem?};
ghost use Rattle.format.specs.Questions.{is_some};
ghost use Rattle.format.specs.Reader.{second, is_header, records, entries};
ghost use Rattle.reader.specs.Spans.{part, entry_of, entries_from, listed, end_at, Holds, Ends, Spans};

use crate::records::Records;
use crate::section::Span;
use operations::fields::{Position, read_le};

// Where the entry at `at` ends: a 4-byte length, at least 4, and as many bytes.
pub fn entry_end(s: &[u8], at: usize) -> Option<usize>
    ensures { result ≡ end_at s.now at }
{
    let (n, body) = read_le(s, Position::from(at), 4)?;
    if n < 4 {
        return None;
    }
    let from = body.at;
    if s.len() - from < n as usize {
        return None;
    }
    Some(from + n as usize)
}

// Question 61: the entries tile the section.
pub fn tiles(s: &[u8]) -> bool
    ensures { result ≡ is_some (entries s.now) }
{
    let mut at = 0;
    // Kept: a `while` of six lines. `Entries` goes only over a section that has passed this test. An iterator for it would be a second struct, whose
    // `next` has the two tests here, whose items are `Option<usize>` with a state behind the first `None`, and whose clauses say what each gives; then
    // comes `all(|end| end.is_some())`.
    while at < s.len() {
        let Some(end) = entry_end(s, at) else {
            return false;
        };
        at = end;
    }
    true
}

// Where the entry at `at` ends, in a section that is tiled from there on.
pub fn past(s: &[u8], at: usize) -> usize
    requires { (at < length s.now) × T (is_some (entries_from s.now at)) }
    ensures { Ends s.now at result }
{
    let Some(end) = entry_end(s, at) else {
        return 0;
    };
    end
}

// The first field of an entry's body.
fn id_of(body: &[u8]) -> u64
    ensures { result ≡ second body.now }
{
    let Some((v, _)) = read_le(body, Position::START, 4) else {
        return 0;
    };
    v
}

impl Span {
    // The second field, which stands behind the length.
    pub fn second(self, s: &[u8]) -> u64
        requires { Holds s.now self }
        ensures { result ≡ second (part s.now (self.at + 4) self.end) }
    {
        let body = self.at + 4;
        let end = self.end;
        id_of(&s[body..end])
    }

    pub fn is_header(self, s: &[u8], debug: bool) -> bool
        requires { Holds s.now self }
        ensures { result ≡ is_header debug (entry_of s.now self) }
    {
        self.second(s) == numbers::header_id(debug)
    }
}

// The entries of a section, which they tile, from a position on.
// Kept: that they tile it is a clause of `new`, `record_span`, `Records::new` and `Section::header_of`, which are public and take the bytes of a section:
// with a struct that has it as a field they would ask for more by its type.
#[derive(Drop)]
pub struct Entries<'a> {
    pub(crate) section: &'a [u8],
    at: usize,
    ghost tiled: { T (is_some (entries_from section.now at)) },
}

impl<'a> Entries<'a> {
    #[tactic(auto, unfolding(crate::specs::Spans::entries_from, format::specs::Reader::entries))]
    pub fn new(section: &'a [u8]) -> Entries<'a>
        requires { T (is_some (entries section.now)) }
        ensures { (result.section ≡ section.entry) × (result.at ≡ 0) }
    {
        Entries { section, at: 0 }
    }

    // From where an entry starts.
    pub fn starting(section: &'a [u8], at: usize) -> Entries<'a>
        requires { T (is_some (entries_from section.now at)) }
        ensures { (result.section ≡ section.entry) × (result.at ≡ at) }
    {
        Entries { section, at }
    }
}

impl Iterator for Entries<'_> {
    ghost use Rattle.std.specs.Iterator.{at_most};
    ghost use Rattle.reader.specs.Entries.{Gives};

    type Item = Span;

    ghost next_gives = { Gives };

    ghost remaining = { λ s. at_most (length s.section.now - s.at) };

    fn next(&mut self) -> Option<Span> {
        let at = self.at;
        if self.section.len() <= at {
            return None;
        }
        let end = past(self.section, at);
        self.at = end;
        Some(Span { at, end })
    }
}

// Question 62: where record k stands.
pub fn record_span(s: &[u8], debug: bool, k: u64) -> Option<Span>
    requires { T (is_some (entries s.now)) }
    ensures { Spans s.now result (get_elem? (records debug (listed (entries s.now))) k) }
{
    Records::new(s, debug).nth(k as usize)
}
