// The records of a section, one behind the other.
ghost use Rattle.std.specs.Prelude.{◌≡◌, ◌-◌, length, T};
ghost use Rattle.format.specs.Questions.{is_some};
ghost use Rattle.format.specs.Reader.{records, entries};
ghost use Rattle.reader.specs.Records.{left};
ghost use Rattle.reader.specs.Spans.{listed};

use crate::entries::Entries;
use crate::section::Span;

// The records of a section: the entries that are no headers, from a position on.
#[derive(Drop)]
pub struct Records<'a> {
    rest: Entries<'a>,
    debug: bool,
}

impl<'a> Records<'a> {
    #[tactic(auto, unfolding(crate::specs::Records::left, crate::specs::Spans::entries_from, format::specs::Reader::entries))]
    pub fn new(section: &'a [u8], debug: bool) -> Records<'a>
        requires { T (is_some (entries section.now)) }
        ensures { (result.rest.section ≡ section.entry) × (result.debug ≡ debug) × (left result ≡ records debug (listed (entries section.now))) }
    {
        Records {
            rest: Entries::new(section),
            debug,
        }
    }
}

impl Iterator for Records<'_> {
    ghost use Rattle.std.specs.Iterator.{at_most};
    ghost use Rattle.reader.specs.Records.{GivesRecord};

    type Item = Span;

    ghost next_gives = { GivesRecord };

    ghost remaining = { λ s. at_most (length s.rest.section.now - s.rest.at) };

    fn next(&mut self) -> Option<Span> {
        let section = self.rest.section;
        let debug = self.debug;
        self.rest.find(|entry| !entry.is_header(section, debug))
    }
}
