// The record that holds an address, and its header.
ghost use Rattle.std.specs.Prelude.{◌≡◌};
ghost use Rattle.format.specs.Coded.{result_of, numbered};
ghost use Rattle.lookup.specs.Entries.{entries_as, held_in};

use crate::Entries;
use format::Question;
use reader::section::Section;
use reads::addresses::Loaded;

impl From<Result<(u64, u64, u64), Question>> for Entries {
    ghost from_gives = { λ found a. a ≡ entries_as (numbered found) };

    #[tactic(auto, unfolding(crate::specs::Entries::entries_as))]
    fn from(found: Result<(u64, u64, u64), Question>) -> Entries {
        match found {
            Ok((k, record, header)) => Entries {
                number: 0,
                k,
                record,
                header,
            },
            Err(question) => Entries {
                number: question.number(),
                ..Entries::default()
            },
        }
    }
}

// Questions 61, 62 and 63: the number of the first record that holds an address, its place and that of
// its header.
pub fn holding(section: &Section, address: u64, pc: u64) -> Result<(u64, u64, u64), Question>
    ensures { numbered result ≡ result_of (held_in section.now address pc) }
{
    let loaded = Loaded {
        section: *section,
        address,
    };
    let (k, record) = loaded.holder_in(pc)?;
    let (header, _) = section.header_and_record(k)?;
    Ok((k, record, header.at as u64))
}
