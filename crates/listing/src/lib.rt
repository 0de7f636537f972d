// The rules at every location of a record in one run, and its export (include/dekvoz.h).
#![tactic(auto)]

ghost use Rattle.std.specs.Prelude.{◌≡◌, length};
ghost use Rattle.listing.specs.Lines.{along, Lists};
ghost use Rattle.listing.specs.AtOffset.{Says};

use format::Question;
use reader::location;
use reads::Located;

pub mod run;

// How many numbers a line has.
pub const LINE_STRIDE: usize = 7;

// What unwind_rules_along answers: the lines, and the question by which the reader refuses from the offset `from` on. On a refusal all but the
// question's number is 0.
// Kept: the questions' numbers, which C reads.
#[repr(C)]
#[derive(Clone, Copy, Default)]
pub struct Listed {
    pub number: u64,
    pub lines: u64,
    pub ending: u64,
    pub from: u64,
}

// A refusal, by its number, which C gives for a refused locating.
pub fn unlisted(number: u64) -> Listed
    ensures { result ≡ record { number = number; lines = 0; ending = 0; from = 0 } }
{
    Listed {
        number,
        ..Listed::default()
    }
}

#[unsafe(no_mangle)]
pub extern "C" fn unwind_rules_along(
    section: &[u8],
    located: Located,
    q: u16,
    lines: &mut [u64],
) -> Listed
    ensures lists { Lists q (along section.now located (length lines.old)) result lines.old lines.new }
    ensures says { Says section.now located q result lines.new }
{
    if located.number != 0 {
        return unlisted(located.number);
    }
    let l = location::Located::from(located);
    if !reader::in_section(section, l) {
        return unlisted(Question::Fields.number());
    }
    if (lines.len() / LINE_STRIDE) as u64 <= located.record_end - located.record {
        return unlisted(Question::OtherRoom.number());
    }
    run::fill(section, &l, q, lines)
}
