// The index of a section, and a record read by it.
ghost use Rattle.std.specs.Prelude.{◌≡◌, length};
ghost use Rattle.format.specs.Answers.{marked_numbers};
ghost use Rattle.format.specs.Reader.{read, shortest_at};
ghost use Rattle.unwind.specs.Entries.{read_numbers};
ghost use Rattle.reads.specs.Index.{index};
ghost use Rattle.reads.specs.Standing.{Indexes};
ghost use Rattle.round_trips.specs.Indexed.{where_indexed};

use format::Question;
use reads::Indexed;
use unwind::Numbers;

// What the index answered, and what was read by it.
#[derive(Clone, Copy)]
pub struct ReadByIndex {
    pub indexed: Indexed,
    pub answer: Numbers,
}

/// The index of a section, stored in a lent list; then record k located by its two numbers there, and the rules from
/// there. Where the section is indexed the answer is that of `unwind_read` for record k, whatever k is; else it is the
/// question by which it is not.
pub fn read_by_index(
    section: &[u8],
    relocations: &[u64],
    kind: u64,
    word: u64,
    places: &mut [u64],
    k: u64,
    q: u16,
    p: u64,
) -> ReadByIndex
    ensures indexes { Indexes (index section.now relocations.now kind word (length places.old)) result.indexed places.old places.new }
    ensures reading_value { read_numbers result.answer ≡ where_indexed (index section.now relocations.now kind word (length places.old)) (marked_numbers (read section.now relocations.now kind word k q p) (shortest_at section.now relocations.now kind word k p)) }
{
    let indexed = reads::unwind_index(section, relocations, kind, word, places);
    if indexed.number != 0 {
        let answer = unwind::numbers_of(Err(indexed.number), false);
        return ReadByIndex { indexed, answer };
    }
    if indexed.records <= k {
        let answer = unwind::numbers_of(Err(Question::Record.number()), false);
        return ReadByIndex { indexed, answer };
    }
    let i = 2 * k as usize;
    let located = reads::unwind_locate_at(section, kind, word, places[i], places[i + 1]);
    let answer = reads::unwind_rules_at(section, located, q, p);
    ReadByIndex { indexed, answer }
}
