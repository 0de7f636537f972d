// The reader: from the bytes of a section to the rules at an offset of a record's function. entries, fields and location find the record
// and its header (61 to 64), run goes over their operations (66 to 69), shortest tells how their numbers are spelled,
// and cursor goes from entry to entry.
#![tactic(auto)]

ghost use Rattle.std.specs.Prelude.{◌≡◌};
ghost use Rattle.format.specs.Coded.{numbered};
ghost use Rattle.format.specs.Reader.{read};
ghost use Rattle.reader.specs.Finds.{LaidOut, SectionOf, Locates, locate_in, in_section, rules_from, shortest_from};

use crate::location::Located;
use crate::section::{Layout, Section};
use format::{Question, Rules};

pub mod cursor;
pub mod entries;
pub mod fields;
pub mod location;
pub mod operation;
pub mod records;
pub mod run;
pub mod section;
pub mod shortest;
pub mod state;

// Question 11.
pub fn layout_of(kind: u64, word: u64) -> Option<Layout>
    ensures { LaidOut kind word result }
{
    if numbers::is_word(word) && kind <= 1 {
        return Some(Layout {
            debug: kind == 1,
            word,
        });
    }
    None
}

// A section, where its fields are laid out by a kind and a word.
pub fn section_of<'a>(
    bytes: &'a [u8],
    relocations: &'a [u64],
    kind: u64,
    word: u64,
) -> Option<Section<'a>>
    ensures { SectionOf bytes.now relocations.now kind word result }
{
    let layout = layout_of(kind, word)?;
    Some(Section {
        bytes,
        relocations,
        layout,
    })
}

// Kept: the parameters of `locate` and `read` one by one, as `unwind` has them from C.
// Where the operations of record k and of its header are: questions 11 and 61 to 64. A caller who asks for several registers or offsets of
// one record passes over the section once.
pub fn locate(
    section: &[u8],
    relocations: &[u64],
    kind: u64,
    word: u64,
    k: u64,
) -> Result<Located, Question>
    ensures { Locates section.now word result (locate_in section.now relocations.now kind word k) }
{
    // Kept: `let .. else`, which document 01 names for the answers of headers and LEB numbers (docs/DECISIONS.md), on the other answers here and in
    // location too: each is asked once, and the refusal is named beside it.
    let Some(section) = section_of(section, relocations, kind, word) else {
        return Err(Question::Interface);
    };
    section.locate(k)
}

// Numbers whose positions lie in the section, and whose word is one.
#[tactic(auto, unfolding(crate::specs::Finds::in_section))]
pub fn in_section(section: &[u8], l: Located) -> bool
    ensures { result ≡ in_section section.now l }
{
    l.header <= l.header_end
        && l.header_end <= section.len()
        && l.record <= l.record_end
        && l.record_end <= section.len()
        && numbers::is_word(l.word)
}

// The CFA rule, register q's rule and the signing state at offset p from what `locate` found: questions 65 to 69. Other numbers than its
// answers are taken too; those that lie in no section are 64.
pub fn rules_at(section: &[u8], l: Located, q: u16, p: u64) -> Result<Rules, Question>
    ensures { numbered result ≡ rules_from section.now l q p }
{
    if !in_section(section, l) {
        return Err(Question::Fields);
    }
    if l.size <= p {
        return Err(Question::Offset);
    }
    run::run(section, &l, p, q)
}

// Whether every number that `rules_at` reads is spelled shortest; those of the fields were looked at by `locate`.
// Kept: the two runs one behind the other. Tried with `operations().iter().all(..)`: what `all` asks of each turn stayed open, since that a span lies in
// the section is known of the fields, and not of a member of the list.
pub fn shortest_at(section: &[u8], l: Located, p: u64) -> bool
    ensures { result ≡ shortest_from section.now l p }
{
    if !in_section(section, l) {
        return false;
    }
    if !l.shortest {
        return false;
    }
    if !shortest::run(&section[l.header..l.header_end], l.word, p) {
        return false;
    }
    shortest::run(&section[l.record..l.record_end], l.word, p)
}

// The rules of record k at offset p, or the question answered by no.
pub fn read(
    section: &[u8],
    relocations: &[u64],
    kind: u64,
    word: u64,
    k: u64,
    q: u16,
    p: u64,
) -> Result<Rules, Question>
    ensures { numbered result ≡ read section.now relocations.now kind word k q p }
{
    let l = locate(section, relocations, kind, word, k)?;
    rules_at(section, l, q, p)
}
