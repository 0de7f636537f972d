// The reader of Windows' unwind data on ARM64: an entry's second word and, where that is not packed, the record at a place.
#![tactic(auto)]

ghost use Rattle.std.specs.Prelude.{◌≡◌, true, false, ◌≢◌, ◌+◌, ◌*◌, ◌<◌, length, MatchResult};
ghost use Rattle.format.specs.Prelude.{bad, onward};
ghost use Rattle.format.specs.Numbers.{number_of};
ghost use Rattle.format.specs.declared.question.Question.TheVariants.{OtherRoom};
ghost use Rattle.arm64.specs.Packed.{packed_of, packed_ok};
ghost use Rattle.arm64.specs.Reader.{record_unwound, full_record, fits_in, packed_unwound, read_arm64, reading_of, epilogues_after, codes_after};
ghost use Rattle.arm64_reader.specs.Answers.{reading_with, AnsweredIn, found_in, room_of};

use arm64::{Arm64Reading, Part, fields};
use arm64_packed::Word;
use arm64_records::{Output, Record};
use arm64_runs::Run;
use format::Question;

// What the reader answers where n codes of the prologue were found, and epilogues of m codes.
fn reading(length: u64, n: usize, epilogues: u64, m: usize) -> Arm64Reading
    requires { n + m < 18446744073709551616 }
    ensures { result ≡ reading_with length n epilogues m }
{
    Arm64Reading {
        number: 0,
        length,
        prologue: n as u64,
        epilogues,
        codes: (n + m) as u64,
    }
}

#[tactic(auto, unfolding(arm64::specs::Reader::reading_of))]
fn refused(question: Question) -> Arm64Reading
    ensures { result ≡ reading_of (bad (number_of question)) }
{
    Arm64Reading {
        number: question.number(),
        ..Arm64Reading::default()
    }
}

// 54: a lent list is too short.
#[tactic(auto, unfolding(crate::specs::Answers::roomy))]
fn room(to: &Output, epilogues: u64, codes: usize) -> Result<(), Question>
    ensures { MatchResult result (λ x. room_of to.now epilogues codes ≡ true) (λ e. (e ≡ OtherRoom) × (room_of to.now epilogues codes ≡ false)) }
{
    let most = (to.epilogues.len() / fields::EPILOGUE_STRIDE) as u64;
    if epilogues <= most && codes <= to.codes.len() / fields::CODE_STRIDE {
        return Ok(());
    }
    Err(Question::OtherRoom)
}

// A record with its header and the bytes of its codes.
fn record_with(x: &Record, to: &mut Output) -> Result<Arm64Reading, Question>
    ensures { AnsweredIn (found_in (record_unwound x.now.header x.now.section.now) to.old) result to.old to.new }
{
    let n = arm64_runs::count_run(x.codes, 0).ok_or(Question::X64Codes)?;
    let m = x.count_epilogues().ok_or(Question::X64Codes)?;
    let k = arm64_records::epilogues_in(x.header);
    room(to, k, n + m)?;
    Run::at(x.codes, 0).put_back(to.codes, fields::CODE_STRIDE * n);
    x.put_epilogues(n, m, to);
    Ok(reading(4 * x.header.length, n, k, m))
}

// A packed fragment, which has no epilogue.
#[tactic(auto, using(crate::proofs::Answers::has_room))]
fn fragment(w: Word, to: &mut Output) -> Result<Arm64Reading, Question>
    requires { (w.fields.flag ≡ 2) × (packed_ok w.fields ≡ true) }
    ensures { AnsweredIn (found_in (packed_unwound w.fields) to.old) result to.old to.new }
{
    let n = w.count_slots(Part::Prologue);
    room(to, 0, n)?;
    w.put_slots(to.codes, 0, Part::Prologue);
    Ok(reading(4 * w.fields.length, n, 0, 0))
}

// A packed function, whose epilogue is its last instructions.
#[tactic(auto, using(crate::proofs::Answers::has_room, format::proofs::PutLaws::kept))]
fn function(w: Word, to: &mut Output) -> Result<Arm64Reading, Question>
    requires { (w.fields.flag ≢ 2) × (packed_ok w.fields ≡ true) }
    ensures { AnsweredIn (found_in (packed_unwound w.fields) to.old) result to.old to.new }
{
    let n = w.count_slots(Part::Prologue);
    let m = w.count_slots(Part::Epilogue);
    if w.fields.length <= m as u64 {
        return Err(Question::X64Codes);
    }
    room(to, 1, n + m)?;
    w.put_slots(to.codes, 0, Part::Prologue);
    w.put_slots(to.codes, fields::CODE_STRIDE * n, Part::Epilogue);
    let start = 4 * (w.fields.length - 1 - m as u64);
    arm64_runs::put_three(to.epilogues, 0, [start, n as u64, m as u64]);
    Ok(reading(4 * w.fields.length, n, 1, m))
}

// A packed word.
fn packed(word: u64, to: &mut Output) -> Result<Arm64Reading, Question>
    requires { word < 4294967296 }
    ensures { AnsweredIn (found_in (packed_unwound (packed_of word)) to.old) result to.old to.new }
{
    let w = Word::of(word);
    if !w.ok() {
        return Err(Question::X64Codes);
    }
    if w.fields.flag == 2 {
        return fragment(w, to);
    }
    function(w, to)
}

// The record at a place.
fn record(s: &[u8], place: u64, to: &mut Output) -> Result<Arm64Reading, Question>
    ensures { AnsweredIn (onward (full_record s.now place) (fits_in to.old.epilogues.now to.old.codes.now)) result to.old to.new }
{
    let h = arm64_records::header(s, place).ok_or(Question::X64Header)?;
    record_with(&Record::of(s, h), to)
}

// A word, and the record at a place where the word is not packed.
fn read(word: u64, info: &[u8], place: u64, to: &mut Output) -> Result<Arm64Reading, Question>
    ensures { AnsweredIn (read_arm64 word info.now place to.old.epilogues.now to.old.codes.now) result to.old to.new }
{
    if word % 4 == 0 {
        return record(info, place, to);
    }
    if word % 4 == 3 || 4294967296 <= word {
        return Err(Question::X64Codes);
    }
    packed(word, to)
}

// The second word of an entry, and the record at a place of the info bytes where the word is not packed: the function's length, and how many codes
// its prologue, epilogues and all of them have. At the front of the lent lists the epilogues, three numbers each (start, place of its first code,
// codes), and the codes, three each (kind, register, offset), the prologue's first. It refuses by 76, 77 and 54, and then both lists are unchanged.
#[unsafe(no_mangle)]
pub extern "C" fn unwind_read_arm64(
    word: u64,
    info: &[u8],
    place: u64,
    epilogues: &mut [u64],
    codes: &mut [u64],
) -> Arm64Reading
    ensures value { result ≡ reading_of (read_arm64 word info.now place epilogues.old codes.old) }
    ensures epilogues_after { epilogues.new ≡ epilogues_after epilogues.old (read_arm64 word info.now place epilogues.old codes.old) }
    ensures codes_after { codes.new ≡ codes_after codes.old (read_arm64 word info.now place epilogues.old codes.old) }
{
    let mut to = Output { epilogues, codes };
    read(word, info, place, &mut to).unwrap_or_else(refused)
}
