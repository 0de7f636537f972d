// Windows' unwind data on ARM64: written and read back, a packed word beside the full record of its function,
// and how far a packed word's prologue moves the stack pointer.
#![tactic(auto)]

ghost use Rattle.std.specs.Prelude.{◌≡◌, true, [], ◌+◌, ◌*◌, ◌≤◌, ◌<◌, length, get_or, Some};
ghost use Rattle.format.specs.Coded.{numbered_at};
ghost use Rattle.format.specs.Questions.{room_in};
ghost use Rattle.format.specs.Answers.{Writes};
ghost use Rattle.arm64.specs.declared.Part.TheVariants.{Prologue};
ghost use Rattle.arm64.specs.Packed.{packed_of, slot_at};
ghost use Rattle.arm64.specs.Reader.{read_arm64};
ghost use Rattle.arm64.specs.Writer.{arm64_answer};
ghost use Rattle.arm64_back.specs.Down.{number_in, down_by, slot_down, is_defined, packed_down, DownByFrame};
ghost use Rattle.arm64_back.specs.Together.{has_row, finished_word, row_read, RowRead, FunctionBack, Answers, PackedAsFull};

use arm64::{Arm64Reading, Code, Part};
use arm64_packed::Word;
use format::{Counts, Refusal};
use lists::output::WrittenAnd;

// ---- a function written and read

// The marker of a packed function.
const NO_RECORD: u64 = 18446744073709551615;

// The bytes of a row of .pdata, and where its second word stands.
const ROW: usize = 8;

const WORD: usize = 4;

// Whether a row was written for function k.
#[tactic(auto, unfolding(crate::specs::Together::has_row))]
fn has_row(outcome: Result<Option<Counts>, Refusal>, k: u64) -> bool
    ensures { result ≡ has_row (numbered_at outcome) k }
{
    let Ok(Some(c)) = outcome else {
        return false;
    };
    k < c.places
}

fn marker_at(markers: &[u64], k: usize) -> u64
    requires { k < length markers.now }
    ensures { result ≡ get_or markers.now k 0 }
{
    markers[k]
}

// The second word of function k's row in the finished file: as it was written where the function is packed,
// else what a linker puts there.
#[tactic(auto, unfolding(crate::specs::Together::finished_word, crate::specs::Back::second_word, format::specs::Prelude::pick))]
fn finished_word(markers: &[u64], bytes: &[u8], k: usize, placed: u64) -> u64
    requires { (k < length markers.now) × (8 * k + 8 ≤ length bytes.now) }
    ensures { result ≡ finished_word markers.now bytes.now k placed }
{
    if marker_at(markers, k) == NO_RECORD {
        return arm64_records::word_at(bytes, ROW * k + WORD);
    }
    placed
}

/// The writer, and then the reader on function k by the second word of its row in the finished file: as it
/// was written where the function is packed, else `placed`, the place of its record there, which is whole
/// words. Where the list was accepted, and the reader's lists have room for as many epilogues and codes as were
/// given, the reading has the length, the epilogues' starts and, code by code, the meaning that were given.
/// None, and the reader's lists as they were, where no row was written for function k.
// Kept: the lists one by one, as C lends them. `Writes`, `RowRead` and `FunctionBack` of the theorem in
// README name each of them.
pub fn write_and_read(
    functions: &[u64],
    epilogues: &[u64],
    codes: &[u64],
    markers: &mut [u64],
    bytes: &mut [u8],
    relocations: &mut [u64],
    info: &mut [u8],
    k: u64,
    placed: u64,
    read_epilogues: &mut [u64],
    read_codes: &mut [u64],
) -> WrittenAnd<Option<Arm64Reading>>
    ensures writes { Writes (arm64_answer functions.now epilogues.now codes.now (room_in markers.old bytes.old relocations.old info.old)) (numbered_at result.outcome) markers.old markers.new bytes.old bytes.new relocations.old relocations.new info.old info.new }
    ensures row_read { RowRead (row_read (numbered_at result.outcome) markers.new bytes.new info.new k placed read_epilogues.old read_codes.old) result.answer read_epilogues.old read_epilogues.new read_codes.old read_codes.new }
    ensures function_back { FunctionBack functions.now epilogues.now codes.now (numbered_at result.outcome) k placed result.answer read_epilogues.old read_epilogues.new read_codes.old read_codes.new }
{
    let outcome = arm64_table::table(
        functions,
        epilogues,
        codes,
        markers,
        bytes,
        relocations,
        info,
    );
    if !has_row(outcome, k) {
        return WrittenAnd {
            outcome,
            answer: None,
        };
    }
    let word = finished_word(markers, bytes, k as usize, placed);
    let place = marker_at(markers, k as usize);
    let answer = arm64_reader::unwind_read_arm64(word, info, place, read_epilogues, read_codes);
    WrittenAnd {
        outcome,
        answer: Some(answer),
    }
}

// ---- a packed word and the full record of the same function

/// What the reader answers of a packed word, and of a full record.
#[derive(Clone, Copy)]
pub struct BothForms {
    pub packed: Arm64Reading,
    pub full: Arm64Reading,
}

/// The reader on a packed word, and on the full record at `place` of `xdata`, each into lent lists of its
/// own. Where the word is the one that the writer gives a function, the record is the full one of the same
/// function, and both pairs of lists have room, both readings have the same length and starts of epilogues,
/// and codes that mean the same one by one.
pub fn read_both_forms(
    word: u64,
    xdata: &[u8],
    place: u64,
    epilogues: &mut [u64],
    codes: &mut [u64],
    full_epilogues: &mut [u64],
    full_codes: &mut [u64],
) -> BothForms
    ensures packed { Answers (read_arm64 word [] 0 epilogues.old codes.old) result.packed epilogues.old epilogues.new codes.old codes.new }
    ensures full { Answers (read_arm64 0 xdata.now place full_epilogues.old full_codes.old) result.full full_epilogues.old full_epilogues.new full_codes.old full_codes.new }
    ensures same { PackedAsFull word xdata.now place result.packed epilogues.old epilogues.new codes.old codes.new result.full full_epilogues.old full_epilogues.new full_codes.old full_codes.new }
{
    let packed = arm64_reader::unwind_read_arm64(word, &xdata[..0], 0, epilogues, codes);
    let full = arm64_reader::unwind_read_arm64(0, xdata, place, full_epilogues, full_codes);
    BothForms { packed, full }
}

// ---- the stack pointer

// How far down a code moves the stack pointer, in bytes.
#[tactic(auto, unfolding(crate::specs::Down::down_by, crate::specs::Down::moves, format::specs::Prelude::pick))]
fn down_by(c: Code) -> u64
    ensures { result ≡ down_by c }
{
    match c.kind {
        arm64::ALLOC
        | arm64::R19R20X
        | arm64::FPLR_X
        | arm64::REGP_X
        | arm64::REG_X
        | arm64::FREGP_X
        | arm64::FREG_X => c.offset,
        _ => 0,
    }
}

// How far down place i of a packed word's prologue moves it.
fn slot_down(w: Word, i: u64) -> u64
    requires { i < 19 }
    ensures { result ≡ slot_down (slot_at Prologue w.fields i) }
{
    match w.slot_at(Part::Prologue, i) {
        Some(c) => down_by(c),
        None => 0,
    }
}

// Whether a word is packed, and the page defines it.
#[tactic(auto, unfolding(crate::specs::Down::is_defined))]
fn is_defined(word: u32) -> bool
    ensures { result ≡ is_defined word }
{
    let flag = word % 4;
    (flag == 1 || flag == 2) && Word::of(u64::from(word)).ok()
}

/// How far down the prologue of a packed word moves the stack pointer, in bytes: the sum over its codes,
/// which is 16 times FrameSize. None where the word is not packed or the page does not define it.
pub fn packed_down(word: u32) -> Option<u64>
    ensures sum { result ≡ number_in (packed_down word) }
    ensures frame { DownByFrame word result }
{
    if !is_defined(word) {
        return None;
    }
    let w = Word::of(u64::from(word));
    let mut down = 0;
    for i in 0..19 {
        down += slot_down(w, i);
    }
    Some(down)
}
