// One x64 unwind code: its questions and its bytes. Ported from rucc-asm/src/unwind.rs (nodes, large, slot) of tamnd/rucc, changed: see NOTICE.
#![tactic(auto)]

ghost use Rattle.std.specs.Prelude.{◌≡◌, [], ◌∷◌, ◌++◌, ◌+◌, ◌*◌, ◌/◌, ◌^◌, ◌≤◌, ◌<◌, Some, None, leb, length, take};
ghost use Rattle.std.proofs.Math.Option.{none, some};
ghost use Rattle.format.specs.Prelude.{pick};
ghost use Rattle.format.specs.Lists.{count};
ghost use Rattle.format.proofs.Wrote.{Wrote};
ghost use Rattle.format.specs.Leb.{little};
ghost use Rattle.format.specs.X64.{size64, register_in, alloc_no, save_no, operand_no, code_no, frame_ok, frame_no, frame_or, node, alloc_bytes, slot_bytes, save_bytes, code_bytes};
ghost use Rattle.format.specs.Coded.{numbered};
ghost use Rattle.codes.specs.Codes.{Holds, yes_or_no, is_near, alloc_size, save_size};

use format::{Question, Seh};
use numbers::uwop;

// ---- the questions of a code: the error is the one that was answered by no

// A size or an offset without its sign; 0 where it is negative.
fn size(z: i64) -> u64
    ensures { result ≡ size64 z }
{
    u64::try_from(z).unwrap_or(0)
}

// The register that it names, if any, is below 16.
#[tactic(auto, unfolding(format::specs::X64::register_in))]
fn register_ok(code: Seh) -> bool
    ensures { result ≡ leb (register_in code) 15 }
{
    match code {
        Seh::Push(reg) => reg <= 15,
        Seh::Alloc(_) => true,
        Seh::Frame(reg, _) => reg <= 15,
        Seh::Save(reg, _, _) => reg <= 15,
    }
}

// 36 and 37.
fn alloc_no(z: i64) -> Result<(), Question>
    ensures { numbered result ≡ yes_or_no (alloc_no z) }
{
    let n = size(z);
    if n == 0 || n % 8 != 0 {
        return Err(Question::Allocation);
    }
    if n < 4294967296 {
        return Ok(());
    }
    Err(Question::AllocationSize)
}

// 38 and 39.
fn save_no(z: i64) -> Result<(), Question>
    ensures { numbered result ≡ yes_or_no (save_no z) }
{
    if z < 0 {
        return Err(Question::SaveBelow);
    }
    if size(z) < 4294967296 {
        return Ok(());
    }
    Err(Question::SaveSize)
}

fn operand_no(code: Seh) -> Result<(), Question>
    ensures { numbered result ≡ yes_or_no (operand_no code) }
{
    match code {
        Seh::Push(_) => Ok(()),
        Seh::Alloc(z) => alloc_no(z),
        Seh::Frame(_, _) => Ok(()),
        Seh::Save(_, _, z) => save_no(z),
    }
}

// A code, and its offset in the prologue: where its instruction ends.
#[derive(Clone, Copy)]
pub struct UnwindCode {
    pub offset: u64,
    pub code: Seh,
}

impl UnwindCode {
    // 34 to 39.
    pub fn code_no(self) -> Result<(), Question>
        ensures { numbered result ≡ yes_or_no (code_no (self.offset, self.code)) }
    {
        if !register_ok(self.code) {
            return Err(Question::Registers);
        }
        if 255 < self.offset {
            return Err(Question::CodeOffset);
        }
        operand_no(self.code)
    }
}

// 41 of a frame code's offset.
fn frame_offset_no(z: i64) -> Result<(), Question>
    ensures { numbered result ≡ yes_or_no (pick (frame_ok z) none (some 41)) }
{
    if z < 0 {
        return Err(Question::FrameOffset);
    }
    let n = size(z);
    if 240 < n || n % 16 != 0 {
        return Err(Question::FrameOffset);
    }
    Ok(())
}

// 41.
pub fn frame_no(code: Seh) -> Result<(), Question>
    ensures { numbered result ≡ yes_or_no (frame_no code) }
{
    let Seh::Frame(_, z) = code else {
        return Ok(());
    };
    frame_offset_no(z)
}

// The header's byte of the frame register after a code: b, or what a frame code says.
pub fn frame_or(b: u8, code: Seh) -> u8
    requires { (register_in code ≤ 15) × (frame_no code ≡ none) }
    ensures { result ≡ frame_or b code }
{
    let Seh::Frame(reg, z) = code else {
        return b;
    };
    (reg + 16 * (size(z) / 16)) as u8
}

// ---- the bytes of a code

// A code's bytes, the first `count` of six.
// Kept: an array by value beside its count is a form that document 01 names (docs/DECISIONS.md, "The forms that document 01 names").
#[derive(Clone, Copy)]
pub struct Code {
    pub bytes: [u8; 6],
    pub count: usize,
}

// An operation with its info, and v behind it as a field of n bytes.
// Kept: the operation is its number, and no enum. The clauses here (`node`, `slot_bytes`) take the number, and the far form is the near one's plus 1:
// with an enum `form` names its number by a definition, and `slot_in` takes two operations and a clause that the second follows the first.
fn form(at: u8, op: u64, info: u8, n: usize, v: u32) -> Code
    requires { (op < 16) × (info < 16) × (n ≤ 4) }
    ensures { Holds result (node at op info ++ little n v) }
{
    let b = v.to_le_bytes();
    Code {
        bytes: [at, op as u8 + 16 * info, b[0], b[1], b[2], b[3]],
        count: 2 + n,
    }
}

// A distance or a size in units, where 16 bits hold it.
fn units(unit: u64, size: u64) -> Option<u16>
    requires { 0 < unit }
    ensures { result ≡ pick (is_near unit size) (Some (size / unit)) None }
{
    if size % unit != 0 {
        return None;
    }
    u16::try_from(size / unit).ok()
}

// An allocation above 128 bytes.
fn large(at: u8, size: u64) -> Code
    requires { (128 < size) × (size < 2 ^ 32) }
    ensures { Holds result (alloc_bytes at size) }
{
    if let Ok(eights) = u16::try_from(size / 8) {
        return form(at, uwop::UWOP_ALLOC_LARGE, 0, 2, u32::from(eights));
    }
    form(at, uwop::UWOP_ALLOC_LARGE, 1, 4, size as u32)
}

fn alloc(at: u8, size: u64) -> Code
    requires { (8 ≤ size) × (size < 2 ^ 32) }
    ensures { Holds result (alloc_bytes at size) }
{
    if size <= 128 {
        return form(at, uwop::UWOP_ALLOC_SMALL, (size / 8 - 1) as u8, 0, 0);
    }
    large(at, size)
}

// A save by its near operation, or by the far one, which is the next.
fn slot_in(near: u64, unit: u64, at: u8, reg: u8, above: u64) -> Code
    requires { (near < 15) × (0 < unit) × (reg < 16) × (above < 2 ^ 32) }
    ensures { Holds result (slot_bytes near unit at reg above) }
{
    if let Some(n) = units(unit, above) {
        return form(at, near, reg, 2, u32::from(n));
    }
    form(at, near + 1, reg, 4, above as u32)
}

#[tactic(auto, unfolding(format::specs::X64::save_bytes))]
fn slot(at: u8, reg: u8, vector: bool, above: u64) -> Code
    requires { (reg < 16) × (above < 2 ^ 32) }
    ensures { Holds result (save_bytes vector at reg above) }
{
    if vector {
        return slot_in(uwop::UWOP_SAVE_XMM128, 16, at, reg, above);
    }
    slot_in(uwop::UWOP_SAVE_NONVOL, 8, at, reg, above)
}

impl UnwindCode {
    // The nodes that say it.
    pub fn nodes(self) -> Code
        requires { code_no (self.offset, self.code) ≡ none }
        ensures { Holds result (code_bytes self.offset self.code) }
    {
        let at = self.offset as u8;
        match self.code {
            Seh::Push(reg) => form(at, uwop::UWOP_PUSH_NONVOL, reg as u8, 0, 0),
            Seh::Alloc(z) => alloc(at, size(z)),
            Seh::Frame(_, _) => form(at, uwop::UWOP_SET_FPREG, 0, 0, 0),
            Seh::Save(reg, vector, z) => slot(at, reg as u8, vector, size(z)),
        }
    }
}

// How many bytes the nodes of a code have.
// Kept: sizes beside the bytes. `nodes` asks that the code passed its questions; `nodes_size` asks nothing, and is taken of each code while they are
// asked (D112).
fn alloc_size(size: u64) -> usize
    ensures { result ≡ alloc_size size }
{
    if size <= 128 {
        return 2;
    }
    if u16::try_from(size / 8).is_ok() {
        return 4;
    }
    6
}

fn slot_size(unit: u64, above: u64) -> usize
    requires { 0 < unit }
    ensures { result ≡ pick (is_near unit above) 4 6 }
{
    if units(unit, above).is_some() {
        return 4;
    }
    6
}

fn save_size(vector: bool, above: u64) -> usize
    ensures { result ≡ save_size vector above }
{
    if vector {
        return slot_size(16, above);
    }
    slot_size(8, above)
}

impl UnwindCode {
    pub fn nodes_size(self) -> usize
        ensures { result ≡ length (code_bytes self.offset self.code) }
    {
        match self.code {
            Seh::Push(_) => 2,
            Seh::Alloc(z) => alloc_size(size(z)),
            Seh::Frame(_, _) => 2,
            Seh::Save(_, vector, z) => save_size(vector, size(z)),
        }
    }
}

// The nodes of one code, copied to `at`. This gives the place past them.
pub fn put_nodes(out: &mut [u8], at: usize, n: Code) -> usize
    requires { (n.count ≤ 6) × (at + n.count ≤ length out.old) }
    ensures { Wrote out.old out.new at result (take n.count n.bytes) }
{
    let past = at + n.count;
    out[at..past].copy_from_slice(&n.bytes[..n.count]);
    past
}

// ---- UNWIND_INFO

// The record's head: version 1 and no flags, the prologue's end, the count of slots, the frame byte.
pub fn head(out: &mut [u8], at: usize, end: u8, held: u8, frame: u8) -> usize
    requires { at + 4 ≤ length out.old }
    ensures { Wrote out.old out.new at result (1 ∷ end ∷ held ∷ frame ∷ []) }
{
    out[at..at + 4].copy_from_slice(&[1, end, held, frame]);
    at + 4
}
