// From a function's rows to x64 codes: questions 31 to 34, and the codes one by one. Ported from rucc-asm/src/unwind.rs (prologue, machine) of tamnd/rucc, changed: see NOTICE.
#![tactic(auto)]

ghost use Rattle.std.specs.Prelude.{IfOk, ◌≡◌, false, [], ◌∷◌, ◌+◌, ◌-◌, ◌*◌, ◌≤◌, ◌<◌, pos, ◌+ℤ◌, ◌-ℤ◌, length, T, eqb};
ghost use Rattle.format.specs.Lists.{count, row_stride, row_at, row_ok_at};
ghost use Rattle.format.specs.Prelude.{pick, each};
ghost use Rattle.format.specs.Machine.{register_of};
ghost use Rattle.format.specs.Rows.{kind_of, offset_of};
ghost use Rattle.format.specs.X64.{low16, frame, before_remember};
ghost use Rattle.format.specs.Coded.{result_of, numbered};
ghost use Rattle.format.specs.declared.Row.TheVariants.{DefCfa, DefCfaOffset, DefCfaRegister, Offset};
ghost use Rattle.format.specs.declared.Seh.TheVariants.{Push, Alloc, Frame, Save};
ghost use Rattle.prologue.specs.Groups.{found_of, knows, joined, joins, third, counted, stepped, added, lone_in, push_in};
ghost use Rattle.prologue.specs.Pieces.{Leads, Shaped, piece_of, named_code, moved_in, end_in};
ghost use Rattle.prologue.specs.Readable.{Short};
ghost use Rattle.prologue.specs.Given.{IsRow, rows_in, rows_of, last_of, row_of, walk_of, piece_at};

use codes::UnwindCode;
use format::{Question, Row, Seh};
use given::{FunctionRows, Registers, Shape, X64Machine};
use rows::{offset_at, row_at};

pub mod given;

// ---- registers

impl<'m> X64Machine<'m> {
    // Its registers alone.
    pub fn registers(&self) -> Registers<'m>
        ensures { result.machine.now ≡ self.now.machine.now }
    {
        Registers {
            machine: self.machine,
        }
    }
}

impl Registers<'_> {
    // What register of the machine DWARF's number `reg` is: its number, below 16, and whether it is a vector register; or none.
    // Question 34 is about those that are none.
    fn register(&self, reg: u64) -> Option<(u64, bool)>
        ensures { result ≡ found_of (low16 (register_of self.now.machine.now reg)) }
    {
        if 64 <= reg {
            return None;
        }
        let n = u64::from(self.machine.map[reg as usize]);
        if n < 16 {
            return Some((n, false));
        }
        if n < 128 {
            return None;
        }
        if n < 144 {
            return Some((n - 128, true));
        }
        None
    }

    // The machine has a number below 16 for it.
    fn knows(&self, reg: u64) -> bool
        ensures { result ≡ knows self.now.machine.now reg }
    {
        self.register(reg).is_some()
    }
}

// ---- the rows of one instruction

// Kept: neighbours by their index, and no `chunk_by`. By `as_chunks::<4>()` a chain would group arrays, while `row_at`, `offset_at`, `joined` and
// `joins` and their definitions speak of a place in the list; a law of `first_chunks` for `row_at` and one for the groups would come to it.

impl FunctionRows<'_> {
    // How many they are.
    pub fn len(&self) -> usize
        ensures { result ≡ rows_in self.now }
    {
        self.rows.len() / rows::ROW_STRIDE
    }

    // Row i is of the instruction of the row before it, where that is one of these rows.
    fn joined(&self, i: usize) -> bool
        requires { IsRow self.now i }
        ensures { result ≡ joined self.now.rows.now 0 i }
    {
        0 < i && offset_at(self.rows, i - 1) == offset_at(self.rows, i)
    }

    // Row i + 1 is of the instruction of row i, where that is one of these rows.
    fn joins(&self, i: usize) -> bool
        requires { IsRow self.now i }
        ensures { result ≡ joins self.now.rows.now i (rows_in self.now) }
    {
        i + 1 < self.len() && offset_at(self.rows, i) == offset_at(self.rows, i + 1)
    }

    // Row i is of the instruction of the two rows before it.
    fn third(&self, i: usize) -> bool
        requires { IsRow self.now i }
        ensures { result ≡ third self.now.rows.now 0 i }
    {
        self.joined(i) && self.joined(i - 1)
    }
}

// ---- what is known so far

// The steps so far.
#[derive(Clone, Copy, PartialEq, Eq)]
enum Steps {
    NoStep,
    // The push of the frame pointer, and no other one.
    PointerPushed,
    Others,
}

// What is known of the rows so far: the distance of the frame address above the stack pointer, the steps, and whether the machine
// has a number below 16 for each register.
#[derive(Clone, Copy)]
struct Walk {
    below: i64,
    steps: Steps,
    named: bool,
}

// The steps with one more, which pushes the frame pointer or not.
fn counted(before: Steps, pushes: bool) -> Steps
    ensures { result ≡ counted before pushes }
{
    if pushes && before == Steps::NoStep {
        return Steps::PointerPushed;
    }
    Steps::Others
}

// One step more: it pushes the frame pointer, or not; the machine knows its register, or not.
fn stepped(w: Walk, pushes: bool, knows: bool, below: i64) -> Walk
    ensures { result ≡ stepped w pushes knows below }
{
    Walk {
        below,
        steps: counted(w.steps, pushes),
        named: w.named && knows,
    }
}

// ---- what an instruction did

impl X64Machine<'_> {
    // The frame pointer is set to the stack pointer.
    fn framed(&self, w: Walk) -> Walk
        ensures { result ≡ added self.now.machine.now w frame w.below }
    {
        let known = self.registers().knows(self.machine.frame);
        stepped(w, false, known, w.below)
    }

    // DefCfa alone: the frame pointer at the present distance, or a frame that is counted from another register (32).
    fn frame_set(&self, reg: u64, z: i64, w: Walk) -> Result<Walk, Question>
        ensures { numbered result ≡ result_of (lone_in self.now.machine.now false (DefCfa reg z) w) }
    {
        if reg != self.machine.frame {
            return Err(Question::Scratch);
        }
        if z != w.below {
            return Err(Question::Scratch);
        }
        Ok(self.framed(w))
    }

    // DefCfaRegister alone: the frame pointer, pushed by the only step before, and nothing behind it; else it is set before the frame
    // is taken (31).
    fn frame_early(&self, last: bool, reg: u64, w: Walk) -> Result<Walk, Question>
        ensures { numbered result ≡ result_of (lone_in self.now.machine.now last (DefCfaRegister reg) w) }
    {
        if reg != self.machine.frame {
            return Err(Question::FrameFirst);
        }
        if !last {
            return Err(Question::FrameFirst);
        }
        if w.below != (2 * self.machine.word) as i64 {
            return Err(Question::FrameFirst);
        }
        if w.steps != Steps::PointerPushed {
            return Err(Question::FrameFirst);
        }
        Ok(self.framed(w))
    }

    // DefCfaOffset, then Offset: a register that is put into the word by which the frame address moved, or no push (33).
    fn pushed(&self, reg: u64, z: i64, y: i64, w: Walk) -> Result<Walk, Question>
        ensures { numbered result ≡ result_of (push_in self.now.machine.now (DefCfaOffset z) (Offset reg y) w) }
    {
        if z.checked_sub(w.below) != Some(self.machine.word as i64) {
            return Err(Question::Group);
        }
        if z.checked_neg() != Some(y) {
            return Err(Question::Group);
        }
        let known = self.registers().knows(reg);
        Ok(stepped(w, reg == self.machine.frame, known, z))
    }

    // An instruction of two rows.
    fn push_rows(&self, a: Row, b: Row, w: Walk) -> Result<Walk, Question>
        ensures { numbered result ≡ result_of (push_in self.now.machine.now a b w) }
    {
        let Row::DefCfaOffset(z) = a else {
            return Err(Question::Group);
        };
        let Row::Offset(reg, y) = b else {
            return Err(Question::Group);
        };
        self.pushed(u64::from(reg), z, y, w)
    }

    // An instruction of one row; it is the last of the prologue, or not.
    fn lone_row(&self, last: bool, r: Row, w: Walk) -> Result<Walk, Question>
        ensures { numbered result ≡ result_of (lone_in self.now.machine.now last r w) }
    {
        match r {
            Row::DefCfa(reg, z) => self.frame_set(u64::from(reg), z, w),
            Row::DefCfaOffset(z) => Ok(stepped(w, false, true, z)),
            Row::DefCfaRegister(reg) => self.frame_early(last, u64::from(reg), w),
            Row::Offset(reg, _) => {
                let known = self.registers().knows(u64::from(reg));
                Ok(stepped(w, false, known, w.below))
            }
            _ => Err(Question::Group),
        }
    }
}

// ---- row by row

impl FunctionRows<'_> {
    // Row i, the last of its instruction's.
    fn read_last(&self, m: &X64Machine, i: usize, w: Walk) -> Result<Walk, Question>
        requires { IsRow self.now i }
        ensures { numbered result ≡ result_of (last_of m.now self.now i w) }
    {
        let r = row_at(self.rows, i);
        if self.joined(i) {
            return m.push_rows(row_at(self.rows, i - 1), r, w);
        }
        m.lone_row(i + 1 == self.len(), r, w)
    }

    // Row i: an instruction is read at its last row, and refused at its third.
    fn read_row(&self, m: &X64Machine, i: usize, w: Walk) -> Result<Walk, Question>
        requires { IsRow self.now i }
        ensures { numbered result ≡ result_of (row_of m.now self.now i w) }
    {
        if self.third(i) {
            return Err(Question::Group);
        }
        if self.joins(i) {
            return Ok(w);
        }
        self.read_last(m, i, w)
    }

    // All of the rows, to the first no.
    fn read_rows(&self, m: &X64Machine) -> Result<Walk, Question>
        ensures { (numbered result ≡ result_of (walk_of m.now self.now)) × IfOk result (λ w. Short w.below) }
    {
        let mut w = Walk {
            below: m.machine.pushed as i64,
            steps: Steps::NoStep,
            named: true,
        };
        for i in 0..self.len() {
            w = self.read_row(m, i, w)?;
        }
        Ok(w)
    }
}

// ---- the prologue

impl<'r> FunctionRows<'r> {
    // Row i keeps the rules for the epilogues.
    // Kept: the kind's number alone. `row_at` would make the whole row, its register and its offset too, of each row in front of the first such one,
    // and the answer would go from the derived `==` to `kind_of`, which the definition of the rows in front asks.
    fn remembers(&self, i: usize) -> bool
        requires { IsRow self.now i }
        ensures { result ≡ eqb (kind_of (row_at self.now.rows.now i).1) 6 }
    {
        self.rows[rows::ROW_STRIDE * i + rows::ROW_KIND] == numbers::kinds::REMEMBER_STATE
    }

    // How many rows stand before the first RememberState.
    fn before_remember(&self) -> usize
        ensures { (result ≤ rows_in self.now) × (before_remember (rows_of self.now) ≡ each (row_at self.now.rows.now) 0 result) }
    {
        let n = self.len();
        (0..n).find(|i| self.remembers(*i)).unwrap_or(n)
    }

    // Those rows.
    fn leading(&self) -> FunctionRows<'r>
        ensures { Leads self.now.rows.now result.rows.now }
    {
        FunctionRows {
            rows: &self.rows[..rows::ROW_STRIDE * self.before_remember()],
        }
    }

    // A function's codes. The questions are those of the instructions, then 34.
    pub fn prologue(&self, m: &X64Machine) -> Result<Shape<'r>, Question>
        ensures { Shaped m.now.machine.now self.now.rows.now result }
    {
        let leading = self.leading();
        let w = leading.read_rows(m)?;
        if !w.named {
            return Err(Question::Registers);
        }
        Ok(Shape {
            below: w.below,
            rows: leading,
        })
    }
}

// ---- the codes one by one

impl Registers<'_> {
    // The code of a push, of a frame and of a save, where the machine has the register.
    // Kept: three functions. One over a closure would promise its answer for each function that the closure's answers follow (as apply's `patch`), and
    // each call would show that of its own closure; here each contract names its function.
    fn push_code(&self, off: u64, reg: u64) -> Option<UnwindCode>
        ensures { piece_of result ≡ named_code self.now.machine.now off reg (λ x. Push x.number) }
    {
        let (n, _) = self.register(reg)?;
        Some(UnwindCode {
            offset: off,
            code: Seh::Push(n),
        })
    }

    fn frame_code(&self, off: u64) -> Option<UnwindCode>
        ensures { piece_of result ≡ named_code self.now.machine.now off self.now.machine.now.frame (λ x. Frame x.number (pos 0)) }
    {
        let (n, _) = self.register(self.machine.frame)?;
        Some(UnwindCode {
            offset: off,
            code: Seh::Frame(n, 0),
        })
    }

    fn save_code(&self, off: u64, reg: u64, above: i64) -> Option<UnwindCode>
        ensures { piece_of result ≡ named_code self.now.machine.now off reg (λ x. Save x.number x.vector above) }
    {
        let (n, vector) = self.register(reg)?;
        Some(UnwindCode {
            offset: off,
            code: Seh::Save(n, vector, above),
        })
    }
}

impl FunctionRows<'_> {
    // DefCfaOffset: an allocation, or the first row of a push.
    fn alloc_code(&self, i: usize, off: u64, sofar: i64, z: i64) -> Option<UnwindCode>
        requires { IsRow self.now i × Short sofar × Short z }
        ensures { piece_of result ≡ pick (joins self.now.rows.now i (rows_in self.now)) [] ((off, Alloc (z -ℤ sofar)) ∷ []) }
    {
        if self.joins(i) {
            return None;
        }
        Some(UnwindCode {
            offset: off,
            code: Seh::Alloc(z - sofar),
        })
    }

    // Offset: the second row of a push, or a save. A save counts from the stack pointer at the prologue's end.
    fn slot_code(
        &self,
        m: &Registers,
        i: usize,
        off: u64,
        reg: u64,
        below: i64,
        z: i64,
    ) -> Option<UnwindCode>
        requires { IsRow self.now i × Short below × Short z }
        ensures { piece_of result ≡ pick (joined self.now.rows.now 0 i) (named_code m.now.machine.now off reg (λ x. Push x.number)) (named_code m.now.machine.now off reg (λ x. Save x.number x.vector (below +ℤ z))) }
    {
        if self.joined(i) {
            return m.push_code(off, reg);
        }
        m.save_code(off, reg, below + z)
    }
}

impl Shape<'_> {
    // Row i of the prologue's rows, with the distance `sofar` in front of it: the code of the instruction that it ends, or none.
    pub fn piece_at(&self, m: &Registers, i: usize, sofar: i64) -> Option<UnwindCode>
        requires { IsRow self.now.rows i × Short sofar }
        ensures { piece_of result ≡ piece_at m.now self.now i sofar }
    {
        let rows = self.rows;
        let off = offset_at(rows.rows, i);
        match row_at(rows.rows, i) {
            Row::DefCfa(_, _) => m.frame_code(off),
            Row::DefCfaOffset(z) => rows.alloc_code(i, off, sofar, z),
            Row::DefCfaRegister(_) => m.frame_code(off),
            Row::Offset(reg, z) => rows.slot_code(m, i, off, u64::from(reg), self.below, z),
            _ => None,
        }
    }
}

// Kept: `moved` and `prologue_end` are public, and of a list: of it `moved` asks row i alone to be a row, and `prologue_end` nothing. As methods of
// FunctionRows they would ask by type that all are (D124).
// The distance behind row i.
pub fn moved(sofar: i64, rows: &[u64], i: usize) -> i64
    requires { (row_stride * i + row_stride ≤ length rows.now) × T (row_ok_at rows.now i) }
    ensures { result ≡ moved_in sofar rows.now i }
{
    let Row::DefCfaOffset(z) = row_at(rows, i) else {
        return sofar;
    };
    z
}

// Where a prologue of these rows ends: at the last one's offset, which is the last code's.
pub fn prologue_end(rows: &[u64]) -> u64
    ensures { result ≡ end_in rows.now 0 (count row_stride rows.now) }
{
    let n = rows.len() / rows::ROW_STRIDE;
    if n == 0 {
        return 0;
    }
    offset_at(rows, n - 1)
}
