// The row check: whether a function's rows state rules at each place. An addition to rucc-asm/src/unwind.rs of tamnd/rucc, which does not ask it.
#![tactic(auto)]

ghost use Rattle.std.specs.Prelude.{◌≡◌, ℕ, Bool, ◌&&◌, ◌+◌, ◌^◌, ◌<◌, ◌≤◌, eqb, length};
ghost use Rattle.std.specs.Bool.{then_some};
ghost use Rattle.format.specs.Lists.{count, row_stride, row_at, row_ok_at};
ghost use Rattle.format.specs.RowCheck.{row_check_at};
ghost use Rattle.format.specs.declared.Row.TheVariants as row;
ghost use Rattle.format.specs.Rows.{RowAt};
ghost use Rattle.rules.specs.Whole.{Gives, all_follow};

use format::Row;
use lists::record::Record;
use lists::{FUNCTION_STRIDE, function};

// Between two rows: whether all so far lead, whether there is a frame address rule, and of the `depth`
// RememberStates that are open, the last at depth - 1, whether there was one there.
// An array and its count: this type is Copy, which ArrayVec is not.
#[derive(Clone, Copy)]
pub struct Order {
    pub leading: bool,
    pub framed: bool,
    pub depth: usize,
    pub marks: [bool; 16],
    pub ghost deep: { depth ≤ 16 },
    pub ghost long: { length marks ≡ 16 },
}

impl Order {
    ghost use Rattle.rules.specs.Orders.{Starts, passing, Steps, Follows};

    // Unless simple a frame address rule leads.
    pub fn start(simple: bool) -> Order
        ensures { Starts simple result }
    {
        Order {
            leading: true,
            framed: !simple,
            depth: 0,
            marks: [false; 16],
        }
    }

    // A row at this offset is at 0, behind rows that all lead.
    pub fn at_start(&self, offset: u64) -> bool
        ensures { result ≡ self.now.leading && eqb offset 0 }
    {
        self.leading && offset == 0
    }

    // A row that opens and closes nothing, where it may stand.
    fn passes(self, ok: bool, first: bool, framed: bool) -> Option<Order>
        ensures { result ≡ passing ok self first framed }
    {
        let marks = self.marks;
        ok.then_some(Order {
            leading: first,
            framed,
            depth: self.depth,
            marks,
        })
    }

    // A RememberState: at most 16 are open.
    fn opens(self) -> Option<Order>
        ensures { (first : Bool) → Steps self first row.RememberState result }
    {
        let depth = self.depth;
        if 16 <= depth {
            return None;
        }
        let mut marks = self.marks;
        marks[depth] = self.framed;
        Some(Order {
            leading: false,
            framed: self.framed,
            depth: depth + 1,
            marks,
        })
    }

    // A RestoreState: one is open, and it does not lead.
    fn closes(self, first: bool) -> Option<Order>
        ensures { Steps self first row.RestoreState result }
    {
        let last = self.depth.checked_sub(1)?;
        let marks = self.marks;
        (!first).then_some(Order {
            leading: first,
            framed: marks[last],
            depth: last,
            marks,
        })
    }

    // A row, `first` where it is at offset 0 behind rows that all lead: what follows, where it may stand there.
    pub fn step(self, first: bool, row: Row) -> Option<Order>
        ensures { Steps self first row result }
    {
        let framed = self.framed;
        match row {
            Row::RememberState => self.opens(),
            Row::RestoreState => self.closes(first),
            Row::DefCfa(_, _) => self.passes(true, first, true),
            Row::DefCfaOffset(_) | Row::DefCfaRegister(_) => self.passes(framed, first, framed),
            Row::Restore(_) => self.passes(!first, first, framed),
            Row::Offset(_, _)
            | Row::Undefined(_)
            | Row::NegateRaState
            | Row::SameValue(_)
            | Row::InRegister(_, _) => self.passes(true, first, framed),
        }
    }

    // A row and its offset, or what is no row.
    fn next(self, given: Option<(u64, Row)>) -> Option<Order>
        ensures { Follows self given result }
    {
        let (offset, row) = given?;
        let first = self.at_start(offset);
        self.step(first, row)
    }
}

// Row i of a list and its offset, where its numbers are a row.
pub fn row_in(rows: &[u64], i: usize) -> Option<(u64, Row)>
    requires { i < count row_stride rows.now }
    ensures { result ≡ then_some (row_ok_at rows.now i) (row_at rows.now i) }
{
    if !rows::row_ok(rows, i) {
        return None;
    }
    Some((rows::offset_at(rows, i), rows::row_at(rows, i)))
}

// The row check of rows from `at` on, as `row` gives them: each is a row, and they state rules at each place.
pub fn rows_check<F: Fn(usize) -> Option<(u64, Row)>>(
    simple: bool,
    at: usize,
    n: usize,
    row: F,
) -> bool
    requires room { at + n < 2 ^ 64 }
    requires given { (i : ℕ) → at ≤ i → i < at + n → F.pre row i }
    ensures { (ok : ℕ → Bool) (rows : ℕ → RowAt) → Gives (λ i r. F.post row i r) ok rows at n → result ≡ all_follow simple ok rows at n }
{
    let mut o = Order::start(simple);
    for i in at..at + n {
        let Some(after) = o.next(row(i)) else {
            return false;
        };
        o = after;
    }
    true
}

// The rows of a function. A simple mark above 1, rows outside their list and numbers that are no row are a no.
#[tactic(auto, unfolding(format::specs::RowCheck::row_check_at, format::specs::Lists::mark_ok, format::specs::Lists::mark))]
fn function_check(f: Record<FUNCTION_STRIDE>, rows: &[u64]) -> bool
    ensures { result ≡ row_check_at f.entry.list.now rows.now f.entry.k }
{
    let simple = f.number(function::SIMPLE);
    if 1 < simple {
        return false;
    }
    let at = f.number(function::ROWS_AT);
    let n = f.number(function::ROWS);
    if !lists::inside(at, n, (rows.len() / rows::ROW_STRIDE) as u64) {
        return false;
    }
    rows_check(
        simple != 0,
        at as usize,
        n as usize,
        |i|
            requires { i < count row_stride rows.now }
            ensures { result ≡ then_some (row_ok_at rows.entry.now i) (row_at rows.entry.now i) }
        { row_in(rows, i) },
    )
}

// Function k of the lists. k past the list is a no.
#[tactic(auto, unfolding(format::specs::RowCheck::row_check_at))]
pub fn row_check(fs: &[u64], rows: &[u64], k: u64) -> bool
    ensures { result ≡ row_check_at fs.now rows.now k }
{
    if (fs.len() / FUNCTION_STRIDE) as u64 <= k {
        return false;
    }
    let f = Record {
        list: fs,
        k: k as usize,
    };
    function_check(f, rows)
}
