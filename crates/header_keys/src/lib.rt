// What a header is reused by: a function's record as a section takes it, the kind of its header, and its leading rows. Ported from rucc-asm/src/unwind.rs (leading, dwarf) of tamnd/rucc, changed: see NOTICE.
#![tactic(auto)]

ghost use Rattle.std.specs.Prelude.{◌≡◌, [], ◌+◌, ◌*◌, ◌≤◌, ◌<◌, length, get_or};
ghost use Rattle.format.specs.Prelude.{pick, each};
ghost use Rattle.format.specs.declared.Row.TheVariants.{RememberState};
ghost use Rattle.format.specs.Headers.{implied, leads, ahead, leading};
ghost use Rattle.format.specs.Lists.{row_stride, row_at};
ghost use Rattle.format.proofs.Fits.{MachineFits};
ghost use Rattle.header_keys.specs.Functions.{taken_in, body_of, RowsReady};
ghost use Rattle.header_keys.specs.Kinds.{asked_kind};

use format::{Machine, Row, Section};
use lists::{Extent, Personality};

pub mod input;
pub mod written;

pub use input::Input;

// What a section takes of a function: debug_frame has no landings and no personality.
#[tactic(auto, unfolding(crate::specs::Functions::taken_in, crate::specs::Functions::without))]
pub fn taken(s: Section, e: Extent) -> Extent
    ensures { result ≡ taken_in s e }
{
    let mut t = e;
    if matches!(s, Section::Debug) {
        t.landings = 0;
        t.personality = None;
    }
    t
}

// ---- the kind of a header

// What a header names: no personality, that of functions with landings, or one by its symbol.
#[derive(Clone, Copy)]
pub enum Kind {
    Plain,
    Personal,
    Named(Personality),
}

// The kind of header that a function asks for. Landings beat a named personality.
// Kept: no `From`. This is public and stays, so that `Kind::from` would be a second name for it: an impl and a ghost `from_gives` around a call.
#[tactic(auto, unfolding(crate::specs::Kinds::asked_kind, crate::specs::Kinds::by_personality, format::specs::Prelude::pick))]
pub fn kind_of(e: &Extent) -> Kind
    ensures { result ≡ asked_kind e.now }
{
    if e.landings != 0 {
        return Kind::Personal;
    }
    match e.personality {
        Some(p) => Kind::Named(p),
        None => Kind::Plain,
    }
}

// ---- leading rows

// Row i is at offset 0 and no RememberState.
fn leads_at(rows: &[u64], i: usize) -> bool
    requires { row_stride * i + row_stride ≤ length rows.now }
    ensures { result ≡ leads (row_at rows.now i) }
{
    if rows::offset_at(rows, i) != 0 {
        return false;
    }
    rows[rows::ROW_STRIDE * i + rows::ROW_KIND] != numbers::kinds::REMEMBER_STATE
}

// How many of a function's rows lead.
// Kept: here and in the two of leading rows below, that the rows can be read is asked, and no struct holds it: `owners` has the record
// alone, and `written::Function` knows of all questions (D124 of docs/DECISIONS.md).
pub fn ahead(e: &Extent, rows: &[u64]) -> usize
    requires { RowsReady rows.now e.now.rows_at e.now.rows }
    ensures { (result ≡ length (ahead (each (row_at rows.now) e.now.rows_at e.now.rows))) × (result ≤ e.now.rows) }
{
    (0..e.rows)
        .find(|i| !leads_at(rows, e.rows_at + *i))
        .unwrap_or(e.rows)
}

// How many rows a call implies: none where the function is simple, and the second only where the call pushes bytes.
#[tactic(auto, unfolding(format::specs::Headers::implied, format::specs::Prelude::pick))]
fn implied_count(m: &Machine, simple: bool) -> usize
    ensures { (result ≡ length (pick simple [] (implied m.now))) × (result ≤ 2) }
{
    if simple {
        return 0;
    }
    if m.pushed == 0 {
        return 1;
    }
    2
}

// Row i of those that a call implies.
fn implied_at(m: &Machine, i: usize) -> Row
    requires { MachineFits m.now × (i < length (implied m.now)) }
    ensures { result ≡ get_or (implied m.now) i RememberState }
{
    let pushed = m.pushed as i64;
    if i == 0 {
        return Row::DefCfa(m.stack as u16, pushed);
    }
    Row::Offset(m.ret as u16, 0 - pushed)
}

// Kept: the leading rows by their count and place, and no iterator. It would be a struct of the machine, the record, the list and a place, with
// its `next` and laws of what it yields, for a line in each of four loops: `starts` and `starts_size` of headers, `digest` of owners, and
// `choose` there, which sets row i of one function beside row i of another and would need two of them.

// How many leading rows a function has.
pub fn leading_count(m: &Machine, e: &Extent, rows: &[u64]) -> usize
    requires { RowsReady rows.now e.now.rows_at e.now.rows }
    ensures { result ≡ length (leading m.now (body_of e.now rows.now)) }
{
    implied_count(m, e.simple) + ahead(e, rows)
}

// Leading row i.
pub fn leading_at(m: &Machine, e: &Extent, rows: &[u64], i: usize) -> Row
    requires { MachineFits m.now × RowsReady rows.now e.now.rows_at e.now.rows × (i < length (leading m.now (body_of e.now rows.now))) }
    ensures { result ≡ get_or (leading m.now (body_of e.now rows.now)) i RememberState }
{
    let n = implied_count(m, e.simple);
    if i < n {
        return implied_at(m, i);
    }
    rows::row_at(rows, e.rows_at + (i - n))
}
