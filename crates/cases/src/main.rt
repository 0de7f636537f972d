// Replays a fixed list of the Rust's answers on the library and compares. The file stdin is what differential/fixed.py stored; its first
// lines there say what form it has.
#![tactic(auto)]

ghost use Rattle.std.specs.Prelude.{◌+◌, ◌≤◌, ◌<◌, length, IfOk, IfSome};
ghost use Rattle.cases.specs.Total.{total};

use format::{Counts, Refusal};
use operations::fields::{Position, read_uleb};
use relocs::RELOCATION_STRIDE;
use std::io;
use std::io::Read;

// What the lent buffers hold before a call.
const NUMBER: u64 = 11936128518282651045;

const BYTE: u8 = 165;

// How many elements each of them has.
const LENT: usize = 4000;

// What a list turned out to be, or that it cannot be read.
#[derive(Clone, Copy, PartialEq, Eq)]
enum Kind {
    Broken,
    Accepted,
    Refused,
    Empty,
    Different,
}

// The buffers that are lent to the library.
#[derive(Drop)]
struct Buffers {
    places: [u64; LENT],
    bytes: [u8; LENT],
    relocations: [u64; LENT],
    sites: [u8; LENT],
}

// How many lists of each kind there were.
#[derive(Clone, Copy, Default)]
struct Sums {
    accepted: u64,
    refused: u64,
    empty: u64,
    different: u64,
}

// The counted list at the front, and what stands behind it; nothing where it is cut off.
fn counted(part: &[u64]) -> (&[u64], &[u64])
    ensures { length result.0.now + length result.1.now ≤ length part.now }
{
    let Some((count, behind)) = part.split_first() else {
        return (&[], &[]);
    };
    behind
        .split_at_checked(*count as usize)
        .unwrap_or((&[], &[]))
}

// What stands behind k lists, which stand behind two numbers.
fn behind(part: &[u64], k: usize) -> &[u64] {
    let mut rest = part.get(2..).unwrap_or(&[]);
    for _ in 0..k {
        rest = counted(rest).1;
    }
    rest
}

// List k of two numbers with lists behind them.
fn list(part: &[u64], k: usize) -> &[u64] {
    counted(behind(part, k)).0
}

// The numbers of a block, and how many they are; none where a byte is left over.
fn decode(s: &[u8], numbers: &mut [u64]) -> Option<usize>
    ensures { IfSome result (λ k. k ≤ length numbers.new) }
{
    let mut at = Position::START;
    for k in 0..numbers.len() {
        if s.len() <= at.at {
            return Some(k);
        }
        let (v, past) = read_uleb(s, at)?;
        numbers[k] = v;
        at = past;
    }
    (s.len() <= at.at).then_some(numbers.len())
}

// Element i of a list, or the other number behind its end.
fn element(list: &[u64], i: usize, other: u64) -> u64 {
    list.get(i).copied().unwrap_or(other)
}

// Whether a buffer holds these numbers, and behind them what it held before.
fn same<T: Copy + Into<u64>>(found: &[T; LENT], list: &[u64], before: T) -> bool {
    list.len() <= LENT
        && found
            .iter()
            .enumerate()
            .all(|(i, x)| (*x).into() == element(list, i, before.into()))
}

// What the library said of a list.
fn kind_of(said: Result<Option<Counts>, Refusal>) -> Kind {
    match said {
        Ok(Some(_)) => Kind::Accepted,
        Ok(None) => Kind::Empty,
        Err(_) => Kind::Refused,
    }
}

// The counts of the fixed results; none where the relocations' numbers are not five each.
fn counts_of(answer: &[u64]) -> Option<Counts> {
    let numbers = list(answer, 2).len();
    if numbers % RELOCATION_STRIDE != 0 {
        return None;
    }
    Some(Counts {
        places: list(answer, 0).len() as u64,
        bytes: list(answer, 1).len() as u64,
        relocations: (numbers / RELOCATION_STRIDE) as u64,
        sites: list(answer, 3).len() as u64,
    })
}

// The fixed answer, a refusal by the question's number and the position. It is two numbers, and four results, of which only an
// acceptance has an element. Its number is not 0 in a refusal.
fn outcome_of(answer: &[u64]) -> Option<Result<Option<Counts>, (u64, u64)>> {
    let number = element(answer, 0, 0);
    if number == 0 && 6 < answer.len() {
        return Some(Ok(Some(counts_of(answer)?)));
    }
    if answer.len() != 6 {
        return None;
    }
    if number == 0 {
        return Some(Ok(None));
    }
    Some(Err((number, element(answer, 1, 0))))
}

// What the library said, a refusal by numbers.
fn by_numbers(said: Result<Option<Counts>, Refusal>) -> Result<Option<Counts>, (u64, u64)> {
    said.map_err(|r| (r.question.number(), r.position))
}

// Whether the library answers as the fixed answer says, with nothing stored past its results and nothing at all where it refuses. Says
// what differs.
fn compare(
    rt: &impl Print,
    index: u64,
    answer: &[u64],
    said: Result<Option<Counts>, Refusal>,
    stored: &Buffers,
) -> io::Result<bool> {
    let compared = [
        (
            "another outcome",
            outcome_of(answer) == Some(by_numbers(said)),
        ),
        (
            "other places",
            same(&stored.places, list(answer, 0), NUMBER),
        ),
        ("other bytes", same(&stored.bytes, list(answer, 1), BYTE)),
        (
            "other relocations",
            same(&stored.relocations, list(answer, 2), NUMBER),
        ),
        ("other sites", same(&stored.sites, list(answer, 3), BYTE)),
    ];
    for (what, same) in compared {
        if !same {
            println!(rt; "list {index}: {what}")?;
        }
    }
    Ok(compared.iter().all(|(_, same)| *same))
}

fn table(numbers: &[u64], out: &mut Buffers) -> Result<Option<Counts>, Refusal> {
    unwind::relaxed_table(
        list(numbers, 0),
        element(numbers, 1, 0),
        list(numbers, 1),
        list(numbers, 2),
        list(numbers, 3),
        list(numbers, 4),
        &mut out.places,
        &mut out.bytes,
        &mut out.relocations,
        &mut out.sites,
    )
}

fn debug_frame(numbers: &[u64], out: &mut Buffers) -> Result<Option<Counts>, Refusal> {
    unwind::relaxed_debug_frame(
        list(numbers, 0),
        element(numbers, 1, 0),
        list(numbers, 1),
        list(numbers, 2),
        list(numbers, 3),
        list(numbers, 4),
        &mut out.places,
        &mut out.bytes,
        &mut out.relocations,
    )
}

// The library's answer to a block.
fn ask(numbers: &[u64], out: &mut Buffers) -> Result<Option<Counts>, Refusal> {
    match element(numbers, 0, 0) {
        0 => table(numbers, out),
        1 => debug_frame(numbers, out),
        _ => unwind::seh(
            list(numbers, 1),
            list(numbers, 5),
            &mut out.places,
            &mut out.bytes,
            &mut out.relocations,
            &mut out.sites,
        ),
    }
}

fn replay(rt: &impl Print, index: u64, numbers: &[u64]) -> io::Result<Kind> {
    let mut out = Buffers {
        places: [NUMBER; LENT],
        bytes: [BYTE; LENT],
        relocations: [NUMBER; LENT],
        sites: [BYTE; LENT],
    };
    let said = ask(numbers, &mut out);
    if compare(rt, index, behind(numbers, 6), said, &out)? {
        return Ok(kind_of(said));
    }
    Ok(Kind::Different)
}

fn broken(rt: &impl Print, index: u64) -> io::Result<Kind> {
    println!(rt; "list {index}: no block")?;
    Ok(Kind::Broken)
}

// The block of this size that is next on the input.
fn block(rt: &impl Print, input: &mut impl Read, index: u64, size: usize) -> io::Result<Kind>
    requires { size ≤ 60000 }
{
    let mut bytes = [0u8; 60000];
    if input.read_exact(&mut bytes[..size]).is_err() {
        return broken(rt, index);
    }
    let mut numbers = [0u64; 40014];
    let Some(k) = decode(&bytes[..size], &mut numbers) else {
        return broken(rt, index);
    };
    replay(rt, index, &numbers[..k])
}

// The next block, behind its size in 4 bytes. A size of 0 ends the input.
fn next(rt: &impl Print, input: &mut impl Read, index: u64) -> io::Result<Option<Kind>> {
    let mut head = [0u8; 4];
    if input.read_exact(&mut head).is_err() {
        return Ok(Some(broken(rt, index)?));
    }
    let size = u32::from_le_bytes(head);
    if size == 0 {
        return Ok(None);
    }
    if 60000 < size {
        return Ok(Some(broken(rt, index)?));
    }
    Ok(Some(block(rt, input, index, size as usize)?))
}

// The sums with one list more.
fn add(s: Sums, kind: Kind) -> Sums
    requires { total s < 1000000 }
    ensures { total result ≤ total s + 1 }
{
    let mut r = s;
    match kind {
        Kind::Accepted => r.accepted += 1,
        Kind::Refused => r.refused += 1,
        Kind::Empty => r.empty += 1,
        Kind::Different | Kind::Broken => r.different += 1,
    }
    r
}

// Every block of the input, up to one that cannot be read.
fn all(rt: &impl Print, input: &mut impl Read) -> io::Result<Sums>
    ensures { IfOk result (λ sums. total sums ≤ 1000000) }
{
    let mut sums = Sums::default();
    for index in 0..1000000 {
        let Some(kind) = next(rt, input, index)? else {
            return Ok(sums);
        };
        sums = add(sums, kind);
        if kind == Kind::Broken {
            return Ok(sums);
        }
    }
    Ok(sums)
}

fn main(rt: HostRuntime) -> io::Result<()> {
    let Sums {
        accepted,
        refused,
        empty,
        different,
    } = all(&rt, &mut rt.reader())?;
    let lists = accepted + refused + empty + different;
    println!(rt; "{lists} lists: {accepted} accepted, {refused} refused, {empty} empty")?;
    if different == 0 {
        println!(rt; "all answers are the Rust's, or document 01's where it refuses")
    } else {
        println!(rt; "{different} lists are answered differently")
    }
}
