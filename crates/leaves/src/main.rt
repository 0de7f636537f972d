// Runs the leaves over numbers around their boundaries, and prints a line for each. The file stdout is what differential/leaves.py
// makes of the same numbers without Rattle.
#![tactic(auto)]

use format::{Operation, Row};
use operations::fields::{Position, read_sleb, read_uleb};
use rows::Word;
use std::io;

const UNSIGNED: [u64; 12] = [
    0,
    1,
    63,
    64,
    127,
    128,
    16383,
    16384,
    2147483648,
    4294967296,
    9223372036854775808,
    18446744073709551615,
];

const SIGNED: [i64; 17] = [
    0,
    1,
    -1,
    63,
    64,
    -64,
    -65,
    127,
    128,
    -127,
    -128,
    2147483648,
    -2147483648,
    4294967296,
    -4294967296,
    9223372036854775807,
    -9223372036854775808,
];

const STEPS: [u64; 8] = [1, 63, 64, 255, 256, 65535, 65536, 4294967295];

// The pointer width that rows are written for.
const WORD: u64 = 8;

// An offset of 32 bits, in two's complement.
const MINUS_16: u64 = 4294967280;

const REGISTERS: [u64; 6] = [0, 63, 64, 127, 128, 65535];

// The kinds that name a register, with a second operand.
const NAMING: [(u64, u64); 7] = [
    (0, 8),
    (0, MINUS_16),
    (2, 0),
    (3, MINUS_16),
    (3, 8),
    (4, 0),
    (5, 0),
];

// Rows of a kind, a register and a second operand: those that name no register, those of a register that keeps its value or is held in
// another, and two that are no rows.
const ROWS: [(u64, u64, u64); 17] = [
    (1, 0, 0),
    (1, 0, 16),
    (1, 0, MINUS_16),
    (1, 0, 2147483647),
    (1, 0, 2147483648),
    (6, 0, 0),
    (7, 0, 0),
    (8, 0, 0),
    (9, 0, 0),
    (9, 128, 0),
    (9, 65535, 0),
    (10, 0, 127),
    (10, 127, 128),
    (10, 65535, 0),
    (10, 128, 65535),
    (9, 3, 1),
    (10, 3, 65536),
];

// Numbers of ten and eleven bytes, cut ones, and long forms.
const FOREIGN_UNSIGNED: [&[u8]; 7] = [
    b"\x80\x80\x80\x80\x80\x80\x80\x80\x80\x01",
    b"\xff\xff\xff\xff\xff\xff\xff\xff\xff\x01",
    b"\x80\x80\x80\x80\x80\x80\x80\x80\x80\x02",
    b"\x80\x80\x80\x80\x80\x80\x80\x80\x80\x80\x00",
    b"\x80",
    b"\x80\x00",
    b"\xe5\x8e\x26",
];

const FOREIGN_SIGNED: [&[u8]; 9] = [
    b"\x80\x80\x80\x80\x80\x80\x80\x80\x80\x7f",
    b"\x80\x80\x80\x80\x80\x80\x80\x80\x80\x00",
    b"\x80\x80\x80\x80\x80\x80\x80\x80\x80\x01",
    b"\xff\xff\xff\xff\xff\xff\xff\xff\xff\x00",
    b"\xff\xff\xff\xff\xff\xff\xff\xff\xff\x7f",
    b"\x80\x80\x80\x80\x80\x80\x80\x80\x80\x80\x00",
    b"\xc0",
    b"\xc0\x00",
    b"\x40",
];

// What a leaf reads, as a line shows it.
trait Shown: Copy {
    fn show(self, rt: &impl Print) -> io::Result<()>;
}

impl Shown for u64 {
    fn show(self, rt: &impl Print) -> io::Result<()> {
        print!(rt; " {self}")
    }
}

// The sign, and v or, where v is negative, -(v + 1).
impl Shown for i64 {
    fn show(self, rt: &impl Print) -> io::Result<()> {
        if self < 0 {
            print!(rt; " -")?;
            (-1 - self).cast_unsigned().show(rt)
        } else {
            print!(rt; " +")?;
            self.cast_unsigned().show(rt)
        }
    }
}

// A row's kind, register and second operand.
impl Shown for Row {
    fn show(self, rt: &impl Print) -> io::Result<()> {
        let kind = rows::kind(self);
        let reg = rows::register(self);
        print!(rt; " {kind} {reg}")?;
        rows::offset(self).show(rt)
    }
}

impl Shown for Operation {
    fn show(self, rt: &impl Print) -> io::Result<()> {
        match self {
            Operation::Nop => print!(rt; " nop"),
            Operation::Step(n) => n.show(rt),
            Operation::Does(r) => r.show(rt),
        }
    }
}

fn bytes(rt: &impl Print, s: &[u8]) -> io::Result<()> {
    print!(rt; " ")?;
    for b in s {
        print!(rt; "{b:02x}")?;
    }
    Ok(())
}

// The start of a line: what is tried, and the vector's index.
fn begin(rt: &impl Print, name: &str, i: usize) -> io::Result<()> {
    print!(rt; "{name} {i}")
}

// The end of a line: what is read, and the place past it.
fn end<T: Shown>(rt: &impl Print, read: Option<(T, Position)>) -> io::Result<()> {
    let Some((v, next)) = read else {
        return println!(rt; " bad");
    };
    v.show(rt)?;
    let at = next.at;
    println!(rt; " {at}")
}

// The rest of a line: what was written, how many bytes it was said to take, and what is read.
fn rest<T: Shown>(
    rt: &impl Print,
    s: &[u8],
    size: usize,
    read: Option<(T, Position)>,
) -> io::Result<()> {
    bytes(rt, s)?;
    print!(rt; " {size}")?;
    end(rt, read)
}

// Kept: three functions, 27 lines, that differ in the name, the room, the writer, the size and the reader. A trait of these has an impl of
// 16 lines for each, and a struct for a step: 70 lines with its declaration and one function over it. A function over two closures has
// three calls of 15 lines, since each closure that writes needs clauses for its room and for how much it writes: 63 lines.
fn unsigned(rt: &impl Print, i: usize, v: u64) -> io::Result<()> {
    let mut out = [0u8; 10];
    let n = leb::uleb(&mut out, 0, v);
    let s = &out[..n];
    begin(rt, "uleb", i)?;
    rest(rt, s, leb::uleb_size(v), read_uleb(s, Position::START))
}

fn signed(rt: &impl Print, i: usize, v: i64) -> io::Result<()> {
    let mut out = [0u8; 10];
    let n = leb::sleb(&mut out, 0, v);
    let s = &out[..n];
    begin(rt, "sleb", i)?;
    rest(rt, s, leb::sleb_size(v), read_sleb(s, Position::START))
}

// Nine bytes hold a row whose offset has 32 bits.
fn write_row(rt: &impl Print, r: Row) -> io::Result<()> {
    let word = Word { bytes: WORD };
    let size = rows::row_size(word, r);
    if 9 < size {
        return println!(rt; " long");
    }
    let mut out = [0u8; 9];
    let n = rows::row(&mut out, 0, word, r);
    let s = &out[..n];
    rest(rt, s, size, operations::operation(s, Position::START, WORD))
}

// The second row of a list.
fn row(rt: &impl Print, i: usize, kind: u64, reg: u64, off: u64) -> io::Result<()> {
    let list = [7, 5, 9, 0, 0, kind, reg, off];
    begin(rt, "row", i)?;
    if rows::row_ok(&list, 1) {
        write_row(rt, rows::row_at(&list, 1))
    } else {
        println!(rt; " no row")
    }
}

fn step(rt: &impl Print, i: usize, by: u64) -> io::Result<()> {
    let mut out = [0u8; 5];
    let n = rows::advance(&mut out, 0, by);
    let s = &out[..n];
    begin(rt, "step", i)?;
    rest(
        rt,
        s,
        rows::advance_size(by),
        operations::operation(s, Position::START, WORD),
    )
}

fn all_rows(rt: &impl Print) -> io::Result<()> {
    for (i, reg) in REGISTERS.iter().enumerate() {
        for (k, (kind, off)) in NAMING.iter().enumerate() {
            row(rt, NAMING.len() * i + k, *kind, *reg, *off)?;
        }
    }
    for (i, (kind, reg, off)) in ROWS.iter().enumerate() {
        row(rt, REGISTERS.len() * NAMING.len() + i, *kind, *reg, *off)?;
    }
    Ok(())
}

fn foreign(rt: &impl Print) -> io::Result<()> {
    for (i, s) in FOREIGN_UNSIGNED.iter().enumerate() {
        begin(rt, "read uleb", i)?;
        end(rt, read_uleb(s, Position::START))?;
    }
    for (i, s) in FOREIGN_SIGNED.iter().enumerate() {
        begin(rt, "read sleb", i)?;
        end(rt, read_sleb(s, Position::START))?;
    }
    Ok(())
}

fn main(rt: HostRuntime) -> io::Result<()> {
    for (i, v) in UNSIGNED.iter().enumerate() {
        unsigned(&rt, i, *v)?;
    }
    for (i, v) in SIGNED.iter().enumerate() {
        signed(&rt, i, *v)?;
    }
    all_rows(&rt)?;
    for (i, v) in STEPS.iter().enumerate() {
        step(&rt, i, *v)?;
    }
    foreign(&rt)
}
