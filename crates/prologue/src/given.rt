// What a prologue is read from: a machine, its registers, and rows of a list.
ghost use Rattle.std.specs.Prelude.{◌≡◌, ◌^◌, ◌<◌, length};
ghost use Rattle.prologue.specs.Readable.{Short, AreRows};

use format::Machine;

// The registers of a machine: its map has an entry for each of DWARF's numbers below 64.
#[derive(Clone, Copy)]
pub struct Registers<'m> {
    pub machine: &'m Machine,
    pub ghost registers: { length machine.now.map ≡ 64 },
}

// A machine whose word has eight bytes, as x64 unwind data takes it.
#[derive(Clone, Copy)]
pub struct X64Machine<'m> {
    pub machine: &'m Machine,
    pub ghost registers: { length machine.now.map ≡ 64 },
    pub ghost word: { machine.now.word ≡ 8 },
    pub ghost pushed: { machine.now.pushed < 2 ^ 31 },
}

// The rows of a function or of its prologue, four numbers each.
#[derive(Clone, Copy)]
pub struct FunctionRows<'r> {
    pub rows: &'r [u64],
    pub ghost ready: { AreRows rows.now },
}

// What the rows of a function say: the distance of the frame address above the stack pointer behind the prologue, and the prologue's rows.
#[derive(Clone, Copy)]
pub struct Shape<'r> {
    pub below: i64,
    pub rows: FunctionRows<'r>,
    pub ghost short: { Short below },
}
