// An unwind code of Windows on ARM64 as bytes: its form, whether its fields hold it, how many bytes it has, and its bytes. Ported from
// rucc-asm/src/xdata.rs (Code::bytes) of tamnd/rucc, changed: see NOTICE.
#![tactic(auto)]

ghost use Rattle.std.specs.Prelude.{◌≡◌, true, ◌+◌, ◌*◌, ◌≤◌, ◌<◌, length, get_or};
ghost use Rattle.format.proofs.Wrote.{Wrote};
ghost use Rattle.arm64.specs.Codes.{last_registers, form_of, form_for, register_field, offset_field, register_fits, offset_fits, code_fits, code_bytes, big};
ghost use Rattle.arm64_spelled.specs.Forms.{opcodes, FormGood, InRanges, word_of};

use arm64::{Code, Form};

// ---- the form

// How a kind is spelled: the first byte where its fields are 0, and the last register that it can name.
#[derive(Clone, Copy)]
struct Kind {
    opcode: u8,
    last: u8,
}

// The kinds in the order of their numbers; an allocation's first byte goes by its size.
const KINDS: [Kind; 18] = [
    Kind {
        opcode: 0xe0,
        last: 0,
    },
    Kind {
        opcode: 0x20,
        last: 0,
    },
    Kind {
        opcode: 0x40,
        last: 0,
    },
    Kind {
        opcode: 0x80,
        last: 0,
    },
    Kind {
        opcode: 0xc8,
        last: 28,
    },
    Kind {
        opcode: 0xcc,
        last: 28,
    },
    Kind {
        opcode: 0xd0,
        last: 30,
    },
    Kind {
        opcode: 0xd4,
        last: 30,
    },
    Kind {
        opcode: 0xd6,
        last: 27,
    },
    Kind {
        opcode: 0xd8,
        last: 14,
    },
    Kind {
        opcode: 0xda,
        last: 14,
    },
    Kind {
        opcode: 0xdc,
        last: 15,
    },
    Kind {
        opcode: 0xde,
        last: 15,
    },
    Kind {
        opcode: 0xe1,
        last: 0,
    },
    Kind {
        opcode: 0xe2,
        last: 0,
    },
    Kind {
        opcode: 0xe3,
        last: 0,
    },
    Kind {
        opcode: 0xe6,
        last: 0,
    },
    Kind {
        opcode: 0xfc,
        last: 0,
    },
];

// The kind of a number: a first byte that no code has and no register where it is no kind's.
fn kind_of(kind: u64) -> Kind
    ensures { (result.opcode ≡ get_or opcodes kind 0xdf) × (result.last ≡ get_or last_registers kind 0) }
{
    KINDS.get(kind as usize).copied().unwrap_or(Kind {
        opcode: 0xdf,
        last: 0,
    })
}

fn opcode(c: Code) -> u64
    ensures { form_of result ≡ form_for c }
{
    if c.kind != arm64::ALLOC {
        return u64::from(kind_of(c.kind).opcode);
    }
    match c.offset / 16 {
        0..32 => 0x00,
        32..2048 => 0xc0,
        _ => 0xe0,
    }
}

// A code with the form of its kind.
#[derive(Clone, Copy)]
struct Spelling {
    code: Code,
    form: Form,
    ghost good: { FormGood form },
}

impl Spelling {
    fn of(code: Code) -> Spelling
        ensures { (result.code ≡ code) × (result.form ≡ form_for code) }
    {
        Spelling {
            code,
            form: arm64_codes::form_of(opcode(code)),
        }
    }

    // ---- question 83 of a code

    fn register_fits(self) -> bool
        ensures { result ≡ register_fits self.form self.code }
    {
        let register = self.code.register;
        if self.form.step == 0 {
            return true;
        }
        if register < self.form.first {
            return false;
        }
        if u64::from(kind_of(self.code.kind).last) < register {
            return false;
        }
        (register - self.form.first) % self.form.step == 0
    }

    fn offset_fits(self) -> bool
        ensures { result ≡ offset_fits self.form self.code }
    {
        let offset = self.code.offset;
        if offset < self.form.more {
            return false;
        }
        if offset % self.form.scale != 0 {
            return false;
        }
        (offset - self.form.more) / self.form.scale < self.form.unit
    }

    // ---- bytes

    fn register_field(self) -> u64
        requires { InRanges self.form self.code }
        ensures { (result ≡ register_field self.form self.code) × (result ≤ 30) }
    {
        if self.form.step == 0 {
            return 0;
        }
        (self.code.register - self.form.first) / self.form.step
    }

    // The opcode and the fields as one number, first byte highest.
    fn word(self) -> u64
        requires { InRanges self.form self.code }
        ensures { result ≡ word_of self.form self.code }
    {
        let f = self.form;
        let field = f.unit * self.register_field() + (self.code.offset - f.more) / f.scale;
        match f.size {
            1 => f.op + field,
            2 => 256 * f.op + field,
            _ => 16777216 * f.op + field,
        }
    }
}

// Whether the register is one that the kind can name.
pub fn register_ok(c: Code) -> bool
    ensures { result ≡ register_fits (form_for c) c }
{
    Spelling::of(c).register_fits()
}

pub fn code_fits(c: Code) -> bool
    ensures { result ≡ code_fits c }
{
    let s = Spelling::of(c);
    s.register_fits() && s.offset_fits()
}

pub fn code_size(c: Code) -> usize
    ensures { (result ≡ length (code_bytes c)) × (1 ≤ result) × (result ≤ 4) }
{
    Spelling::of(c).form.size as usize
}

// A number in 1, 2 or 4 bytes, the first highest.
fn put_big(out: &mut [u8], at: usize, size: u64, n: u64) -> usize
    requires { (1 ≤ size) × (size ≤ 4) × (size ≡ 3 → ⊥) × (at + size ≤ length out.old) }
    ensures { Wrote out.old out.new at result (big size n) }
{
    if size == 1 {
        return leb::byte(out, at, (n % 256) as u8);
    }
    if size == 2 {
        out[at..at + 2].copy_from_slice(&((n % 65536) as u16).to_be_bytes());
        return at + 2;
    }
    out[at..at + 4].copy_from_slice(&((n % 4294967296) as u32).to_be_bytes());
    at + 4
}

pub fn put_code(out: &mut [u8], at: usize, c: Code) -> usize
    requires { (code_fits c ≡ true) × (at + length (code_bytes c) ≤ length out.old) }
    ensures { Wrote out.old out.new at result (code_bytes c) }
{
    let s = Spelling::of(c);
    put_big(out, at, s.form.size, s.word())
}
