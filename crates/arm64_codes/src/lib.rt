// Unwind codes of Windows on ARM64 out of a record's bytes: one code by its form. Ported from rucc-asm/src/xdata.rs (Code) of tamnd/rucc, changed: see NOTICE.
#![tactic(auto)]

ghost use Rattle.std.specs.Prelude.{◌≡◌, ◌+◌, ◌*◌, ◌≤◌, ◌<◌, ◌^◌, length, get_or};
ghost use Rattle.format.proofs.Asked.{option_of};
ghost use Rattle.arm64.specs.Codes.{form, short_form, integer_form, vector_form, other_form, form_of, field_at, code_in, code_as, code_at};
ghost use Rattle.arm64.specs.Records.{word_at};
ghost use Rattle.arm64_codes.specs.Forms.{FormOk};

use arm64::{Code, Form};

// ---- how a code is spelled, by its first byte

// Kept: eight numbers in a row. They stand as in the definition's `form`, so that each line below can be compared with the definition's.
fn spelling(
    kind: u64,
    op: u64,
    size: u64,
    unit: u64,
    first: u64,
    step: u64,
    scale: u64,
    more: u64,
) -> Form
    ensures { result ≡ form kind op size unit first step scale more }
{
    Form {
        kind,
        op,
        size,
        unit,
        first,
        step,
        scale,
        more,
    }
}

// A code that is its opcode alone.
fn alone(kind: u64, op: u64) -> Form
    ensures { result ≡ form kind op 1 1 0 0 8 0 }
{
    spelling(kind, op, 1, 1, 0, 0, 8, 0)
}

#[tactic(auto, unfolding(arm64::specs::Codes::short_form, format::specs::Prelude::pick))]
fn short_form(b: u64) -> Form
    ensures { result ≡ short_form b }
{
    match b {
        0x00..=0x1f => spelling(arm64::ALLOC, 0x00, 1, 32, 0, 0, 16, 0),
        0x20..=0x3f => spelling(arm64::R19R20X, 0x20, 1, 32, 0, 0, 8, 0),
        0x40..=0x7f => spelling(arm64::FPLR, 0x40, 1, 64, 0, 0, 8, 0),
        _ => spelling(arm64::FPLR_X, 0x80, 1, 64, 0, 0, 8, 8),
    }
}

#[tactic(auto, unfolding(arm64::specs::Codes::integer_form, format::specs::Prelude::pick))]
fn integer_form(b: u64) -> Form
    ensures { result ≡ integer_form b }
{
    match b {
        0x00..=0xc7 => spelling(arm64::ALLOC, 0xc0, 2, 2048, 0, 0, 16, 0),
        0xc8..=0xcb => spelling(arm64::REGP, 0xc8, 2, 64, 19, 1, 8, 0),
        0xcc..=0xcf => spelling(arm64::REGP_X, 0xcc, 2, 64, 19, 1, 8, 8),
        0xd0..=0xd3 => spelling(arm64::REG, 0xd0, 2, 64, 19, 1, 8, 0),
        0xd4..=0xd5 => spelling(arm64::REG_X, 0xd4, 2, 32, 19, 1, 8, 8),
        _ => spelling(arm64::LRPAIR, 0xd6, 2, 64, 19, 2, 8, 0),
    }
}

#[tactic(auto, unfolding(arm64::specs::Codes::vector_form, format::specs::Prelude::pick))]
fn vector_form(b: u64) -> Form
    ensures { result ≡ vector_form b }
{
    match b {
        0x00..=0xd9 => spelling(arm64::FREGP, 0xd8, 2, 64, 8, 1, 8, 0),
        0xda..=0xdb => spelling(arm64::FREGP_X, 0xda, 2, 64, 8, 1, 8, 8),
        0xdc..=0xdd => spelling(arm64::FREG, 0xdc, 2, 64, 8, 1, 8, 0),
        0xde => spelling(arm64::FREG_X, 0xde, 2, 32, 8, 1, 8, 8),
        _ => alone(arm64::RESERVED, 0),
    }
}

#[tactic(auto, unfolding(arm64::specs::Codes::other_form, format::specs::Prelude::pick))]
fn other_form(b: u64) -> Form
    ensures { result ≡ other_form b }
{
    match b {
        0xe0 => spelling(arm64::ALLOC, 0xe0, 4, 16777216, 0, 0, 16, 0),
        0xe1 => alone(arm64::SET_FP, 0xe1),
        0xe2 => spelling(arm64::ADD_FP, 0xe2, 2, 256, 0, 0, 8, 0),
        0xe3 => alone(arm64::NOP, 0xe3),
        0xe4 => alone(arm64::END, 0xe4),
        0xe6 => alone(arm64::SAVE_NEXT, 0xe6),
        0xfc => alone(arm64::PAC_SIGN_LR, 0xfc),
        _ => alone(arm64::RESERVED, 0),
    }
}

#[tactic(auto, unfolding(arm64::specs::Codes::form_of, format::specs::Prelude::pick))]
pub fn form_of(b: u64) -> Form
    ensures { result ≡ form_of b }
{
    match b {
        0x00..=0xbf => short_form(b),
        0xc0..=0xd7 => integer_form(b),
        0xd8..=0xdf => vector_form(b),
        _ => other_form(b),
    }
}

// ---- one code

// The number behind the opcode.
#[tactic(auto, unfolding(arm64::specs::Codes::field_at, format::specs::Prelude::pick))]
fn field_at(f: Form, s: &[u8], at: usize) -> u64
    requires { FormOk (get_or s.now at 0) f × (at + f.size ≤ length s.now) }
    ensures { (result ≡ field_at f s.now at) × (result < 16777216) }
{
    match f.size {
        1 => u64::from(s[at]) - f.op,
        2 => u64::from(u16::from_be_bytes([s[at], s[at + 1]])) - 256 * f.op,
        _ => u64::from(u32::from_be_bytes([0, s[at + 1], s[at + 2], s[at + 3]])),
    }
}

// What a form says of byte b and the number v.
#[tactic(auto, unfolding(arm64::specs::Codes::code_in, format::specs::Prelude::pick))]
fn code_in(f: Form, b: u8, v: u64) -> Code
    requires { FormOk b f × (v < 16777216) }
    ensures { result ≡ code_in f v }
{
    Code::new(
        f.kind,
        f.first + f.step * (v / f.unit),
        f.scale * (v % f.unit) + f.more,
    )
}

// The code at a place, and the place past it.
#[tactic(auto, using(crate::proofs::Formed::form_ok), unfolding(arm64::specs::Codes::code_at, arm64::specs::Codes::code_as, format::specs::Prelude::pick))]
pub fn code_at(s: &[u8], at: usize) -> Option<(Code, usize)>
    ensures { result ≡ option_of (code_at s.now at) }
{
    let b = *s.get(at)?;
    let f = form_of(u64::from(b));
    if f.kind == arm64::RESERVED {
        return None;
    }
    let size = f.size as usize;
    if s.len() - at < size {
        return None;
    }
    Some((code_in(f, b, field_at(f, s, at)), at + size))
}
