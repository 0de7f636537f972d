//! The operands of operations, each with the place behind it.

ghost use Rattle.std.specs.Prelude.{◌≡◌, ◌+◌, ◌≤◌, ◌<◌, length, IfSome};
ghost use Rattle.cfi_operations.specs.Operands.{Ahead, register_at, plain_at, factored_at, negated_at};
ghost use Rattle.cfi_operations.specs.Operands.{signed_at, block_at};

use crate::products::{product, with_sign};
use cfi_entries::places::{sleb, uleb};

/// The bytes of an expression, in the section.
#[derive(Clone, Copy, PartialEq, Eq, Debug)]
pub struct Block {
    pub at: usize,
    pub end: usize,
}

/// A register, which has 16 bits.
pub fn register(s: &[u8], at: usize) -> Option<(u16, usize)>
    ensures value { result ≡ register_at s.now at }
    ensures ahead { IfSome result (λ x. Ahead (length s.now) at x.1) }
{
    let (n, next) = uleb(s, at)?;
    if n > 0xffff {
        return None;
    }
    Some((n as u16, next))
}

/// An offset as it stands.
pub fn plain(s: &[u8], at: usize) -> Option<(i64, usize)>
    ensures value { result ≡ plain_at s.now at }
    ensures ahead { IfSome result (λ x. Ahead (length s.now) at x.1) }
{
    let (n, next) = uleb(s, at)?;
    let z = with_sign(false, n)?;
    Some((z, next))
}

/// An offset that is factored, unsigned.
pub fn factored(s: &[u8], at: usize, factor: i64) -> Option<(i64, usize)>
    ensures value { result ≡ factored_at factor s.now at }
    ensures ahead { IfSome result (λ x. Ahead (length s.now) at x.1) }
{
    let (n, next) = uleb(s, at)?;
    let z = product(false, n, factor)?;
    Some((z, next))
}

/// An offset that is factored and unsigned, with its sign turned.
pub fn negated(s: &[u8], at: usize, factor: i64) -> Option<(i64, usize)>
    ensures value { result ≡ negated_at factor s.now at }
    ensures ahead { IfSome result (λ x. Ahead (length s.now) at x.1) }
{
    let (n, next) = uleb(s, at)?;
    let z = product(true, n, factor)?;
    Some((z, next))
}

/// An offset that is factored, signed.
pub fn signed(s: &[u8], at: usize, factor: i64) -> Option<(i64, usize)>
    ensures value { result ≡ signed_at factor s.now at }
    ensures ahead { IfSome result (λ x. Ahead (length s.now) at x.1) }
{
    let (n, next) = sleb(s, at)?;
    let z = product(n < 0, n.unsigned_abs(), factor)?;
    Some((z, next))
}

/// An expression: a length and as many bytes.
pub fn expression(s: &[u8], at: usize) -> Option<(Block, usize)>
    ensures value { result ≡ block_at s.now at }
    ensures ahead { IfSome result (λ x. Ahead (length s.now) at x.1) }
{
    let (n, from) = uleb(s, at)?;
    if ((s.len() - from) as u64) < n {
        return None;
    }
    let end = from + n as usize;
    Some((Block { at: from, end }, end))
}
