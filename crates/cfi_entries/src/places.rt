//! Numbers at places of a section, each with the place behind it.

ghost use Rattle.std.specs.Prelude.{◌≡◌, ◌+◌, ◌≤◌, ◌<◌, length, IfSome};
ghost use Rattle.cfi_entries.specs.Places.{field_at, uleb_at, sleb_at};

use operations::fields::{Position, read_le, read_sleb, read_uleb};

/// The field of `n` bytes at a place, the lowest first.
#[tactic(auto, using(crate::proofs::PlaceLaws::field_some, crate::proofs::PlaceLaws::field_none))]
pub fn field(s: &[u8], at: usize, n: usize) -> Option<(u64, usize)>
    requires { (0 < n) × (n ≤ 8) }
    ensures value { result ≡ field_at n s.now at }
    ensures ahead { IfSome result (λ x. (at + n ≡ x.1) × (x.1 ≤ length s.now)) }
{
    match read_le(s, Position::from(at), n) {
        Some((v, past)) => Some((v, past.at)),
        None => None,
    }
}

/// The unsigned LEB128 number at a place, of ten bytes at most and below 2^64.
#[tactic(auto, using(crate::proofs::PlaceLaws::uleb_some, crate::proofs::PlaceLaws::uleb_none))]
pub fn uleb(s: &[u8], at: usize) -> Option<(u64, usize)>
    ensures value { result ≡ uleb_at s.now at }
    ensures ahead { IfSome result (λ x. (at < x.1) × (x.1 ≤ length s.now)) }
{
    match read_uleb(s, Position::from(at)) {
        Some((v, past)) => Some((v, past.at)),
        None => None,
    }
}

/// The signed LEB128 number at a place, of ten bytes at most and of 64 bits.
#[tactic(auto, using(crate::proofs::PlaceLaws::sleb_some, crate::proofs::PlaceLaws::sleb_none))]
pub fn sleb(s: &[u8], at: usize) -> Option<(i64, usize)>
    ensures value { result ≡ sleb_at s.now at }
    ensures ahead { IfSome result (λ x. (at < x.1) × (x.1 ≤ length s.now)) }
{
    match read_sleb(s, Position::from(at)) {
        Some((v, past)) => Some((v, past.at)),
        None => None,
    }
}
