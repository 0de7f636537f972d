//! Products that 64 bits hold.

ghost use Rattle.std.specs.Prelude.{◌≡◌, ◌+◌, ◌*◌, ◌^◌, ◌<◌, pos, negsuc, neg_ℤ, nat_abs};
ghost use Rattle.cfi_operations.specs.Numbers.{held, with_sign, is_negative, product, fitting};

/// A magnitude with a sign, where signed 64 bits hold it.

pub fn with_sign(negative: bool, m: u64) -> Option<i64>
    ensures { result ≡ held (with_sign negative m) }
{
    if !negative {
        return if m < 0x8000_0000_0000_0000 {
            Some(m as i64)
        } else {
            None
        };
    }
    if m == 0 {
        return Some(0);
    }
    if m > 0x8000_0000_0000_0000 {
        return None;
    }
    Some(-1 - ((m - 1) as i64))
}

/// A number by its sign and its magnitude, times a factor, where signed 64 bits hold the product.
#[tactic(auto, using(crate::proofs::Signs::over))]
pub fn product(negative: bool, m: u64, factor: i64) -> Option<i64>
    ensures { result ≡ product negative m factor }
{
    match m.checked_mul(factor.unsigned_abs()) {
        Some(n) => with_sign(negative != (factor < 0), n),
        None => None,
    }
}

/// A step times a factor, where 64 bits hold it.
pub fn scaled(n: u64, factor: u64) -> Option<u64>
    ensures { result ≡ fitting (n * factor) }
{
    n.checked_mul(factor)
}
