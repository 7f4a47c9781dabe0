//! Division that is fast where the divisor is a power of two, as it is in most hierarchies: the
//! processor's own takes as long as ten or twenty other instructions.

ghost use Rattle.std.specs.Prelude.{◌≡◌, ◌/◌, ◌%◌, ◌<◌};

/// `n / by`.
#[inline(always)]
pub fn wide_quotient(n: u64, by: u64) -> u64
    requires { 0 < by }
    ensures { result ≡ n / by }
{
    let places = by.ilog2();
    if by == 1 << places {
        n >> places
    } else {
        n / by
    }
}

/// `n % by`.
#[inline(always)]
pub fn wide_remainder(n: u64, by: u64) -> u64
    requires { 0 < by }
    ensures { result ≡ n % by }
{
    let places = by.ilog2();
    if by == 1 << places {
        n & (by - 1)
    } else {
        n % by
    }
}

/// `n / by`.
#[inline(always)]
pub fn quotient(n: u32, by: u32) -> u32
    requires { 0 < by }
    ensures { result ≡ n / by }
{
    wide_quotient(u64::from(n), u64::from(by)) as u32
}

/// `n % by`.
#[inline(always)]
pub fn remainder(n: u32, by: u32) -> u32
    requires { 0 < by }
    ensures { result ≡ n % by }
{
    wide_remainder(u64::from(n), u64::from(by)) as u32
}
