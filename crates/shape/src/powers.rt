// Powers and lengths in bits of what a state's numbers give.
ghost use Rattle.std.specs.Prelude.{◌≡◌, suc, ◌-◌, ◌*◌, ◌^◌, ◌≤◌, min};
ghost use Rattle.sums.specs.Calls.{bit_length, gain_log2_of};
ghost use Rattle.shape.specs.Powers.{power_cap};

use crate::numbers::span;

// base^n, or 2^63 + 1 where it is more: no power is compared with more than 2^63.
pub(crate) fn power(base: u64, n: usize) -> u64
    requires { 1 ≤ base }
    ensures { result ≡ min (base ^ n) power_cap }
{
    let mut r: u64 = 1;
    for i in 0..n {
        r = r.saturating_mul(base).min(9223372036854775809);
    }
    r
}

// 2^n.
pub(crate) fn power_of_two(n: u32) -> u64
    requires { n ≤ 63 }
    ensures { result ≡ 2 ^ n }
{
    1u64 << n
}

// The number of bits of n.
#[tactic(auto, using(sums::proofs::Numbers::lengths))]
fn bit_length(n: u64) -> u32
    ensures { result ≡ bit_length 64 n }
{
    u64::BITS - n.leading_zeros()
}

// N times the bit length of R.M - 1.
#[tactic(auto, unfolding(sums::specs::Calls::gain_log2_of))]
pub(crate) fn shift(order: usize, delay: usize, rate: u32) -> u64
    requires { (order ≤ 8) × (1 ≤ delay) × (delay ≤ 8) × (rate ≤ 65535) }
    ensures { result ≡ gain_log2_of order delay rate }
{
    let r = span(rate, delay as u32);
    order as u64 * u64::from(bit_length(r - 1))
}
