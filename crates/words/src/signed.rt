// Sums, differences and products of signed numbers, modulo 2^32 and 2^64, read as signed.
#![tactic(auto, using(crate::proofs::Std::signed))]

ghost use Rattle.std.specs.Prelude.{◌≡◌, ◌+ℤ◌, ◌-ℤ◌, ◌*ℤ◌};
ghost use Rattle.std.specs.Int.{w32, w64};
ghost use Rattle.words.specs.Words.{wrap};

pub fn add_i32(a: i32, b: i32) -> i32
    ensures { result ≡ wrap w32 (a +ℤ b) }
{
    a.wrapping_add(b)
}

pub fn sub_i32(a: i32, b: i32) -> i32
    ensures { result ≡ wrap w32 (a -ℤ b) }
{
    a.wrapping_sub(b)
}

pub fn mul_i32(a: i32, b: i32) -> i32
    ensures { result ≡ wrap w32 (a *ℤ b) }
{
    a.wrapping_mul(b)
}

pub fn add_i64(a: i64, b: i64) -> i64
    ensures { result ≡ wrap w64 (a +ℤ b) }
{
    a.wrapping_add(b)
}

pub fn sub_i64(a: i64, b: i64) -> i64
    ensures { result ≡ wrap w64 (a -ℤ b) }
{
    a.wrapping_sub(b)
}

pub fn mul_i64(a: i64, b: i64) -> i64
    ensures { result ≡ wrap w64 (a *ℤ b) }
{
    a.wrapping_mul(b)
}

// The whole product, which 64 bits always hold.
pub fn product(a: i32, b: i32) -> i64
    ensures { result ≡ a *ℤ b }
{
    i64::from(a) * i64::from(b)
}
