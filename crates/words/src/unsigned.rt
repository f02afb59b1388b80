// Sums, differences and products of unsigned numbers, modulo 2^32 and 2^64.
#![tactic(auto, using(crate::proofs::Std::unsigned))]

ghost use Rattle.std.specs.Prelude.{◌≡◌, pos, ◌+ℤ◌, ◌-ℤ◌, ◌*ℤ◌};
ghost use Rattle.std.specs.Int.{w32, w64};
ghost use Rattle.words.specs.Words.{word};

pub fn add_u32(a: u32, b: u32) -> u32
    ensures { result ≡ word w32 (pos a +ℤ pos b) }
{
    a.wrapping_add(b)
}

pub fn sub_u32(a: u32, b: u32) -> u32
    ensures { result ≡ word w32 (pos a -ℤ pos b) }
{
    a.wrapping_sub(b)
}

pub fn mul_u32(a: u32, b: u32) -> u32
    ensures { result ≡ word w32 (pos a *ℤ pos b) }
{
    a.wrapping_mul(b)
}

pub fn add_u64(a: u64, b: u64) -> u64
    ensures { result ≡ word w64 (pos a +ℤ pos b) }
{
    a.wrapping_add(b)
}

pub fn sub_u64(a: u64, b: u64) -> u64
    ensures { result ≡ word w64 (pos a -ℤ pos b) }
{
    a.wrapping_sub(b)
}

pub fn mul_u64(a: u64, b: u64) -> u64
    ensures { result ≡ word w64 (pos a *ℤ pos b) }
{
    a.wrapping_mul(b)
}
