// Shifts, by k modulo the width as the machine has it. To the right a number is divided and rounded down;
// to the left it is multiplied modulo 2^w.
#![tactic(auto, using(crate::proofs::Std::signed, crate::proofs::Std::unsigned))]

ghost use Rattle.std.specs.Prelude.{◌≡◌, ◌/◌, ◌%◌, ◌^◌, pos, ◌*ℤ◌};
ghost use Rattle.std.specs.Int.{w32, w64};
ghost use Rattle.words.specs.Words.{word, wrap, floor_div};

pub fn shr_u32(a: u32, k: u32) -> u32
    ensures { result ≡ a / 2 ^ (k % 32) }
{
    a >> (k % 32)
}

pub fn shr_u64(a: u64, k: u32) -> u64
    ensures { result ≡ a / 2 ^ (k % 64) }
{
    a >> (k % 64)
}

pub fn shr_i32(a: i32, k: u32) -> i32
    ensures { result ≡ floor_div a (2 ^ (k % 32)) }
{
    a >> (k % 32)
}

pub fn shr_i64(a: i64, k: u32) -> i64
    ensures { result ≡ floor_div a (2 ^ (k % 64)) }
{
    a >> (k % 64)
}

pub fn shl_u32(a: u32, k: u32) -> u32
    ensures { result ≡ word w32 (pos a *ℤ pos (2 ^ (k % 32))) }
{
    a << (k % 32)
}

pub fn shl_u64(a: u64, k: u32) -> u64
    ensures { result ≡ word w64 (pos a *ℤ pos (2 ^ (k % 64))) }
{
    a << (k % 64)
}

pub fn shl_i32(a: i32, k: u32) -> i32
    ensures { result ≡ wrap w32 (a *ℤ pos (2 ^ (k % 32))) }
{
    a << (k % 32)
}

pub fn shl_i64(a: i64, k: u32) -> i64
    ensures { result ≡ wrap w64 (a *ℤ pos (2 ^ (k % 64))) }
{
    a << (k % 64)
}
