// The words of 32 bits under names that every width shares: sums, differences and products modulo 2^BITS,
// read as signed.
#![tactic(auto, using(crate::proofs::Std::signed))]

ghost use Rattle.std.specs.Prelude.{◌≡◌, ◌+ℤ◌, ◌-ℤ◌, ◌*ℤ◌};
ghost use Rattle.std.specs.Int.{w32};
ghost use Rattle.words.specs.Words.{wrap};

pub type Word = i32;

pub const BITS: u32 = 32;

pub fn add(a: Word, b: Word) -> Word
    ensures { result ≡ wrap w32 (a +ℤ b) }
{
    a.wrapping_add(b)
}

pub fn sub(a: Word, b: Word) -> Word
    ensures { result ≡ wrap w32 (a -ℤ b) }
{
    a.wrapping_sub(b)
}

pub fn mul(a: Word, b: Word) -> Word
    ensures { result ≡ wrap w32 (a *ℤ b) }
{
    a.wrapping_mul(b)
}
