// The words of 64 bits under names that every width shares: sums, differences and products modulo 2^BITS,
// read as signed.
#![tactic(auto, using(crate::proofs::Std::signed))]

ghost use Rattle.std.specs.Prelude.{◌≡◌, ◌+ℤ◌, ◌-ℤ◌, ◌*ℤ◌};
ghost use Rattle.std.specs.Int.{w64};
ghost use Rattle.words.specs.Words.{wrap};

pub type Word = i64;

pub const BITS: u32 = 64;

pub fn add(a: Word, b: Word) -> Word
    ensures { result ≡ wrap w64 (a +ℤ b) }
{
    a.wrapping_add(b)
}

pub fn sub(a: Word, b: Word) -> Word
    ensures { result ≡ wrap w64 (a -ℤ b) }
{
    a.wrapping_sub(b)
}

pub fn mul(a: Word, b: Word) -> Word
    ensures { result ≡ wrap w64 (a *ℤ b) }
{
    a.wrapping_mul(b)
}
