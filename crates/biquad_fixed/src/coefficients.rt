// Coefficients, offset and limits, and what the wide and the dithered form do with them.
ghost use Rattle.std.specs.Prelude.{◌≡◌};
ghost use Rattle.std.specs.Int.{w64};
ghost use Rattle.words.specs.Words.{wrap};
ghost use Rattle.blocks.specs.Refusals.{answer};
ghost use Rattle.biquad_fixed.specs.Forms.{forward, held_to, limited};
ghost use Rattle.biquad_fixed.specs.Answers.{fraction_number, clamp_number};

use crate::form::Coefficients;
use blocks::Refusal;
use words::signed::product;

// The bits of coefficients with f fraction bits. a1 and a2 have the sign in which the recurrence adds them.
#[derive(Clone, Copy)]
pub struct Biquad {
    pub b0: i32,
    pub b1: i32,
    pub b2: i32,
    pub a1: i32,
    pub a2: i32,
    pub f: u32,
}

// Coefficients with an offset, added before the limits, and the lower and the upper limit of the output.
#[derive(Clone, Copy)]
pub struct BiquadClamp {
    pub coeff: Biquad,
    pub u: i32,
    pub min: i32,
    pub max: i32,
}

impl Biquad {
    // The refusal of the fraction bits: FractionBits (40) where they are below `least` or above 31.
    #[tactic(auto, unfolding(blocks::specs::Refusals::answer, blocks::specs::Refusals::refusal_at))]
    pub fn fraction(self, least: u32) -> Result<(), Refusal>
        ensures { result ≡ answer (fraction_number least self) tt }
    {
        if self.f < least {
            return Err(Refusal::FractionBits);
        }
        if 31 < self.f {
            return Err(Refusal::FractionBits);
        }
        Ok(())
    }

    // The inputs' part of the sum, modulo 2^64.
    pub fn inputs(self, x0: i32, x1: i32, x2: i32) -> i64
        ensures { result ≡ wrap w64 (forward self x0 x1 x2) }
    {
        product(self.b0, x0)
            .wrapping_add(product(self.b1, x1))
            .wrapping_add(product(self.b2, x2))
    }
}

impl BiquadClamp {
    // The refusal of the fraction bits, else Limits (41) where the lower limit is above the upper.
    pub fn refusal(self, least: u32) -> Result<(), Refusal>
        ensures { result ≡ answer (clamp_number least self) tt }
    {
        self.coeff.fraction(least)?;
        if self.max < self.min {
            return Err(Refusal::Limits);
        }
        Ok(())
    }

    // The output y with the offset added, modulo 2^32, and held to the limits.
    #[tactic(auto, using(words::proofs::Std::signed))]
    pub fn limit(self, y: i32) -> i32
        ensures { result ≡ limited self y }
    {
        clamp(y.wrapping_add(self.u), self.min, self.max)
    }
}

impl Coefficients for Biquad {
    ghost bits = { λ c. c.f };

    fn fraction_bits(self) -> u32 {
        self.f
    }

    fn at(self, f: u32) -> Biquad {
        Biquad { f, ..self }
    }
}

impl Coefficients for BiquadClamp {
    ghost bits = { λ c. c.coeff.f };

    fn fraction_bits(self) -> u32 {
        self.coeff.f
    }

    fn at(self, f: u32) -> BiquadClamp {
        BiquadClamp {
            coeff: self.coeff.at(f),
            ..self
        }
    }
}

// The lower limit where y is below it, else the upper where y is above it, else y.
// Kept: `i32::clamp` asks that the limits are in order, and `limit` is for any.
fn clamp(y: i32, min: i32, max: i32) -> i32
    ensures { result ≡ held_to min max y }
{
    if y < min {
        return min;
    }
    if max < y {
        return max;
    }
    y
}
