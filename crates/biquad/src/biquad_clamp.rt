// Coefficients with an offset at the summing junction and limits of the output.
ghost use Rattle.std.specs.Prelude.{◌≡◌};
ghost use Rattle.biquad.specs.Coefficients.{coeffs, open_of, with_offset};
ghost use Rattle.biquad.specs.Forms.{clamp_to, limited_of};
ghost use Rattle.biquad.specs.Answers.{limit_number, offset_of};

use crate::biquad::Biquad;
use crate::form::Coefficients;
use blocks::Refusal;

#[derive(Clone, Copy)]
pub struct BiquadClamp {
    pub b0: f64,
    pub b1: f64,
    pub b2: f64,
    pub a1: f64,
    pub a2: f64,
    // The offset added before the limits.
    pub u: f64,
    // The lower and the upper limit.
    pub min: f64,
    pub max: f64,
}

impl From<Biquad> for BiquadClamp {
    ghost from_gives = { λ coeff c. c ≡ open_of coeff };

    // The coefficients with no offset and no limits: 0, -inf and +inf.
    fn from(coeff: Biquad) -> BiquadClamp {
        BiquadClamp {
            b0: coeff.b0,
            b1: coeff.b1,
            b2: coeff.b2,
            a1: coeff.a1,
            a2: coeff.a2,
            u: 0.0,
            min: -1.0 / 0.0,
            max: 1.0 / 0.0,
        }
    }
}

impl BiquadClamp {
    // The coefficients alone.
    pub fn coeff(self) -> Biquad
        ensures { result ≡ coeffs self }
    {
        Biquad {
            b0: self.b0,
            b1: self.b1,
            b2: self.b2,
            a1: self.a1,
            a2: self.a2,
        }
    }

    // The offset referred to the input. 42 where the forward gain equals zero, of either sign.
    pub fn input_offset(self) -> Result<f64, Refusal>
        ensures { result ≡ offset_of self }
    {
        let gain = self.coeff().forward_gain();
        if gain == 0.0 {
            return Err(Refusal::ForwardGain);
        }
        Ok(self.u / gain)
    }

    // The offset set so that it is i, referred to the input; all else stays.
    pub fn set_input_offset(&mut self, i: f64)
        ensures { self.new ≡ with_offset self.old i }
    {
        self.u = i * self.coeff().forward_gain();
    }

    // A sum with the offset added, then clamped.
    pub(crate) fn limited(self, sum: f64) -> f64
        ensures { result ≡ limited_of self sum }
    {
        let u = self.u;
        clamp(sum + u, self.min, self.max)
    }
}

impl Coefficients for BiquadClamp {
    ghost number = { limit_number };

    // 41 where the lower limit is above the upper or one is a NaN.
    fn refusal(self) -> Result<(), Refusal> {
        if self.min > self.max || self.min.is_nan() || self.max.is_nan() {
            return Err(Refusal::Limits);
        }
        Ok(())
    }
}

// The lower limit where y is below it, else the upper where y is above it, else y: so a NaN passes.
// Kept: `f64::clamp` asks that the limits are in order, and `limited` is for any.
#[tactic(auto, unfolding(crate::specs::Forms::clamp_to))]
fn clamp(y: f64, min: f64, max: f64) -> f64
    ensures { result ≡ clamp_to min max y }
{
    if y < min {
        return min;
    }
    if y > max {
        return max;
    }
    y
}
