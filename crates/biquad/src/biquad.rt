// Coefficients of a second-order section: y0 = b0 x0 + b1 x1 + b2 x2 + a1 y1 + a2 y2.
ghost use Rattle.std.specs.Prelude.{◌≡◌};
ghost use Rattle.biquad.specs.Coefficients.{proportional_of, identity_of, hold_of, zpk_of, forward_gain};

use crate::form::Coefficients;
use crate::pair::Pair;
use blocks::Refusal;

// a1 and a2 have the sign in which the recurrence adds them.
#[derive(Clone, Copy)]
pub struct Biquad {
    pub b0: f64,
    pub b1: f64,
    pub b2: f64,
    pub a1: f64,
    pub a2: f64,
}

impl Biquad {
    // A unity gain filter.
    pub const IDENTITY: Biquad = Biquad {
        b0: 1.0,
        b1: 0.0,
        b2: 0.0,
        a1: 0.0,
        a2: 0.0,
    };

    // A filter that ingests input and maintains output.
    pub const HOLD: Biquad = Biquad {
        b0: 0.0,
        b1: 0.0,
        b2: 0.0,
        a1: 1.0,
        a2: 0.0,
    };

    // The gain k at all frequencies.
    pub fn proportional(k: f64) -> Biquad
        ensures { result ≡ proportional_of k }
    {
        Biquad {
            b0: k,
            b1: 0.0,
            b2: 0.0,
            a1: 0.0,
            a2: 0.0,
        }
    }

    // From a pair of zeros, a pair of poles and a gain.
    pub fn from_zpk(zeros: Pair, poles: Pair, gain: f64) -> Biquad
        ensures { result ≡ zpk_of zeros poles gain }
    {
        let b = zeros.coeff();
        let a = poles.coeff();
        Biquad {
            b0: gain,
            b1: -(gain * b.0),
            b2: gain * b.1,
            a1: a.0,
            a2: -a.1,
        }
    }

    // The gain at frequency 0 from the input to the summing junction.
    pub fn forward_gain(self) -> f64
        ensures { result ≡ forward_gain self }
    {
        self.b0 + self.b1 + self.b2
    }
}

impl Coefficients for Biquad {
    ghost number = { λ c. 0 };

    // None is refused.
    fn refusal(self) -> Result<(), Refusal> {
        Ok(())
    }
}

// Nothing calls it: its promise says what the constant `IDENTITY` is.
fn identity() -> Biquad
    ensures { result ≡ identity_of }
{
    Biquad::IDENTITY
}

// Nothing calls it: its promise says what the constant `HOLD` is.
fn hold() -> Biquad
    ensures { result ≡ hold_of }
{
    Biquad::HOLD
}
