// Coefficients from poles.
ghost use Rattle.std.specs.Prelude.{◌≡◌, T};
ghost use Rattle.adapters.specs.Quantize.{coefficient_of, in_range, nearest_bits, quantized};

use crate::tpa::Tpa;
use blocks::Refusal;

// The whole number nearest to a * 2^32, halves away from zero.
fn nearest_bits(a: f64) -> i32
    requires { T (in_range a) }
    ensures { result ≡ nearest_bits a }
{
    // Twice the size of a in units of 2^-32 is a double, so that nothing is rounded here; its fraction is cut off.
    let halves = std::num::truncating_f64_to_u64(-a * 8589934592.0);
    (0 - (((halves + 1) / 2) as i64)) as i32
}

impl Tpa {
    // The double that stands for the pole g: one operation, rounded once. Z and X do not look at g.
    #[tactic(auto, unfolding(crate::specs::Quantize::coefficient_of))]
    fn coefficient(self, g: f64) -> f64
        ensures { result ≡ coefficient_of self g }
    {
        match self {
            Tpa::A => g - 1.0,
            Tpa::B | Tpa::B1 => -g,
            Tpa::C | Tpa::C1 => g,
            Tpa::D => -1.0 - g,
            Tpa::Z => 0.0,
            Tpa::X => 0.0,
        }
    }

    // The bits of the coefficient for the pole g, in units of 2^-32: the whole number nearest to its double times 2^32, halves away
    // from zero. `RetiredAdapter` for B1 and C1, then `Coefficient` where the double is not from -0.5 to 0, which a NaN is not and
    // -0.0 is.
    #[tactic(auto, unfolding(crate::specs::Quantize::quantized))]
    pub fn quantize(self, g: f64) -> Result<i32, Refusal>
        ensures { result ≡ quantized self g }
    {
        if self.is_retired() {
            return Err(Refusal::RetiredAdapter);
        }
        let a = self.coefficient(g);
        if a >= -0.5 && a <= 0.0 {
            return Ok(nearest_bits(a));
        }
        Err(Refusal::Coefficient)
    }
}
