// Questions about a state's numbers, whatever its words. Each tests them first; a refused one gives its refusal alone.
ghost use Rattle.std.specs.Prelude.{◌≡◌};
ghost use Rattle.sums.specs.Runs.{needed};
ghost use Rattle.sums.specs.Calls.{gain_number_of, gain_of, gain_log2_of, response_length_of, is_width, fit_number_of, fits_of};
ghost use Rattle.shape.specs.Answers.{refusal_in, told_of, fitting_of};

use crate::numbers::{Numbers, span};
use crate::powers::{power, power_of_two, shift};
use crate::runs::low_rate;
use blocks::Refusal;

// The greatest gain that is told, 2^63 - 1.
const MOST: u64 = 9223372036854775807;

// Whether there are words of this width.
#[tactic(auto, unfolding(sums::specs::Calls::is_width))]
fn is_width(width: u32) -> bool
    ensures { result ≡ is_width width }
{
    width == 32 || width == 64
}

impl Numbers {
    // The gain (R.M)^N, exactly. Refused with 14 above 2^63 - 1, which comes before 15.
    #[tactic(auto, using(crate::proofs::Ways::first_refused, blocks::proofs::Refusals::refused_too), unfolding(sums::specs::Calls::gain_number_of))]
    pub fn gain(self) -> Result<u64, Refusal>
        ensures { result ≡ told_of (gain_number_of self.order self.delay self.rate self.countdown self.unsettled)
            (gain_of self.order self.delay self.rate) }
    {
        let settled = Numbers {
            unsettled: 0,
            ..self
        };
        settled.check()?;
        let gain = power(span(self.rate, self.delay as u32), self.order);
        if MOST < gain {
            return Err(Refusal::Gain);
        }
        self.check()?;
        Ok(gain)
    }

    // The right shift that undoes the gain: N times the bit length of R.M - 1.
    #[tactic(auto, using(blocks::proofs::Refusals::refused_too), unfolding(blocks::specs::Refusals::answer))]
    pub fn gain_log2(self) -> Result<u64, Refusal>
        ensures { result ≡ told_of (refusal_in self) (gain_log2_of self.order self.delay self.rate) }
    {
        self.check()?;
        Ok(shift(self.order, self.delay, self.rate))
    }

    // The steps at the high rate until an input's answer is over: N·(R.M - 1).
    #[tactic(auto, using(blocks::proofs::Refusals::refused_too), unfolding(blocks::specs::Refusals::answer, sums::specs::Calls::response_length_of))]
    pub fn response_length(self) -> Result<u64, Refusal>
        ensures { result ≡ told_of (refusal_in self) (response_length_of self.order self.delay self.rate) }
    {
        self.check()?;
        let r = span(self.rate, self.delay as u32);
        let steps = self.order as u64 * (r - 1);
        Ok(steps)
    }

    // The low-rate samples of a block of len at the high rate.
    #[tactic(auto, using(blocks::proofs::Refusals::refused_too), unfolding(blocks::specs::Refusals::answer))]
    pub fn low_rate_length(self, len: usize) -> Result<u64, Refusal>
        ensures { result ≡ told_of (refusal_in self) (needed len self.countdown self.rate) }
    {
        self.check()?;
        let count = low_rate(len, self.countdown, self.rate);
        Ok(count as u64)
    }

    // Whether the gain is at most 2^(width - b): then inputs of b signed bits make no output of so wide words wrap, and
    // otherwise some do. Refused with 17 for b outside 1..width, and for a width that isn't 32 or 64; no gain is too large
    // to ask.
    #[tactic(auto, using(crate::proofs::Ways::first_refused, crate::proofs::Ways::first_taken), unfolding(sums::specs::Calls::fit_number_of, blocks::specs::Refusals::answer, blocks::specs::Refusals::refusal_at))]
    pub fn fit(self, width: u32, b: u32) -> Result<bool, Refusal>
        ensures { result ≡ fitting_of (fit_number_of (refusal_in self) width b)
            (fits_of (gain_of self.order self.delay self.rate) width b) }
    {
        self.check()?;
        if b == 0 {
            return Err(Refusal::FitBits);
        }
        if width < b {
            return Err(Refusal::FitBits);
        }
        if !is_width(width) {
            return Err(Refusal::FitBits);
        }
        let gain = power(span(self.rate, self.delay as u32), self.order);
        Ok(gain <= power_of_two(width - b))
    }
}
