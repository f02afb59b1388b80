// Questions about a state. Each tests the state first; a refused one gives its refusal alone.
ghost use Rattle.std.specs.Prelude.{◌≡◌, ◌-◌, ◌≤◌, get_or};
ghost use Rattle.blocks.specs.Refusals.{answer};
ghost use Rattle.sums.specs.State.{refusal};
ghost use Rattle.sums.specs.Calls.{gain_number, fit_number, gain, gain_log2, response_length, fits, current_at};
ghost use Rattle.sums.specs.Runs.{needed};
ghost use Rattle.shape.specs.Answers.{told_of, fitting_of};
ghost use Rattle.lent.specs.Answers.{interpolated_of};
ghost use Rattle.cic.specs.Reading.{state_of};

use crate::state::Cic;
use crate::word::Word;
use blocks::Refusal;

// The last of n integrators.
fn last<W: Word>(integrators: &[W; 8], n: usize) -> W
    requires { (1 ≤ n) × (n ≤ 8) }
    ensures { result ≡ get_or integrators.now (n - 1) W.ops.nil }
{
    integrators[n - 1]
}

impl<W: Word> Cic<W> {
    // Refused with the number of the first test that this state fails, 10 to 13 or 15.
    pub fn check(self) -> Result<(), Refusal>
        ensures { result ≡ answer (refusal (state_of self)) tt }
    {
        self.shape().check()
    }

    // The last integrator, or the hold where N is 0.
    pub fn get_interpolate(self) -> Result<W, Refusal>
        ensures { result ≡ interpolated_of (refusal (state_of self)) (current_at W.ops (state_of self) self.order) }
    {
        self.check()?;
        if self.order == 0 {
            return Ok(self.hold);
        }
        // The integrators alone are copied: an index into the state would hold it whole in memory.
        let integrators = self.integrators;
        Ok(last(&integrators, self.order))
    }

    // The gain (R.M)^N, exactly. Refused with 14 above 2^63 - 1.
    pub fn gain(self) -> Result<u64, Refusal>
        ensures { result ≡ told_of (gain_number (state_of self)) (gain (state_of self)) }
    {
        self.shape().gain()
    }

    // The right shift that undoes the gain: N times the bit length of R.M - 1.
    pub fn gain_log2(self) -> Result<u64, Refusal>
        ensures { result ≡ told_of (refusal (state_of self)) (gain_log2 (state_of self)) }
    {
        self.shape().gain_log2()
    }

    // The steps at the high rate until an input's answer is over: N·(R.M - 1).
    pub fn response_length(self) -> Result<u64, Refusal>
        ensures { result ≡ told_of (refusal (state_of self)) (response_length (state_of self)) }
    {
        self.shape().response_length()
    }

    // The low-rate samples of a block of len at the high rate from this state: the outputs that decimate_block
    // writes of len inputs, and the inputs that interpolate_block reads for len outputs.
    pub fn low_rate_length(self, len: usize) -> Result<u64, Refusal>
        ensures { result ≡ told_of (refusal (state_of self)) (needed len self.countdown self.rate) }
    {
        self.shape().low_rate_length(len)
    }

    // Whether the gain is at most 2^(width - b): then inputs of b signed bits make no output of so wide words wrap, and
    // otherwise some do. The width, 32 or 64, need not be the word's own. Refused with 17 for b outside 1..width and for
    // another width; no gain is too large to ask.
    pub fn fit(self, width: u32, b: u32) -> Result<bool, Refusal>
        ensures { result ≡ fitting_of (fit_number (state_of self) width b) (fits (state_of self) width b) }
    {
        self.shape().fit(width, b)
    }
}
