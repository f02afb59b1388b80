// The overflow unwrapper: a phase of 32 bits followed over its turns, as a number of 64 bits.
ghost use Rattle.std.specs.Prelude.{◌≡◌};
ghost use Rattle.blocks.specs.Blocks.{Blocked};
ghost use Rattle.unwrap.specs.Phases.{step_of, grown, turns_of, phase_of};

use blocks::{Filter, Refusal};
use words::casts::i64_as_i32;

#[derive(Clone, Copy, Debug, PartialEq, Eq)]
pub struct Unwrapper {
    // The current output.
    pub y: i64,
}

impl Filter for Unwrapper {
    type Input = i32;

    type Output = i32;

    ghost gives = { step_of };

    ghost after = { grown };

    // Feeds the sample x: gives the wrapped difference to the last one, and grows by it.
    #[tactic(auto, using(words::proofs::Std::signed))]
    fn process(&mut self, x: i32) -> i32 {
        let dx = x.wrapping_sub(self.phase());
        self.y = self.y.wrapping_add(i64::from(dx));
        dx
    }
}

impl Unwrapper {
    // The current number of turns, modulo 2^32.
    #[tactic(auto, using(words::proofs::Std::signed, crate::proofs::Counting::one_more_law, crate::proofs::Counting::as_it_is))]
    pub fn wraps(self) -> i32
        ensures { result ≡ turns_of self.y }
    {
        let high = (self.y >> 32) as i32;
        if self.phase() < 0 {
            return high.wrapping_add(1);
        }
        high
    }

    // The current phase: the low word, read as signed.
    pub fn phase(self) -> i32
        ensures { result ≡ phase_of self.y }
    {
        i64_as_i32(self.y)
    }

    // Feeds the samples in turn and writes their differences. Lengths where the slices differ in length: nothing changes.
    pub fn block(&mut self, xs: &[i32], dxs: &mut [i32]) -> Result<(), Refusal>
        ensures { Blocked 0 step_of grown self.old xs.now dxs.old self.new result dxs.new }
    {
        blocks::block(self, xs, dxs)
    }
}
