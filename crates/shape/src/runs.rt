// What a block answers, either way, and how many samples at the low rate it has.
ghost use Rattle.std.specs.Prelude.{◌≡◌, ◌+◌};
ghost use Rattle.blocks.specs.Refusals.{answer};
ghost use Rattle.sums.specs.Runs.{needed};
ghost use Rattle.sums.specs.Counted.{take_number_of, block_number_of};
ghost use Rattle.shape.specs.Answers.{refusal_in, written_of, read_of, fill_number_of};

use crate::numbers::Numbers;
use blocks::Refusal;

// What a decimator's block wrote: the count of its outputs, and what it tells of the first, the unsettled count that
// it found and its input's number, both 0 where there is none. Output i of the block counts as told that count less i,
// not below 0, and its number is typeof.i.R more. Told 0: no input from before the last set_rate, resume, clear or new is in it.
#[derive(Clone, Copy, Debug, PartialEq, Eq)]
pub struct Written {
    pub count: usize,
    pub told: usize,
    pub number: u64,
}

// The low-rate samples of a block of len at the high rate: 0 if len is at most the countdown, else 1 +
// floor((len - 1 - countdown) / R).
#[tactic(auto, unfolding(sums::specs::Runs::needed))]
pub fn low_rate(len: usize, countdown: u32, rate: u32) -> usize
    ensures { result ≡ needed len countdown rate }
{
    let c = countdown as usize;
    if len <= c {
        return 0;
    }
    let r = rate as usize + 1;
    let n = (len - 1 - c) / r;
    n + 1
}

impl Numbers {
    // What a block of `count` outputs answers, after so many inputs. The number is taken modulo 2^64, which no block that is
    // accepted passes.
    #[tactic(auto, unfolding(crate::specs::Answers::written_of))]
    pub fn written(self, count: usize, inputs: u64) -> Written
        ensures { result ≡ written_of count self.unsettled inputs self.countdown }
    {
        if count == 0 {
            return Written {
                count,
                told: 0,
                number: 0,
            };
        }
        let after = u64::from(self.countdown) + 1;
        Written {
            count,
            told: self.unsettled,
            number: inputs.wrapping_add(after),
        }
    }

    // The number of inputs taken after a decimator's block of len of them over a slice of `room` outputs, where `inputs` were
    // taken before. Refused with the state's own number, then with 16 where it passes 2^64 - 1, then with 20 where the slice
    // is too short.
    #[tactic(auto, using(crate::proofs::Ways::first_refused, crate::proofs::Ways::first_taken), unfolding(sums::specs::Counted::block_number_of, blocks::specs::Refusals::answer, blocks::specs::Refusals::refusal_at))]
    pub fn take_block(self, inputs: u64, len: usize, room: usize) -> Result<u64, Refusal>
        ensures { result ≡ answer (block_number_of (take_number_of (refusal_in self) inputs len)
            (needed len self.countdown self.rate) room) (inputs + len) }
    {
        let taken = self.take(inputs, len as u64)?;
        let need = low_rate(len, self.countdown, self.rate);
        if room < need {
            return Err(Refusal::ShortOutput);
        }
        Ok(taken)
    }

    // How many of len inputs an interpolator's block of `room` outputs reads. Refused with the state's own number, then with
    // 23 where there are fewer.
    #[tactic(auto, using(crate::proofs::Ways::first_refused, crate::proofs::Ways::first_taken), unfolding(blocks::specs::Refusals::answer, blocks::specs::Refusals::refusal_at))]
    pub fn read_block(self, len: usize, room: usize) -> Result<usize, Refusal>
        ensures { result ≡ read_of (fill_number_of (refusal_in self) (needed room self.countdown self.rate) len) (needed room self.countdown self.rate) }
    {
        self.check()?;
        let need = low_rate(room, self.countdown, self.rate);
        if len < need {
            return Err(Refusal::ShortInput);
        }
        Ok(need)
    }
}
