// A state's numbers, the tests that they take, and the small steps of a state.
ghost use Rattle.std.specs.Prelude.{◌≡◌, suc, ◌+◌, ◌*◌};
ghost use Rattle.blocks.specs.Refusals.{answer};
ghost use Rattle.sums.specs.Counted.{take_number_of};
ghost use Rattle.shape.specs.Answers.{refusal_in, next_place};

use blocks::Refusal;

// What a state has beside its words: N = order, M = delay, rate R - 1, countdown and the unsettled count.
#[derive(Clone, Copy, Debug, PartialEq, Eq)]
pub struct Numbers {
    pub order: usize,
    pub delay: usize,
    pub rate: u32,
    pub countdown: u32,
    pub unsettled: usize,
}

impl Numbers {
    // Refused with the number of the first test that fails, 10 to 13 or 15.
    #[tactic(auto, unfolding(sums::specs::State::refusal_of, blocks::specs::Refusals::answer, blocks::specs::Refusals::refusal_at))]
    pub fn check(self) -> Result<(), Refusal>
        ensures { result ≡ answer (refusal_in self) tt }
    {
        if 8 < self.order {
            return Err(Refusal::Order);
        }
        if self.delay == 0 || 8 < self.delay {
            return Err(Refusal::Delay);
        }
        if 65535 < self.rate {
            return Err(Refusal::Rate);
        }
        if 65535 < self.countdown {
            return Err(Refusal::Countdown);
        }
        if self.order * self.delay < self.unsettled {
            return Err(Refusal::Unsettled);
        }
        Ok(())
    }

    // The number of inputs taken after `more` of them, where `inputs` were taken before. Refused with the state's own number,
    // then with 16 where it passes 2^64 - 1.
    #[tactic(auto, using(crate::proofs::Ways::first_refused, crate::proofs::Ways::first_taken), unfolding(sums::specs::Counted::take_number_of, blocks::specs::Refusals::answer, blocks::specs::Refusals::refusal_at))]
    pub fn take(self, inputs: u64, more: u64) -> Result<u64, Refusal>
        ensures { result ≡ answer (take_number_of (refusal_in self) inputs more) (inputs + more) }
    {
        self.check()?;
        match inputs.checked_add(more) {
            Some(taken) => Ok(taken),
            None => Err(Refusal::Inputs),
        }
    }
}

// R.M.
pub fn span(rate: u32, delay: u32) -> u64
    ensures { result ≡ suc rate * delay }
{
    (u64::from(rate) + 1) * u64::from(delay)
}

// The place after `at` in a ring of m cells: the first after the last.
#[tactic(auto, unfolding(crate::specs::Answers::next_place))]
pub fn following(at: usize, m: usize) -> usize
    ensures { result ≡ next_place at m }
{
    let next = at.wrapping_add(1);
    if next < m {
        return next;
    }
    0
}
