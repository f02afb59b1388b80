// A state's numbers; its arrays are lent beside them.
ghost use Rattle.std.specs.Prelude.{◌≡◌};
ghost use Rattle.blocks.specs.Refusals.{answer};
ghost use Rattle.sums.specs.State.{refusal_of};
ghost use Rattle.lent.specs.Inner.Apart.{numbers_in};

use crate::word::Word;
use blocks::Refusal;
use shape::numbers::Numbers;

// N = order, M = delay, rate R - 1, countdown, the unsettled count, the number of inputs taken, and the hold. Beside them stand 8 integrators and
// 64 comb cells: line j at 8 j .. 8 j + M, the oldest cell first. Cells beyond N and M never matter.
#[derive(Clone, Copy, Debug, PartialEq, Eq)]
pub struct LentCic<W> {
    pub order: usize,
    pub delay: usize,
    pub rate: u32,
    pub countdown: u32,
    pub unsettled: usize,
    pub inputs: u64,
    pub hold: W,
}

impl<W: Word> LentCic<W> {
    // Refused with the number of the first test that these numbers fail, 10 to 13 or 15.
    pub fn check(self) -> Result<(), Refusal>
        ensures { result ≡ answer (refusal_of self.order self.delay self.rate self.countdown self.unsettled) tt }
    {
        self.numbers().check()
    }

    // All but the number of inputs and the hold.
    pub(crate) fn numbers(self) -> Numbers
        ensures { result ≡ numbers_in self }
    {
        Numbers {
            order: self.order,
            delay: self.delay,
            rate: self.rate,
            countdown: self.countdown,
            unsettled: self.unsettled,
        }
    }
}
