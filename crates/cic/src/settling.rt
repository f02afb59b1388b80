// The state in which an interpolator has been fed one sample for ever.
ghost use Rattle.std.specs.Prelude.{◌≡◌, ◌++◌, ◌-◌, ◌^◌, ◌≤◌, replicate};
ghost use Rattle.blocks.specs.Refusals.{answer};
ghost use Rattle.sums.specs.Ops.{times};
ghost use Rattle.sums.specs.State.{refusal};
ghost use Rattle.sums.specs.Counted.{settle_counted};
ghost use Rattle.cic.specs.Reading.{state_of, counted_of};

use crate::state::{Cic, nils};
use crate::word::Word;
use blocks::Refusal;
use shape::numbers::span;

// x times by^n, as a sum of words.
fn scaled<W: Word>(x: W, by: u32, n: usize) -> W
    requires { 1 ≤ n }
    ensures { result ≡ times W.ops (by ^ n) x }
{
    let mut r = x.times(by);
    for _turn in 1..n {
        r = r.times(by);
    }
    r
}

// The first m cells x, the others 0.
fn level<W: Word>(m: usize, x: W) -> [W; 64]
    requires { m ≤ 64 }
    ensures { result ≡ replicate m x ++ replicate (64 - m) W.ops.nil }
{
    let mut cells: [W; 64] = nils();
    for i in 0..m {
        cells[i] = x;
    }
    cells
}

impl<W: Word> Cic<W> {
    // The state of zeros but for the first delay line, all x, and the last integrator, x times the gain
    // modulo the word; where N is 0, but for the hold, x. A refused call changes nothing.
    pub fn settle_interpolate(&mut self, x: W) -> Result<(), Refusal>
        ensures { (counted_of self.new ≡ settle_counted W.ops (counted_of self.old) x)
            × (result ≡ answer (refusal (state_of self.old)) tt) }
    {
        self.check()?;
        let order = self.order;
        let delay = self.delay;
        let rate = self.rate;
        *self = Cic::zeros(order, delay, rate);
        if order == 0 {
            self.hold = x;
            return Ok(());
        }
        let factor = span(rate, delay as u32) as u32;
        self.integrators[order - 1] = scaled(x, factor, order);
        self.combs = level(delay, x);
        Ok(())
    }
}
