// The decimator's and the interpolator's step.
ghost use Rattle.std.specs.Prelude.{◌≡◌};
ghost use Rattle.sums.specs.Counted.{take_state, rise_counted};
ghost use Rattle.lent.specs.Answers.{step_out, rise_out, sample_of};
ghost use Rattle.cic.specs.Reading.{counted_of};

use crate::state::Cic;
use crate::word::Word;
use blocks::Refusal;
pub use lent::steps::Output;

impl<W: Word> Cic<W> {
    // One input in: every R-th step gives an output, held too, that tells the unsettled count found and its input's
    // number, and lowers a count above 0 by 1. Refused with 16 where 2^64 - 1 inputs were taken. A refused step changes
    // nothing.
    pub fn decimate(&mut self, x: W) -> Result<Option<Output<W>>, Refusal>
        ensures { (counted_of self.new ≡ take_state W.ops (counted_of self.old) x)
            × (result ≡ step_out W.ops (counted_of self.old) x) }
    {
        let mut numbers = self.numbers();
        let out = numbers.decimate(&mut self.integrators, &mut self.combs, x);
        self.set_numbers(numbers);
        out
    }

    // One output out: a sample is due exactly at countdown 0, and is then held for R steps. Refused with 21
    // where one is given and none is due, and with 22 where none is given and one is due. A refused step
    // changes nothing.
    pub fn interpolate(&mut self, sample: Option<W>) -> Result<W, Refusal>
        ensures { (counted_of self.new ≡ rise_counted W.ops (counted_of self.old) (sample_of sample))
            × (result ≡ rise_out W.ops (counted_of self.old) (sample_of sample)) }
    {
        let mut numbers = self.numbers();
        let out = numbers.interpolate(&mut self.integrators, &mut self.combs, sample);
        self.set_numbers(numbers);
        out
    }
}
