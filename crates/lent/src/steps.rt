// The decimator's and the interpolator's step.
ghost use Rattle.std.specs.Prelude.{◌≡◌, ◌<◌, ◌∷◌, []};
ghost use Rattle.sums.specs.Calls.{rise_given};
ghost use Rattle.sums.specs.Runs.{due_sample};
ghost use Rattle.sums.specs.Counted.{take_state, rise_counted};
ghost use Rattle.sums.proofs.Lent.{Ready};
ghost use Rattle.lent.specs.Reading.{counted};
ghost use Rattle.lent.specs.Answers.{step_out, rise_out, sample_of};

use crate::cascade::{difference, integrate};
use crate::state::LentCic;
use crate::word::Word;
use blocks::Refusal;

// An output of the decimator, and what it tells: the unsettled count that the step found, and its input's number, from
// 1. Told 0: settled; 3: this one and the two after it are not, where no set_rate, resume or clear comes between.
// Settled says that no input from before the last set_rate, resume, clear or new is in the value, and no more: whether
// the inputs since were good ones it can't say. What came while a plug was out is told 0 as well; the caller discards
// it by its inputs' numbers.
#[derive(Clone, Copy, Debug, PartialEq, Eq)]
pub struct Output<W> {
    pub value: W,
    pub told: usize,
    pub number: u64,
}

impl<W: Word> LentCic<W> {
    // One input in: every R-th step gives an output, held too, that tells the unsettled count found and its input's
    // number, and lowers a count above 0 by 1. Refused with 16 where 2^64 - 1 inputs were taken. A refused step changes
    // nothing, and one that gives nothing leaves the combs.
    pub fn decimate(
        &mut self,
        integrators: &mut [W; 8],
        combs: &mut [W; 64],
        x: W,
    ) -> Result<Option<Output<W>>, Refusal>
        ensures { (counted self.new integrators.new combs.new
            ≡ take_state W.ops (counted self.old integrators.old combs.old) x)
            × (result ≡ step_out W.ops (counted self.old integrators.old combs.old) x) }
    {
        let inputs = self.numbers().take(self.inputs, 1)?;
        let sum = integrate(integrators, self.order, x);
        self.inputs = inputs;
        if 0 < self.countdown {
            self.countdown -= 1;
            return Ok(None);
        }
        let value = difference(combs, self.order, self.delay, sum);
        let told = self.unsettled;
        self.countdown = self.rate;
        self.unsettled = told.saturating_sub(1);
        self.hold = value;
        Ok(Some(Output {
            value,
            told,
            number: inputs,
        }))
    }

    // One output out: a sample is due exactly at countdown 0, and is then held for R steps. Refused with 21
    // where one is given and none is due, and with 22 where none is given and one is due. A refused step
    // changes nothing.
    pub fn interpolate(
        &mut self,
        integrators: &mut [W; 8],
        combs: &mut [W; 64],
        sample: Option<W>,
    ) -> Result<W, Refusal>
        ensures { (counted self.new integrators.new combs.new
            ≡ rise_counted W.ops (counted self.old integrators.old combs.old) (sample_of sample))
            × (result ≡ rise_out W.ops (counted self.old integrators.old combs.old) (sample_of sample)) }
    {
        self.check()?;
        let Some(x) = sample else {
            if self.countdown == 0 {
                return Err(Refusal::SampleDue);
            }
            return Ok(self.held(integrators, combs));
        };
        if 0 < self.countdown {
            return Err(Refusal::SampleNotDue);
        }
        Ok(self.taken(integrators, combs, x))
    }

    // The interpolator's step of an accepted state, above countdown 0. It and the one below are each called from one place alone, so that the
    // compiler puts them in there.
    fn held(&mut self, integrators: &mut [W; 8], combs: &mut [W; 64]) -> W
        requires { Ready (counted self.old integrators.old combs.old).state × (0 < self.old.countdown) }
        ensures { (counted self.new integrators.new combs.new ≡ rise_counted W.ops (counted self.old integrators.old combs.old)
            (due_sample W.ops self.old.countdown (W.ops.nil ∷ [])))
            × (result ≡ rise_given W.ops (counted self.old integrators.old combs.old).state
            (due_sample W.ops self.old.countdown (W.ops.nil ∷ []))) }
    {
        self.countdown -= 1;
        integrate(integrators, self.order, self.hold)
    }

    // The same at countdown 0, with the sample that is due.
    fn taken(&mut self, integrators: &mut [W; 8], combs: &mut [W; 64], x: W) -> W
        requires { Ready (counted self.old integrators.old combs.old).state × (self.old.countdown ≡ 0) }
        ensures { (counted self.new integrators.new combs.new ≡ rise_counted W.ops (counted self.old integrators.old combs.old)
            (due_sample W.ops self.old.countdown (x ∷ [])))
            × (result ≡ rise_given W.ops (counted self.old integrators.old combs.old).state
            (due_sample W.ops self.old.countdown (x ∷ []))) }
    {
        self.hold = difference(combs, self.order, self.delay, x);
        self.countdown = self.rate;
        integrate(integrators, self.order, self.hold)
    }
}
