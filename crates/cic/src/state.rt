// The state of a decimator or interpolator, the calls that make one or put it in order, and its fields.
ghost use Rattle.std.specs.Prelude.{◌≡◌, eqb, replicate};
ghost use Rattle.blocks.specs.Refusals.{answer};
ghost use Rattle.sums.specs.State.{refusal, zeroed};
ghost use Rattle.sums.specs.Calls.{new_number, resume_number, rate_number};
ghost use Rattle.sums.specs.Counted.{blank_counted, new_counted, resume_counted, rate_counted, clear_counted};
ghost use Rattle.lent.specs.Reading.{counted};
ghost use Rattle.cic.specs.Reading.{state_of, counted_of, cic_of, numbers_of, shape_of};
ghost use Rattle.cic.specs.Answers.{Makes};

use crate::word::Word;
use blocks::Refusal;
use lent::state::LentCic;
use shape::numbers::Numbers;

// N = order integrators, N delay lines of M = delay cells, line j at 8 j .. 8 j + M of combs, the oldest cell
// first. Rate is R - 1. Outputs are unsettled while `unsettled` is above 0: cells from before the last set_rate or
// resume may be in them. `inputs` is the number of inputs taken. Cells beyond N and M never matter.
#[derive(Clone, Copy)]
pub struct Cic<W> {
    pub order: usize,
    pub delay: usize,
    pub rate: u32,
    pub countdown: u32,
    pub unsettled: usize,
    pub inputs: u64,
    pub hold: W,
    pub integrators: [W; 8],
    pub combs: [W; 64],
}

// Words that are all zero.
pub(crate) fn nils<W: Word, const N: usize>() -> [W; N]
    ensures { result ≡ replicate N W.ops.nil }
{
    [W::zero(); N]
}

impl<W: Word> Cic<W> {
    // What stands where no state was made: order 0, M 1, rate 0, and all else zero. It is accepted, and gives back its inputs.
    pub fn blank() -> Cic<W>
        ensures { result ≡ cic_of (blank_counted W.ops) }
    {
        Cic::zeros(0, 1, 0)
    }

    // A state of zeros, settled, whose first step gives an output and is input number 1. Outputs up to input
    // N·(R.M - 1) have zeros in them for what was before. Where it is refused, what stands for the state is `blank`.
    pub fn new(order: usize, delay: usize, rate: u32) -> Result<Cic<W>, Refusal>
        ensures { Makes W.ops (new_number order delay rate) (new_counted W.ops order delay rate) result }
    {
        let shape = Numbers {
            order,
            delay,
            rate,
            countdown: 0,
            unsettled: 0,
        };
        shape.check()?;
        Ok(Cic::zeros(order, delay, rate))
    }

    // A state with these numbers and all these cells, after so many inputs; its first N.M outputs are unsettled. Where it is
    // refused, what stands for the state is `blank`.
    pub fn resume(
        order: usize,
        delay: usize,
        rate: u32,
        integrators: [W; 8],
        combs: [W; 64],
        hold: W,
        countdown: u32,
        inputs: u64,
    ) -> Result<Cic<W>, Refusal>
        ensures { Makes W.ops (resume_number order delay rate countdown)
            (resume_counted W.ops order delay rate integrators combs hold countdown inputs) result }
    {
        let shape = Numbers {
            order,
            delay,
            rate,
            countdown,
            unsettled: 0,
        };
        shape.check()?;
        Ok(Cic {
            order,
            delay,
            rate,
            countdown,
            unsettled: order * delay,
            inputs,
            hold,
            integrators,
            combs,
        })
    }

    // Another rate: cells, hold, countdown and number of inputs stay, and the next N.M outputs are
    // unsettled, also at the same rate. To be called when a pulled plug is back in: the filter can't see it. What was
    // given since the pull is told 0 and false. A refused call changes nothing.
    pub fn set_rate(&mut self, rate: u32) -> Result<(), Refusal>
        ensures { (counted_of self.new ≡ rate_counted W.ops (counted_of self.old) rate)
            × (result ≡ answer (rate_number (state_of self.old) rate) tt) }
    {
        let either = Numbers {
            rate: self.rate.max(rate),
            ..self.shape()
        };
        either.check()?;
        self.rate = rate;
        self.unsettled = self.order * self.delay;
        Ok(())
    }

    // The state of zeros, settled, at the same order, delay and rate, as `new` gives it; its next input is number 1. A
    // refused call changes nothing.
    pub fn clear(&mut self) -> Result<(), Refusal>
        ensures { (counted_of self.new ≡ clear_counted W.ops (counted_of self.old))
            × (result ≡ answer (refusal (state_of self.old)) tt) }
    {
        self.check()?;
        *self = Cic::zeros(self.order, self.delay, self.rate);
        Ok(())
    }

    // N.
    pub fn order(self) -> usize
        ensures { result ≡ self.order }
    {
        self.order
    }

    // M.
    pub fn comb_delay(self) -> usize
        ensures { result ≡ self.delay }
    {
        self.delay
    }

    // R - 1.
    pub fn rate(self) -> u32
        ensures { result ≡ self.rate }
    {
        self.rate
    }

    // How many outputs from now on are unsettled.
    pub fn unsettled(self) -> usize
        ensures { result ≡ self.unsettled }
    {
        self.unsettled
    }

    // How many inputs it has taken: the next one's number is one more.
    pub fn inputs(self) -> u64
        ensures { result ≡ self.inputs }
    {
        self.inputs
    }

    // The decimator's last output.
    pub fn get_decimate(self) -> W
        ensures { result ≡ self.hold }
    {
        self.hold
    }

    // Whether the next step gives an output or takes a sample.
    pub fn tick(self) -> bool
        ensures { result ≡ eqb self.countdown 0 }
    {
        self.countdown == 0
    }

    // All cells, hold, countdown, unsettled count and number of inputs zero.
    pub(crate) fn zeros(order: usize, delay: usize, rate: u32) -> Cic<W>
        ensures { result ≡ cic_of (record { state = zeroed W.ops order delay rate; inputs = 0 }) }
    {
        Cic {
            order,
            delay,
            rate,
            countdown: 0,
            unsettled: 0,
            inputs: 0,
            hold: W::zero(),
            integrators: nils(),
            combs: nils(),
        }
    }

    // The numbers that every question and every call tests.
    pub(crate) fn shape(self) -> Numbers
        ensures { result ≡ shape_of self }
    {
        Numbers {
            order: self.order,
            delay: self.delay,
            rate: self.rate,
            countdown: self.countdown,
            unsettled: self.unsettled,
        }
    }

    // All but the arrays.
    pub(crate) fn numbers(self) -> LentCic<W>
        ensures { result ≡ numbers_of self }
    {
        LentCic {
            order: self.order,
            delay: self.delay,
            rate: self.rate,
            countdown: self.countdown,
            unsettled: self.unsettled,
            inputs: self.inputs,
            hold: self.hold,
        }
    }

    // These numbers over the arrays as they are.
    pub(crate) fn set_numbers(&mut self, n: LentCic<W>)
        ensures { self.new ≡ cic_of (counted n self.old.integrators self.old.combs) }
    {
        self.order = n.order;
        self.delay = n.delay;
        self.rate = n.rate;
        self.countdown = n.countdown;
        self.unsettled = n.unsettled;
        self.inputs = n.inputs;
        self.hold = n.hold;
    }
}
