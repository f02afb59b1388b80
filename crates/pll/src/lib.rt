// The phase-locked loop: it follows the phase and frequency of its input and settles to their complement.
// Port of the crate's pll.rs, without the coefficients from floats. Callers cite specs/Loops.

#![tactic(auto)]

ghost use Rattle.std.specs.Prelude.{◌≡◌};
ghost use Rattle.std.specs.Int.{w64};
ghost use Rattle.words.specs.Words.{wrap};
ghost use Rattle.blocks.specs.Blocks.{Blocked};
ghost use Rattle.pll.specs.Loops.{frequency_of, ahead_of, predicted_of, lag_product, lead_lag};
ghost use Rattle.pll.specs.Loops.{tracked_phase, tracked_next};

use blocks::{Filter, Refusal};
use unwrap::clamp_wrap::ClampWrap;
use words::casts::i64_as_u32;
use words::signed::product;

// The lead lag's coefficients, as bits with 32 of them after the point: f0 grows by b0 y0 + b1 y1 + a1 f1.
#[derive(Clone, Copy, Debug, PartialEq, Eq)]
pub struct PLL {
    pub b0: i32,
    pub b1: i32,
    pub a1: i32,
}

#[derive(Clone, Copy, Debug, PartialEq, Eq)]
pub struct PLLState {
    // The clamp of the phase error.
    pub clamp: ClampWrap,
    // The loop filter: after the clamp, after the Nyquist zero, after the lead lag, after the DC pole.
    pub z0: i32,
    pub y0: i32,
    pub f0: i64,
    pub f: i64,
    // The output phase.
    pub y: i32,
}

impl PLLState {
    // Advances the phase by an update period at the current frequency, and gives it; all else stays. For an update
    // without an input.
    #[tactic(auto, using(words::proofs::Std::signed))]
    pub fn predict(&mut self) -> i32
        ensures { (result ≡ ahead_of self.old) × (self.new ≡ predicted_of self.old) }
    {
        self.y = self.y.wrapping_add(self.frequency());
        self.y
    }

    // The current phase.
    pub fn phase(self) -> i32
        ensures { result ≡ self.y }
    {
        self.y
    }

    // The current frequency.
    pub fn frequency(self) -> i32
        ensures { result ≡ frequency_of self }
    {
        (self.f >> 32) as i32
    }
}

// a1 times the wide state f0, over 2^32: by the high and the low word of f0.
#[tactic(auto, using(crate::proofs::Sums::low_fits))]
fn scaled(a1: i32, f0: i64) -> i64
    ensures { result ≡ wrap w64 (lag_product a1 f0) }
{
    let low = (i64::from(a1) * i64::from(i64_as_u32(f0))) >> 32;
    product(a1, (f0 >> 32) as i32).wrapping_add(low)
}

impl PLL {
    // The wide state f0 after the lead lag, from the last two values y0 and y1 after the Nyquist zero.
    #[tactic(auto, using(words::proofs::Std::signed, crate::proofs::Sums::lead))]
    fn lead_lag(self, f0: i64, y0: i32, y1: i32) -> i64
        ensures { result ≡ lead_lag self f0 y0 y1 }
    {
        let zero = product(self.b0, y0).wrapping_add(product(self.b1, y1));
        f0.wrapping_add(zero.wrapping_add(scaled(self.a1, f0)))
    }

    // Advances the phase and corrects the frequency by the phase error of the input x. Gives the phase.
    pub fn process(self, state: &mut PLLState, x: i32) -> i32
        ensures { (result ≡ tracked_phase self state.old x) × (state.new ≡ tracked_next self state.old x) }
    {
        let y = state.predict();
        let z0 = state.clamp.process(x.wrapping_add(y)) >> 1;
        let y0 = z0.wrapping_add(state.z0);
        let f0 = self.lead_lag(state.f0, y0, state.y0);
        state.z0 = z0;
        state.y0 = y0;
        state.f0 = f0;
        state.f = state.f.wrapping_add(f0);
        y
    }

    // Takes the inputs in turn and writes the phases. Lengths where the slices differ in length: nothing changes.
    pub fn block(self, state: &mut PLLState, xs: &[i32], ys: &mut [i32]) -> Result<(), Refusal>
        ensures { Blocked 0 (tracked_phase self) (tracked_next self) state.old xs.now ys.old state.new result ys.new }
    {
        let mut tracking = Tracking {
            pll: self,
            state: *state,
        };
        let answer = blocks::block(&mut tracking, xs, ys);
        *state = tracking.state;
        answer
    }
}

// A loop at work: its coefficients beside its state.
#[derive(Clone, Copy)]
struct Tracking {
    pll: PLL,
    state: PLLState,
}

impl Filter for Tracking {
    type Input = i32;

    type Output = i32;

    ghost gives = { λ t x. tracked_phase t.pll t.state x };

    ghost after = { λ t x. record t { state = tracked_next t.pll t.state x } };

    fn process(&mut self, x: i32) -> i32 {
        self.pll.process(&mut self.state, x)
    }
}
