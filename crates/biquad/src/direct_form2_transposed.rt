// Direct form 2 transposed: the state keeps two cells, what earlier samples give to the next output and to the one
// after it.
ghost use Rattle.std.specs.Prelude.{◌≡◌};
ghost use Rattle.blocks.specs.Blocks.{Blocked};
ghost use Rattle.biquad.specs.Forms.{zero2, sum2, after2, next2, stepped2, held2, onward2};
ghost use Rattle.biquad.specs.Answers.{limit_number, clamped2};

use crate::biquad::Biquad;
use crate::biquad_clamp::BiquadClamp;
use crate::form::{Form, block, step};
use blocks::Refusal;

#[derive(Clone, Copy)]
pub struct DirectForm2Transposed {
    pub s1: f64,
    pub s2: f64,
}

impl Default for DirectForm2Transposed {
    ghost is_default = { λ s. s ≡ zero2 };

    // The state before any input: zeros.
    fn default() -> DirectForm2Transposed {
        DirectForm2Transposed { s1: 0.0, s2: 0.0 }
    }
}

impl DirectForm2Transposed {
    // The crate's `x0`, "latest input": the first cell, since this form keeps no input.
    pub fn x0(self) -> f64
        ensures { result ≡ self.s1 }
    {
        self.s1
    }

    // The crate's `y0`, "current output": the first cell, since this form keeps no output.
    pub fn y0(self) -> f64
        ensures { result ≡ self.s1 }
    {
        self.s1
    }

    // The crate's `set_y`: nothing changes, since this form keeps no output.
    pub fn set_y(&mut self, _y: f64)
        ensures { self.new ≡ self.old }
    {}

    // One step on the input x: the output, and the cells after it.
    pub fn process(&mut self, c: Biquad, x: f64) -> f64
        ensures answers { result ≡ (stepped2 c self.old x).y }
        ensures leaves { self.new ≡ (stepped2 c self.old x).state }
    {
        self.turn(c, x)
    }

    // One step with offset and limits: the limited output goes into the cells. 41 for wrong limits: the cells stay.
    pub fn process_clamp(&mut self, c: BiquadClamp, x: f64) -> Result<f64, Refusal>
        ensures answers { result ≡ (clamped2 c self.old x).out }
        ensures leaves { self.new ≡ (clamped2 c self.old x).state }
    {
        step(self, c, x)
    }

    // Steps on the inputs in turn; writes the outputs. 31 where the slices differ in length: nothing is written.
    pub fn block(&mut self, c: Biquad, xs: &[f64], ys: &mut [f64]) -> Result<(), Refusal>
        ensures { Blocked 0 (sum2 c) (next2 c) self.old xs.now ys.old self.new result ys.new }
    {
        block(self, c, xs, ys)
    }

    // Steps with offset and limits on the inputs in turn; writes the outputs.
    // 31 where the slices differ in length, 41 for wrong limits: the state stays and nothing is written.
    pub fn block_clamp(&mut self, c: BiquadClamp, xs: &[f64], ys: &mut [f64]) -> Result<(), Refusal>
        ensures { Blocked (limit_number c) (held2 c) (onward2 c) self.old xs.now ys.old self.new result ys.new }
    {
        block(self, c, xs, ys)
    }

    // The sum on the input x.
    #[tactic(auto, unfolding(crate::specs::Forms::sum2))]
    fn sum(self, c: Biquad, x: f64) -> f64
        ensures { result ≡ sum2 c self x }
    {
        self.s1 + c.b0 * x
    }

    // The cells after the input x gave the output y.
    #[tactic(auto, unfolding(crate::specs::Forms::after2))]
    fn feed(&mut self, c: Biquad, x: f64, y: f64)
        ensures { self.new ≡ after2 c self.old x y }
    {
        *self = DirectForm2Transposed {
            s1: self.s2 + c.b1 * x + c.a1 * y,
            s2: c.b2 * x + c.a2 * y,
        };
    }
}

impl Form<Biquad> for DirectForm2Transposed {
    ghost gives = { sum2 };

    ghost after = { next2 };

    fn turn(&mut self, c: Biquad, x: f64) -> f64 {
        let y = self.sum(c, x);
        self.feed(c, x, y);
        y
    }
}

impl Form<BiquadClamp> for DirectForm2Transposed {
    ghost gives = { held2 };

    ghost after = { onward2 };

    fn turn(&mut self, c: BiquadClamp, x: f64) -> f64 {
        let ba = c.coeff();
        let y = c.limited(self.sum(ba, x));
        self.feed(ba, x, y);
        y
    }
}
