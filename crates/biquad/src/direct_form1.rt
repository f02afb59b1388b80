// Direct form 1: the state keeps the last two inputs and the last two outputs.
ghost use Rattle.std.specs.Prelude.{◌≡◌};
ghost use Rattle.blocks.specs.Blocks.{Blocked};
ghost use Rattle.biquad.specs.Forms.{zero1, with_y1, sum1, next1, stepped1, held1, onward1};
ghost use Rattle.biquad.specs.Answers.{limit_number, clamped1};

use crate::biquad::Biquad;
use crate::biquad_clamp::BiquadClamp;
use crate::form::{Form, block, step};
use blocks::Refusal;

// x1 and y1 are the latest, x2 and y2 those before.
#[derive(Clone, Copy)]
pub struct DirectForm1 {
    pub x1: f64,
    pub x2: f64,
    pub y1: f64,
    pub y2: f64,
}

impl Default for DirectForm1 {
    ghost is_default = { λ s. s ≡ zero1 };

    // The state before any input: zeros.
    fn default() -> DirectForm1 {
        DirectForm1 {
            x1: 0.0,
            x2: 0.0,
            y1: 0.0,
            y2: 0.0,
        }
    }
}

impl DirectForm1 {
    // The latest input.
    pub fn x0(self) -> f64
        ensures { result ≡ self.x1 }
    {
        self.x1
    }

    // The current output.
    pub fn y0(self) -> f64
        ensures { result ≡ self.y1 }
    {
        self.y1
    }

    // The current and the last output set to y; the inputs stay.
    pub fn set_y(&mut self, y: f64)
        ensures { self.new ≡ with_y1 self.old y }
    {
        *self = DirectForm1 {
            y1: y,
            y2: y,
            ..*self
        };
    }

    // One step on the input x: the output, and the state that has both.
    pub fn process(&mut self, c: Biquad, x: f64) -> f64
        ensures answers { result ≡ (stepped1 c self.old x).y }
        ensures leaves { self.new ≡ (stepped1 c self.old x).state }
    {
        self.turn(c, x)
    }

    // One step with offset and limits: the limited output goes into the state. 41 for wrong limits: the state stays.
    pub fn process_clamp(&mut self, c: BiquadClamp, x: f64) -> Result<f64, Refusal>
        ensures answers { result ≡ (clamped1 c self.old x).out }
        ensures leaves { self.new ≡ (clamped1 c self.old x).state }
    {
        step(self, c, x)
    }

    // Steps on the inputs in turn; writes the outputs. 31 where the slices differ in length: nothing is written.
    pub fn block(&mut self, c: Biquad, xs: &[f64], ys: &mut [f64]) -> Result<(), Refusal>
        ensures { Blocked 0 (sum1 c) (next1 c) self.old xs.now ys.old self.new result ys.new }
    {
        block(self, c, xs, ys)
    }

    // Steps with offset and limits on the inputs in turn; writes the outputs.
    // 31 where the slices differ in length, 41 for wrong limits: the state stays and nothing is written.
    pub fn block_clamp(&mut self, c: BiquadClamp, xs: &[f64], ys: &mut [f64]) -> Result<(), Refusal>
        ensures { Blocked (limit_number c) (held1 c) (onward1 c) self.old xs.now ys.old self.new result ys.new }
    {
        block(self, c, xs, ys)
    }
}

impl Form<Biquad> for DirectForm1 {
    ghost gives = { sum1 };

    ghost after = { next1 };

    fn turn(&mut self, c: Biquad, x: f64) -> f64 {
        let y = c.b0 * x + c.b1 * self.x1 + c.b2 * self.x2 + c.a1 * self.y1 + c.a2 * self.y2;
        *self = DirectForm1 {
            x1: x,
            x2: self.x1,
            y1: y,
            y2: self.y1,
        };
        y
    }
}

impl Form<BiquadClamp> for DirectForm1 {
    ghost gives = { held1 };

    ghost after = { onward1 };

    fn turn(&mut self, c: BiquadClamp, x: f64) -> f64 {
        let free = self.process(c.coeff(), x);
        let y = c.limited(free);
        self.y1 = y;
        y
    }
}
