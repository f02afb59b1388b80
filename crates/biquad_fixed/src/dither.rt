// Direct form 1 with error feedback: the bits below an output join the next sum.
ghost use Rattle.std.specs.Prelude.{◌≡◌};
ghost use Rattle.blocks.specs.Blocks.{Blocked};
ghost use Rattle.biquad_fixed.specs.Forms.{dither_sum, dither_out, dither_next, dither_held, dither_onward};
ghost use Rattle.biquad_fixed.specs.Answers.{fraction_number, clamp_number, dither_of, dither_clamp_of};

use crate::coefficients::{Biquad, BiquadClamp};
use crate::form::{Form, block, step};
use blocks::Refusal;
use words::casts::{i64_as_u32, i64_high};
use words::signed::product;

// x1 and y1 are the latest, x2 and y2 those before; e is the error that is fed back.
#[derive(Clone, Copy)]
pub struct DirectForm1Dither {
    pub x1: i32,
    pub x2: i32,
    pub y1: i32,
    pub y2: i32,
    pub e: u32,
}

impl DirectForm1Dither {
    // Takes the input x0: the output, and the state that has both and the error. 40 where f is outside 1..31: the
    // state stays.
    pub fn process(&mut self, c: Biquad, x0: i32) -> Result<i32, Refusal>
        ensures answers { result ≡ (dither_of c self.old x0).out }
        ensures leaves { self.new ≡ (dither_of c self.old x0).state }
    {
        step(self, c, x0)
    }

    // The same with offset and limits; the limited output goes into the state, the error stays. 40, 41: the state
    // stays.
    pub fn process_clamp(&mut self, c: BiquadClamp, x0: i32) -> Result<i32, Refusal>
        ensures answers { result ≡ (dither_clamp_of c self.old x0).out }
        ensures leaves { self.new ≡ (dither_clamp_of c self.old x0).state }
    {
        step(self, c, x0)
    }

    // Takes the inputs in turn and writes their outputs. 31 where the slices differ in length, else 40: the state
    // stays, and nothing is written.
    pub fn block(&mut self, c: Biquad, xs: &[i32], ys: &mut [i32]) -> Result<(), Refusal>
        ensures { Blocked (fraction_number 1 c) (dither_out c) (dither_next c) self.old xs.now ys.old
            self.new result ys.new }
    {
        block(self, c, xs, ys)
    }

    // The same with offset and limits. 31, 40, 41: the state stays, and nothing is written.
    pub fn block_clamp(&mut self, c: BiquadClamp, xs: &[i32], ys: &mut [i32]) -> Result<(), Refusal>
        ensures { Blocked (clamp_number 1 c) (dither_held c) (dither_onward c) self.old xs.now ys.old
            self.new result ys.new }
    {
        block(self, c, xs, ys)
    }

    // The wrapped sum.
    fn sum(self, c: Biquad, x0: i32) -> i64
        ensures { result ≡ dither_sum c self x0 }
    {
        let inputs = c.inputs(x0, self.x1, self.x2);
        let outputs = product(c.a1, self.y1).wrapping_add(product(c.a2, self.y2));
        i64::from(self.e).wrapping_add(inputs.wrapping_add(outputs))
    }
}

impl Form<Biquad> for DirectForm1Dither {
    ghost number = { fraction_number 1 };

    ghost gives = { dither_out };

    ghost after = { dither_next };

    fn accepts(c: Biquad) -> Result<(), Refusal> {
        c.fraction(1)
    }

    fn turn(&mut self, c: Biquad, x0: i32) -> i32 {
        let f = c.f;
        let acc = self.sum(c, x0) << (32 - f);
        let e = i64_as_u32(acc) >> (32 - f);
        let y = i64_high(acc);
        *self = DirectForm1Dither {
            x1: x0,
            x2: self.x1,
            y1: y,
            y2: self.y1,
            e,
        };
        y
    }
}

impl Form<BiquadClamp> for DirectForm1Dither {
    ghost number = { clamp_number 1 };

    ghost gives = { dither_held };

    ghost after = { dither_onward };

    fn accepts(c: BiquadClamp) -> Result<(), Refusal> {
        c.refusal(1)
    }

    // The free step, its output limited.
    fn turn(&mut self, c: BiquadClamp, x0: i32) -> i32 {
        let free = self.turn(c.coeff, x0);
        let y = c.limit(free);
        self.y1 = y;
        y
    }
}
