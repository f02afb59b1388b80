// Direct form 1 with wide outputs: the state keeps 32 bits of each output below its word.
ghost use Rattle.std.specs.Prelude.{◌≡◌, ◌^◌, pos, ◌+ℤ◌, ◌*ℤ◌};
ghost use Rattle.std.specs.Int.{w32, w64};
ghost use Rattle.words.specs.Words.{word, wrap, floor_div};
ghost use Rattle.blocks.specs.Blocks.{Blocked};
ghost use Rattle.biquad_fixed.specs.Forms.{wide_sum, wide_out, wide_next, overwritten, wide_held, wide_onward};
ghost use Rattle.biquad_fixed.specs.Answers.{fraction_number, clamp_number, wide_of, wide_clamp_of};

use crate::coefficients::{Biquad, BiquadClamp};
use crate::form::{Form, block, step};
use blocks::Refusal;
use words::casts::{i64_as_u32, i64_high};
use words::signed::product;

// x1 and y1 are the latest, x2 and y2 those before. An output's high word is what was given out.
#[derive(Clone, Copy)]
pub struct DirectForm1Wide {
    pub x1: i32,
    pub x2: i32,
    pub y1: i64,
    pub y2: i64,
}

// The low word, read as unsigned.
fn low_of(y: i64) -> i64
    ensures { result ≡ pos (word w32 y) }
{
    i64::from(i64_as_u32(y))
}

// The low word times a coefficient: 64 bits always hold it.
fn low_product(y: i64, a: i32) -> i64
    ensures { result ≡ pos (word w32 y) *ℤ a }
{
    low_of(y) * i64::from(a)
}

// acc grown by the wide output y times a, divided by 2^32 and rounded down: by its low word, then by its high word.
fn fed(acc: i64, y: i64, a: i32) -> i64
    ensures { result ≡ wrap w64 (acc +ℤ floor_div (y *ℤ a) (2 ^ 32)) }
{
    let low = low_product(y, a) >> 32;
    let high = product(i64_high(y), a);
    acc.wrapping_add(low).wrapping_add(high)
}

// y over the high word of acc, whose low word stays.
fn overwrite(acc: i64, y: i32) -> i64
    ensures { result ≡ overwritten acc y }
{
    let high = i64::from(y);
    let low = low_of(acc);
    (high << 32).wrapping_add(low)
}

impl DirectForm1Wide {
    // Takes the input x0: the output, and the state that has both. 40 where f is above 31: the state stays.
    pub fn process(&mut self, c: Biquad, x0: i32) -> Result<i32, Refusal>
        ensures answers { result ≡ (wide_of c self.old x0).out }
        ensures leaves { self.new ≡ (wide_of c self.old x0).state }
    {
        step(self, c, x0)
    }

    // The same with offset and limits; the limited output goes over the high word. 40, 41: the state stays.
    pub fn process_clamp(&mut self, c: BiquadClamp, x0: i32) -> Result<i32, Refusal>
        ensures answers { result ≡ (wide_clamp_of c self.old x0).out }
        ensures leaves { self.new ≡ (wide_clamp_of c self.old x0).state }
    {
        step(self, c, x0)
    }

    // Takes the inputs in turn and writes their outputs. 31 where the slices differ in length, else 40: the state
    // stays, and nothing is written.
    pub fn block(&mut self, c: Biquad, xs: &[i32], ys: &mut [i32]) -> Result<(), Refusal>
        ensures { Blocked (fraction_number 0 c) (wide_out c) (wide_next c) self.old xs.now ys.old
            self.new result ys.new }
    {
        block(self, c, xs, ys)
    }

    // The same with offset and limits. 31, 40, 41: the state stays, and nothing is written.
    pub fn block_clamp(&mut self, c: BiquadClamp, xs: &[i32], ys: &mut [i32]) -> Result<(), Refusal>
        ensures { Blocked (clamp_number 0 c) (wide_held c) (wide_onward c) self.old xs.now ys.old
            self.new result ys.new }
    {
        block(self, c, xs, ys)
    }

    // The wrapped sum.
    fn sum(self, c: Biquad, x0: i32) -> i64
        ensures { result ≡ wide_sum c self x0 }
    {
        fed(
            fed(c.inputs(x0, self.x1, self.x2), self.y1, c.a1),
            self.y2,
            c.a2,
        )
    }
}

impl Form<Biquad> for DirectForm1Wide {
    ghost number = { fraction_number 0 };

    ghost gives = { wide_out };

    ghost after = { wide_next };

    fn accepts(c: Biquad) -> Result<(), Refusal> {
        c.fraction(0)
    }

    fn turn(&mut self, c: Biquad, x0: i32) -> i32 {
        let f = c.f;
        let acc = self.sum(c, x0) << (32 - f);
        let y = i64_high(acc);
        *self = DirectForm1Wide {
            x1: x0,
            x2: self.x1,
            y1: acc,
            y2: self.y1,
        };
        y
    }
}

impl Form<BiquadClamp> for DirectForm1Wide {
    ghost number = { clamp_number 0 };

    ghost gives = { wide_held };

    ghost after = { wide_onward };

    fn accepts(c: BiquadClamp) -> Result<(), Refusal> {
        c.refusal(0)
    }

    // The free step, its output limited.
    fn turn(&mut self, c: BiquadClamp, x0: i32) -> i32 {
        let free = self.turn(c.coeff, x0);
        let y = c.limit(free);
        self.y1 = overwrite(self.y1, y);
        y
    }
}
