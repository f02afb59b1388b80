// Wraps mapped to saturation: clamped to the range's end on a wrap, free again on the wrap back.
ghost use Rattle.std.specs.Prelude.{◌≡◌};
ghost use Rattle.blocks.specs.Blocks.{Blocked};
ghost use Rattle.unwrap.specs.Phases.{clamped_by, clamp_out, clamp_next};

use crate::wrapping::{Wrap, overflowing_sub};
use blocks::{Filter, Refusal};

#[derive(Clone, Copy, Debug, PartialEq, Eq)]
pub struct ClampWrap {
    // The last input.
    pub x0: i32,
    pub clamp: Wrap,
}

// The least value, the input, or the greatest.
fn held_to(clamp: Wrap, x: i32) -> i32
    ensures { result ≡ clamped_by clamp x }
{
    match clamp {
        Wrap::Negative => i32::MIN,
        Wrap::None => x,
        Wrap::Positive => i32::MAX,
    }
}

impl Filter for ClampWrap {
    type Input = i32;

    type Output = i32;

    ghost gives = { clamp_out };

    ghost after = { clamp_next };

    // Takes the input x: the wrap since the last input joins the clamp, which picks the output.
    fn process(&mut self, x: i32) -> i32 {
        let step = overflowing_sub(x, self.x0);
        self.clamp = self.clamp.add(step.wrap);
        self.x0 = x;
        held_to(self.clamp, x)
    }
}

impl ClampWrap {
    // Takes the inputs in turn and writes their outputs. Lengths where the slices differ in length: nothing changes.
    pub fn block(&mut self, xs: &[i32], ys: &mut [i32]) -> Result<(), Refusal>
        ensures { Blocked 0 clamp_out clamp_next self.old xs.now ys.old self.new result ys.new }
    {
        blocks::block(self, xs, ys)
    }
}
