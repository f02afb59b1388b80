// What the two direct forms have in common, plain and clamped: a step, and a block of steps, refused by the coefficients'
// number.
ghost use Rattle.std.specs.Prelude.{◌≡◌, ℕ, Float};
ghost use Rattle.blocks.specs.Blocks.{Blocked, unless};
ghost use Rattle.blocks.specs.Refusals.{answer};

use blocks::{Filter, Refusal, run};

// Coefficients, plain or with offset and limits.
pub(crate) trait Coefficients: Copy {
    ghost number: { Self → ℕ };

    fn refusal(self) -> Result<(), Refusal>
        ensures { result ≡ answer (number self) tt };
}

// A form's state, and how it goes on by coefficients C.
pub(crate) trait Form<C>: Copy {
    ghost gives: { C → Self → Float → Float };

    ghost after: { C → Self → Float → Self };

    fn turn(&mut self, c: C, x: f64) -> f64
        ensures { (result ≡ gives c self.old x) × (self.new ≡ after c self.old x) };
}

// A state with the coefficients by which it goes on.
#[derive(Drop)]
struct Going<C, S> {
    c: C,
    state: S,
}

impl<C: Copy, S: Form<C>> Filter for Going<C, S> {
    type Input = f64;

    type Output = f64;

    ghost gives = { λ a x. S.gives a.c a.state x };

    ghost after = { λ a x. record a { state = S.after a.c a.state x } };

    fn process(&mut self, x: f64) -> f64 {
        self.state.turn(self.c, x)
    }
}

// Takes the input x: the output, and the state that has both. Refused, the state stays.
pub(crate) fn step<C: Coefficients, S: Form<C>>(state: &mut S, c: C, x: f64) -> Result<f64, Refusal>
    ensures answers { result ≡ answer (C.number c) (S.gives c state.old x) }
    ensures leaves { state.new ≡ unless (C.number c) state.old (S.after c state.old x) }
{
    c.refusal()?;
    Ok(state.turn(c, x))
}

// Takes the inputs in turn and writes their outputs. Lengths (31) where the slices differ in length, else refused as a
// step is: the state stays, and nothing is written.
pub(crate) fn block<C: Coefficients, S: Form<C>>(
    state: &mut S,
    c: C,
    xs: &[f64],
    ys: &mut [f64],
) -> Result<(), Refusal>
    ensures { Blocked (C.number c) (S.gives c) (S.after c) state.old xs.now ys.old state.new result ys.new }
{
    if xs.len() != ys.len() {
        return Err(Refusal::Lengths);
    }
    c.refusal()?;
    let mut going = Going { c, state: *state };
    run(&mut going, xs, ys);
    *state = going.state;
    Ok(())
}
