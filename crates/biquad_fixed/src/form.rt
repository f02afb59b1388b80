// What the wide and the dithered form have in common, plain and clamped: a step and a block of steps, refused by the
// coefficients' number.
// Kept: crate `biquad` has a form of its own. A turn asks for accepted coefficients here, and no public trait's method may ask.
ghost use Rattle.std.specs.Prelude.{◌≡◌, ℕ, ℤ, length};
ghost use Rattle.blocks.specs.Blocks.{Blocked, Ran, unless};
ghost use Rattle.blocks.specs.Refusals.{answer};

use blocks::{Filter, Refusal, run};

// Coefficients of F fraction bits.
pub(crate) trait Coefficients: Copy {
    ghost bits: { Self → ℕ };

    fn fraction_bits(self) -> u32
        ensures { result ≡ bits self };

    // The same, the fraction bits by the number f: where f is written out, so is each shift by it.
    fn at(self, f: u32) -> Self
        requires { bits self ≡ f }
        ensures { result ≡ self };
}

// A form's state, and how it goes on by coefficients C.
pub(crate) trait Form<C>: Copy {
    ghost number: { C → ℕ };

    ghost gives: { C → Self → ℤ → ℤ };

    ghost after: { C → Self → ℤ → Self };

    fn accepts(c: C) -> Result<(), Refusal>
        ensures { result ≡ answer (number c) tt };

    // A step that is accepted.
    fn turn(&mut self, c: C, x0: i32) -> i32
        requires { number c ≡ 0 }
        ensures { (result ≡ gives c self.old x0) × (self.new ≡ after c self.old x0) };
}

// A state with the coefficients that it accepts.
#[derive(Drop)]
struct Accepted<C, S: Form<C>> {
    c: C,
    state: S,
    ghost accepted: { S.number c ≡ 0 },
}

impl<C: Copy, S: Form<C>> Filter for Accepted<C, S> {
    type Input = i32;

    type Output = i32;

    ghost gives = { λ a x. S.gives a.c a.state x };

    ghost after = { λ a x. record a { state = S.after a.c a.state x } };

    fn process(&mut self, x: i32) -> i32 {
        self.state.turn(self.c, x)
    }
}

// Takes the input x0: the output, and the state that has both. Refused, the state stays.
pub(crate) fn step<C: Copy, S: Form<C>>(state: &mut S, c: C, x0: i32) -> Result<i32, Refusal>
    ensures answers { result ≡ answer (S.number c) (S.gives c state.old x0) }
    ensures leaves { state.new ≡ unless (S.number c) state.old (S.after c state.old x0) }
{
    S::accepts(c)?;
    Ok(state.turn(c, x0))
}

// Takes the inputs in turn and writes their outputs. Lengths (31) where the slices differ in length, else refused as a
// step is: the state stays, and nothing is written.
pub(crate) fn block<C: Coefficients, S: Form<C>>(
    state: &mut S,
    c: C,
    xs: &[i32],
    ys: &mut [i32],
) -> Result<(), Refusal>
    ensures { Blocked (S.number c) (S.gives c) (S.after c) state.old xs.now ys.old state.new result ys.new }
{
    if xs.len() != ys.len() {
        return Err(Refusal::Lengths);
    }
    S::accepts(c)?;
    turns(state, c, xs, ys);
    Ok(())
}

// The steps of a block in turn, with a loop of its own for each number of fraction bits from 28 to 31.
fn turns<C: Coefficients, S: Form<C>>(state: &mut S, c: C, xs: &[i32], ys: &mut [i32])
    requires alike { length xs.now ≡ length ys.old }
    requires accepted { S.number c ≡ 0 }
    ensures { Ran (S.gives c) (S.after c) state.old xs.now state.new ys.new }
{
    match c.fraction_bits() {
        28 => turns_of(state, c.at(28), xs, ys),
        29 => turns_of(state, c.at(29), xs, ys),
        30 => turns_of(state, c.at(30), xs, ys),
        31 => turns_of(state, c.at(31), xs, ys),
        _ => turns_of(state, c, xs, ys),
    }
}

fn turns_of<C: Copy, S: Form<C>>(state: &mut S, c: C, xs: &[i32], ys: &mut [i32])
    requires alike { length xs.now ≡ length ys.old }
    requires accepted { S.number c ≡ 0 }
    ensures { Ran (S.gives c) (S.after c) state.old xs.now state.new ys.new }
{
    let mut going = Accepted { c, state: *state };
    run(&mut going, xs, ys);
    *state = going.state;
}
