// A filter that takes an input a step and gives an output a step, and its block: what its steps in turn would give.
ghost use Rattle.std.specs.Prelude.{◌≡◌};
ghost use Rattle.blocks.specs.Blocks.{Fed, Blocked};

use crate::refusal::Refusal;

pub trait Filter {
    type Input: Copy;

    type Output: Copy;

    // What a step gives, and the state after it.
    ghost gives: { Self → Self.Input → Self.Output };

    ghost after: { Self → Self.Input → Self };

    fn process(&mut self, x: Self::Input) -> Self::Output
        ensures { (result ≡ gives self.old x) × (self.new ≡ after self.old x) };
}

// The steps over xs in turn, as long as ys has a place for what each gives; the rest of ys stays.
pub fn run<F: Filter>(filter: &mut F, xs: &[F::Input], ys: &mut [F::Output])
    ensures { Fed F.gives F.after filter.old xs.now ys.old filter.new ys.new }
{
    let count = xs.len().min(ys.len());
    for (i, &x) in xs[..count].iter().enumerate() {
        ys[i] = filter.process(x);
    }
}

// The steps over all of xs, with a place in ys for each output. Where the slices differ in length it is refused, and nothing changes.
pub fn block<F: Filter>(
    filter: &mut F,
    xs: &[F::Input],
    ys: &mut [F::Output],
) -> Result<(), Refusal>
    ensures { Blocked 0 F.gives F.after filter.old xs.now ys.old filter.new result ys.new }
{
    if xs.len() != ys.len() {
        return Err(Refusal::Lengths);
    }
    run(filter, xs, ys);
    Ok(())
}
