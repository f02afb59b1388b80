// The interpolator's block on lent arrays, from sample to sample: all outputs of a hold at a time.
ghost use Rattle.std.specs.Prelude.{◌≡◌, ◌≤◌, length};
ghost use Rattle.sums.specs.Runs.{needed};
ghost use Rattle.sums.proofs.Lent.{Ready, Ring, InterpolateRun};
ghost use Rattle.lent.specs.Inner.Apart.{figures_of, apart, ringed};

use crate::state::LentCic;
use crate::stretches::{BlockEnd, RingEnd, difference_ring, integrate_outputs, unroll};
use crate::word::Word;
use shape::numbers::following;

// The steps of an interpolator's block, from sample to sample, with the delay lines as rings: the outputs of a hold, then the next sample through
// the combs into the hold, which stands for R outputs. n is the order, as in decimate_stretches; hold and countdown are locals, for registers.
fn interpolate_stretches<W: Word>(
    integrators: &mut [W; 8],
    combs: &mut [W; 64],
    n: usize,
    first: LentCic<W>,
    input: &[W],
    out: &mut [W],
) -> RingEnd<W>
    requires { (n ≡ first.order) × Ready (apart first integrators.old combs.old)
        × (needed (length out.old) first.countdown first.rate ≤ length input.now) }
    ensures { Ring n result.at (figures_of result.numbers) combs.new
        × InterpolateRun W.ops (apart first integrators.old combs.old) input.now out.old
        (ringed result.numbers integrators.new combs.new result.at) result.count out.new }
{
    let delay = first.delay;
    let span = first.rate as usize + 1;
    let mut countdown = first.countdown as usize;
    let mut hold = first.hold;
    let mut at: usize = 0;
    let mut k: usize = 0;
    let mut i: usize = 0;
    while countdown < out.len() - i {
        let end = i + countdown;
        integrate_outputs(integrators, n, hold, out, i, end);
        hold = difference_ring(combs, n, at, input[k]);
        countdown = span;
        at = following(at, delay);
        k += 1;
        i = end;
    }
    let end = out.len();
    integrate_outputs(integrators, n, hold, out, i, end);
    let left = end - i;
    let mut numbers = first;
    numbers.countdown = (countdown - left) as u32;
    numbers.hold = hold;
    RingEnd {
        numbers,
        at,
        count: k,
    }
}

// The same with lines of one cell, as decimate_one_cell.
fn interpolate_one_cell<W: Word>(
    integrators: &mut [W; 8],
    combs: &mut [W; 64],
    n: usize,
    first: LentCic<W>,
    input: &[W],
    out: &mut [W],
) -> RingEnd<W>
    requires { (first.delay ≡ 1) × (n ≡ first.order) × Ready (apart first integrators.old combs.old)
        × (needed (length out.old) first.countdown first.rate ≤ length input.now) }
    ensures { Ring n result.at (figures_of result.numbers) combs.new
        × InterpolateRun W.ops (apart first integrators.old combs.old) input.now out.old
        (ringed result.numbers integrators.new combs.new result.at) result.count out.new }
{
    let mut one = first;
    one.delay = 1;
    interpolate_stretches(integrators, combs, n, one, input, out)
}

// The same, once for each order, and once more for the orders of nearly every product, whose delay is one.
fn interpolate_by_order<W: Word>(
    integrators: &mut [W; 8],
    combs: &mut [W; 64],
    first: LentCic<W>,
    input: &[W],
    out: &mut [W],
) -> RingEnd<W>
    requires { Ready (apart first integrators.old combs.old)
        × (needed (length out.old) first.countdown first.rate ≤ length input.now) }
    ensures { Ring first.order result.at (figures_of result.numbers) combs.new
        × InterpolateRun W.ops (apart first integrators.old combs.old) input.now out.old
        (ringed result.numbers integrators.new combs.new result.at) result.count out.new }
{
    let n = first.order;
    if first.delay == 1 {
        match n {
            1 => return interpolate_one_cell(integrators, combs, n, first, input, out),
            2 => return interpolate_one_cell(integrators, combs, n, first, input, out),
            3 => return interpolate_one_cell(integrators, combs, n, first, input, out),
            4 => return interpolate_one_cell(integrators, combs, n, first, input, out),
            _ => {}
        }
    }
    match n {
        0 => interpolate_stretches(integrators, combs, n, first, input, out),
        1 => interpolate_stretches(integrators, combs, n, first, input, out),
        2 => interpolate_stretches(integrators, combs, n, first, input, out),
        3 => interpolate_stretches(integrators, combs, n, first, input, out),
        4 => interpolate_stretches(integrators, combs, n, first, input, out),
        5 => interpolate_stretches(integrators, combs, n, first, input, out),
        6 => interpolate_stretches(integrators, combs, n, first, input, out),
        7 => interpolate_stretches(integrators, combs, n, first, input, out),
        8 => interpolate_stretches(integrators, combs, n, first, input, out),
        _ => interpolate_stretches(integrators, combs, n, first, input, out),
    }
}

// The steps of an interpolator's block in turn, on an accepted state whose arrays are lent. Every element of
// out is written.
pub(crate) fn interpolate_run<W: Word>(
    integrators: &mut [W; 8],
    combs: &mut [W; 64],
    first: LentCic<W>,
    input: &[W],
    out: &mut [W],
) -> BlockEnd<W>
    requires { Ready (apart first integrators.old combs.old)
        × (needed (length out.old) first.countdown first.rate ≤ length input.now) }
    ensures { InterpolateRun W.ops (apart first integrators.old combs.old)
        input.now out.old
        (apart result.numbers integrators.new combs.new) result.count out.new }
{
    let r = interpolate_by_order(integrators, combs, first, input, out);
    let numbers = r.numbers;
    unroll(combs, numbers.order, numbers.delay, r.at);
    BlockEnd {
        numbers,
        count: r.count,
    }
}
