// The decimator's block on lent arrays, a stretch at a time: all inputs up to the next output.
ghost use Rattle.std.specs.Prelude.{◌≡◌, ◌+◌, ◌-◌, ◌≤◌, ◌<◌, length};
ghost use Rattle.sums.specs.Runs.{needed};
ghost use Rattle.sums.proofs.Lent.{Ready, Ring, DecimateStretch, DecimateRest, DecimateRun};
ghost use Rattle.lent.specs.Inner.Apart.{figures_of, apart, ringed, given_of};

use crate::state::LentCic;
use crate::stretches::{BlockEnd, RingEnd, difference_ring, integrate_inputs, last, unroll};
use crate::word::Word;
use shape::numbers::following;

// Where a stretch ends: the numbers after it, the output that it gives, the place of the oldest cells, and the next input.
#[derive(Clone, Copy)]
pub(crate) struct StretchEnd<W> {
    pub numbers: LentCic<W>,
    pub gave: Option<W>,
    pub at: usize,
    pub next: usize,
}

// From input i to the next output, which falls on input i + countdown: the integrators run over all of them, then
// the combs once. n is the order.
fn decimate_stretch<W: Word>(
    integrators: &mut [W; 8],
    combs: &mut [W; 64],
    n: usize,
    first: LentCic<W>,
    at: usize,
    input: &[W],
    i: usize,
) -> StretchEnd<W>
    requires { Ring n at (figures_of first) combs.old × Ready (ringed first integrators.old combs.old at)
        × (i + first.countdown < length input.now) }
    ensures { DecimateStretch W.ops n input.now (ringed first integrators.old combs.old at) i
        (figures_of result.numbers) integrators.new combs.new result.at (given_of result.gave first.unsettled) result.next }
{
    let end = i + first.countdown as usize;
    let next = end + 1;
    integrate_inputs(integrators, n, input, i, next);
    let hold = difference_ring(combs, n, at, last(integrators, n, input[end]));
    let mut numbers = first;
    numbers.countdown = first.rate;
    numbers.unsettled = first.unsettled.saturating_sub(1);
    numbers.hold = hold;
    StretchEnd {
        numbers,
        gave: Some(hold),
        at: following(at, first.delay),
        next,
    }
}

// The inputs from i on, which end before the next output.
fn decimate_rest<W: Word>(
    integrators: &mut [W; 8],
    n: usize,
    first: LentCic<W>,
    input: &[W],
    i: usize,
) -> LentCic<W>
    requires { (n ≤ 8) × (i ≤ length input.now) × (length input.now - i ≤ first.countdown) }
    ensures { DecimateRest W.ops n input.now i (figures_of first) integrators.old (figures_of result)
        integrators.new }
{
    let end = input.len();
    integrate_inputs(integrators, n, input, i, end);
    let left = end - i;
    let mut numbers = first;
    numbers.countdown = first.countdown - left as u32;
    numbers
}

// The steps of a decimator's block, a stretch at a time, with the delay lines as rings. n is the order: where it
// is a constant, the compiler unrolls the integrators and the combs.
fn decimate_stretches<W: Word>(
    integrators: &mut [W; 8],
    combs: &mut [W; 64],
    n: usize,
    first: LentCic<W>,
    input: &[W],
    out: &mut [W],
) -> RingEnd<W>
    requires { (n ≡ first.order) × Ready (apart first integrators.old combs.old)
        × (needed (length input.now) first.countdown first.rate ≤ length out.old) }
    ensures { Ring n result.at (figures_of result.numbers) combs.new
        × DecimateRun W.ops (apart first integrators.old combs.old) input.now out.old
        (ringed result.numbers integrators.new combs.new result.at) result.count out.new }
{
    let mut numbers = first;
    let mut at: usize = 0;
    let mut k: usize = 0;
    let mut i: usize = 0;
    while (numbers.countdown as usize) < input.len() - i {
        let t = decimate_stretch(integrators, combs, n, numbers, at, input, i);
        numbers = t.numbers;
        at = t.at;
        i = t.next;
        if let Some(y) = t.gave {
            out[k] = y;
            k += 1;
        }
    }
    let numbers = decimate_rest(integrators, n, numbers, input, i);
    RingEnd {
        numbers,
        at,
        count: k,
    }
}

// The same with lines of one cell. The delay as a constant spares the ring's place: after the only cell comes itself.
fn decimate_one_cell<W: Word>(
    integrators: &mut [W; 8],
    combs: &mut [W; 64],
    n: usize,
    first: LentCic<W>,
    input: &[W],
    out: &mut [W],
) -> RingEnd<W>
    requires { (first.delay ≡ 1) × (n ≡ first.order) × Ready (apart first integrators.old combs.old)
        × (needed (length input.now) first.countdown first.rate ≤ length out.old) }
    ensures { Ring n result.at (figures_of result.numbers) combs.new
        × DecimateRun W.ops (apart first integrators.old combs.old) input.now out.old
        (ringed result.numbers integrators.new combs.new result.at) result.count out.new }
{
    let mut one = first;
    one.delay = 1;
    decimate_stretches(integrators, combs, n, one, input, out)
}

// The same, once for each order, and once more for the orders of nearly every product, whose delay is one.
fn decimate_by_order<W: Word>(
    integrators: &mut [W; 8],
    combs: &mut [W; 64],
    first: LentCic<W>,
    input: &[W],
    out: &mut [W],
) -> RingEnd<W>
    requires { Ready (apart first integrators.old combs.old)
        × (needed (length input.now) first.countdown first.rate ≤ length out.old) }
    ensures { Ring first.order result.at (figures_of result.numbers) combs.new
        × DecimateRun W.ops (apart first integrators.old combs.old) input.now out.old
        (ringed result.numbers integrators.new combs.new result.at) result.count out.new }
{
    let n = first.order;
    if first.delay == 1 {
        match n {
            1 => return decimate_one_cell(integrators, combs, n, first, input, out),
            2 => return decimate_one_cell(integrators, combs, n, first, input, out),
            3 => return decimate_one_cell(integrators, combs, n, first, input, out),
            4 => return decimate_one_cell(integrators, combs, n, first, input, out),
            _ => {}
        }
    }
    match n {
        0 => decimate_stretches(integrators, combs, n, first, input, out),
        1 => decimate_stretches(integrators, combs, n, first, input, out),
        2 => decimate_stretches(integrators, combs, n, first, input, out),
        3 => decimate_stretches(integrators, combs, n, first, input, out),
        4 => decimate_stretches(integrators, combs, n, first, input, out),
        5 => decimate_stretches(integrators, combs, n, first, input, out),
        6 => decimate_stretches(integrators, combs, n, first, input, out),
        7 => decimate_stretches(integrators, combs, n, first, input, out),
        8 => decimate_stretches(integrators, combs, n, first, input, out),
        _ => decimate_stretches(integrators, combs, n, first, input, out),
    }
}

// The steps of a decimator's block in turn, on an accepted state whose arrays are lent. The outputs go to the
// front of out; the rest of it stays.
pub(crate) fn decimate_run<W: Word>(
    integrators: &mut [W; 8],
    combs: &mut [W; 64],
    first: LentCic<W>,
    input: &[W],
    out: &mut [W],
) -> BlockEnd<W>
    requires { Ready (apart first integrators.old combs.old)
        × (needed (length input.now) first.countdown first.rate ≤ length out.old) }
    ensures { DecimateRun W.ops (apart first integrators.old combs.old)
        input.now out.old
        (apart result.numbers integrators.new combs.new) result.count out.new }
{
    let r = decimate_by_order(integrators, combs, first, input, out);
    let numbers = r.numbers;
    unroll(combs, numbers.order, numbers.delay, r.at);
    BlockEnd {
        numbers,
        count: r.count,
    }
}
