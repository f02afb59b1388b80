// What a block does many steps at a time: the integrators over a stretch of inputs, and the combs as rings, whose
// cells stay in place until the block ends.
ghost use Rattle.std.specs.Prelude.{◌≡◌, ◌+◌, ◌≤◌, ◌<◌, length};
ghost use Rattle.std.proofs.Math.Seq.{slice};
ghost use Rattle.sums.proofs.Stretches.{ran, last_of};
ghost use Rattle.sums.proofs.Rings.{turned, rolled_at};
ghost use Rattle.sums.proofs.Lent.{Stores, IntegrateOutputs};

use crate::cascade::{comb, integrate};
use crate::state::LentCic;
use crate::word::Word;

// A block on lent arrays: the numbers after it, and how many low-rate samples it wrote or read.
#[derive(Clone, Copy)]
pub(crate) struct BlockEnd<W> {
    pub numbers: LentCic<W>,
    pub count: usize,
}

// A block on lent arrays whose delay lines are rings: the numbers after it, the place of the oldest cells, and
// how many low-rate samples it wrote or read.
#[derive(Clone, Copy)]
pub(crate) struct RingEnd<W> {
    pub numbers: LentCic<W>,
    pub at: usize,
    pub count: usize,
}

// The first n integrators over the inputs from..to. The cells are copied to a local and back, so that the
// compiler keeps them in registers where n is a constant.
pub(crate) fn integrate_inputs<W: Word>(
    cells: &mut [W; 8],
    n: usize,
    input: &[W],
    from: usize,
    to: usize,
)
    requires { (n ≤ 8) × (from ≤ to) × (to ≤ length input.now) }
    ensures { cells.new ≡ ran W.ops n (slice from to input.now) cells.old }
{
    let mut held = *cells;
    for i in from..to {
        integrate(&mut held, n, input[i]);
    }
    *cells = held;
}

// The first n integrators run from x once for each of the outputs from..to, each of which is the last one's. Other
// outputs stay.
pub(crate) fn integrate_outputs<W: Word>(
    cells: &mut [W; 8],
    n: usize,
    x: W,
    out: &mut [W],
    from: usize,
    to: usize,
)
    requires { (n ≤ 8) × (from ≤ to) × (to ≤ length out.old) }
    ensures { IntegrateOutputs W.ops n x from to cells.old out.old cells.new out.new }
{
    let mut held = *cells;
    for i in from..to {
        out[i] = integrate(&mut held, n, x);
    }
    *cells = held;
}

// What the last of the first n integrators holds; x where n is 0.
pub(crate) fn last<W: Word>(cells: &[W; 8], n: usize, x: W) -> W
    requires { n ≤ 8 }
    ensures { result ≡ last_of W.ops n x cells.now }
{
    if n == 0 {
        return x;
    }
    cells[n - 1]
}

// The first n combs run in order from x, each a store where its ring's oldest cell is, at the place `at` of its
// row. Gives what the last gives; other cells stay.
pub(crate) fn difference_ring<W: Word>(cells: &mut [W; 64], n: usize, at: usize, x: W) -> W
    requires { (n ≤ 8) × (at < 8) }
    ensures { Stores W.ops n at cells.old x cells.new result }
{
    let mut acc = x;
    for j in 0..n {
        let p = j * 8 + at;
        let oldest = cells[p];
        cells[p] = acc;
        acc = acc.sub(oldest);
    }
    acc
}

// The line of m cells at base, a ring with its oldest cell at the place `at`, with its oldest first.
fn unroll_line<W: Word>(cells: &mut [W; 64], base: usize, m: usize, at: usize)
    requires { (1 ≤ m) × (at ≤ m) × (base + m ≤ 64) }
    ensures { cells.new ≡ rolled_at base m at cells.old }
{
    for _turn in 0..at {
        let oldest = cells[base];
        comb(cells, base, m, oldest);
    }
}

// The first n lines, rings with their oldest cells at the place `at`, with their oldest first.
pub(crate) fn unroll<W: Word>(cells: &mut [W; 64], n: usize, m: usize, at: usize)
    requires { (n ≤ 8) × (1 ≤ m) × (m ≤ 8) × (at ≤ m) }
    ensures { cells.new ≡ turned m at n cells.old }
{
    for j in 0..n {
        unroll_line(cells, j * 8, m, at);
    }
}
