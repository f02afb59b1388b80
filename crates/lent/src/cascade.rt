// The cascade's two halves on lent arrays: N integrators, and N combs over their delay lines.
ghost use Rattle.std.specs.Prelude.{◌+◌, ◌≤◌};
ghost use Rattle.sums.proofs.Lent.{Integrates, Pushes, Combs};

use crate::word::Word;

// The first n integrators run in order from x, each adding its predecessor's new value. Gives the last one's;
// other cells stay.
pub(crate) fn integrate<W: Word>(cells: &mut [W; 8], n: usize, x: W) -> W
    requires { n ≤ 8 }
    ensures { Integrates W.ops n cells.old x cells.new result }
{
    let mut acc = x;
    for i in 0..n {
        acc = cells[i].add(acc);
        cells[i] = acc;
    }
    acc
}

// The comb whose line of m cells starts at base: it gives x less its oldest cell, drops that and stores x
// last. A line of one cell moves none. Other cells stay.
pub(crate) fn comb<W: Word>(cells: &mut [W; 64], base: usize, m: usize, x: W) -> W
    requires { (1 ≤ m) × (base + m ≤ 64) }
    ensures { Pushes W.ops base m cells.old x cells.new result }
{
    if m == 1 {
        let only = cells[base];
        cells[base] = x;
        return x.sub(only);
    }
    let last = m - 1;
    let end = base + last;
    let oldest = cells[base];
    for i in 0..last {
        cells[base + i] = cells[base + i + 1];
    }
    cells[end] = x;
    x.sub(oldest)
}

// The first n combs, of m cells each, run in order from x. Gives what the last gives; cells beyond n and m
// stay.
pub(crate) fn difference<W: Word>(cells: &mut [W; 64], n: usize, m: usize, x: W) -> W
    requires { (n ≤ 8) × (1 ≤ m) × (m ≤ 8) }
    ensures { Combs W.ops n m cells.old x cells.new result }
{
    let mut acc = x;
    for j in 0..n {
        acc = comb(cells, j * 8, m, acc);
    }
    acc
}
